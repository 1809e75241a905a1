//! Laws of interleavings and runs, for every lawful front end. Each is a function that does nothing: its contract is
//! the law.
ghost use Rattle.std.specs.Prelude.{ℕ, ◌≡◌, ◌<◌, ◌↔◌, List, length};
ghost use Rattle.reg_base.specs.declared.memory.Op.{Op};
ghost use Rattle.reg_front.specs.declared.starts.Start.{Start};
ghost use Rattle.reg_front.specs.Fronts.{KeepsLaws};
ghost use Rattle.reg_outcomes.specs.declared.told.ToldAnswer.{ToldAnswer as AnyAnswer};
ghost use Rattle.reg_process.specs.declared.events.Event.{Event};
ghost use Rattle.reg_world.specs.World.{whole};
ghost use Rattle.reg_workload.specs.Plays.{FollowsScript};
ghost use Rattle.reg_outcomes.specs.Finishing.{AllAnswered, HasRoom, HaveAllOutcomes, IsOutcome, UsesUp};
ghost use Rattle.reg_outcomes.specs.Interleavings.{AreAll, ArePlayable, Interleaving, IsInterleaving};

/// Where processes call the operations of their scripts in order and no other, they use the scripts up just where each
/// operation of the scripts is answered.
pub fn used_up_where_answered()
    ensures { (start : Op → ℕ → Start) (scripts : List (List Op)) (registers : ℕ) (events : List Event)
        → KeepsLaws start → (whole start (length scripts) registers events).accepted ≡ events
        → ((p : ℕ) → p < length scripts → FollowsScript scripts events p)
        → UsesUp start scripts registers events
        ↔ AllAnswered scripts (whole start (length scripts) registers events).history }
{}

/// No outcome is missing among the interleavings: whatever a run that uses the scripts up tells, some interleaving
/// tells.
pub fn none_missing()
    ensures { (start : Op → ℕ → Start) (scripts : List (List Op)) (registers : ℕ) (told : List AnyAnswer)
        → KeepsLaws start → IsOutcome start scripts registers told
        → (turns : List ℕ) × IsInterleaving scripts registers (record { turns = turns; told = told }) }
{}

/// Each interleaving of playable scripts has a run, if the bound `HasRoom` holds of them: whatever the operations are
/// told in it, they are told the same in some run that uses the scripts up, under any lawful front end.
pub fn each_has_a_run()
    ensures { (start : Op → ℕ → Start) (scripts : List (List Op)) (registers : ℕ) (i : Interleaving) → KeepsLaws start
        → ArePlayable scripts registers → HasRoom scripts → IsInterleaving scripts registers i
        → IsOutcome start scripts registers i.told }
{}

/// The outcomes of the interleavings of playable scripts of which the bound `HasRoom` holds are those of the runs,
/// whatever is lost, repeated or reordered, and by its outcomes no lawful front end is told from another.
pub fn alike()
    ensures all { (start : Op → ℕ → Start) (scripts : List (List Op)) (registers : ℕ) (found : List Interleaving)
        → KeepsLaws start → ArePlayable scripts registers → HasRoom scripts → AreAll scripts registers found
        → HaveAllOutcomes start scripts registers found }
    ensures alike { (one other : Op → ℕ → Start) (scripts : List (List Op)) (registers : ℕ) (told : List AnyAnswer)
        → KeepsLaws one → KeepsLaws other → ArePlayable scripts registers → HasRoom scripts
        → IsOutcome one scripts registers told → IsOutcome other scripts registers told }
{}
