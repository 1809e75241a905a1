//! Laws of records, of their greatest orders, and of all runs, for every list of events and every lawful front end.
//! Each is a function that does nothing: its contract is the law.
ghost use Rattle.std.specs.Prelude.{ℕ, ◌≡◌, ◌≢◌, List, ◌↔◌, ◌+◌, ◌≤◌, length};
ghost use Rattle.reg_base.specs.declared.memory.Op.{Op};
ghost use Rattle.reg_base.specs.Shape.{Extent};
ghost use Rattle.reg_front.specs.declared.starts.Start.{Start};
ghost use Rattle.reg_checkers.specs.declared.entries.Entry.{Entry};
ghost use Rattle.reg_checkers.specs.History.{IsHistory};
ghost use Rattle.reg_world.specs.Worlds.{Made, run_in};
ghost use Rattle.reg_records.specs.declared.entries.LogEntry.{LogEntry};
ghost use Rattle.reg_records.specs.declared.entries.Receipt.{Receipt};
ghost use Rattle.reg_records.specs.declared.faults.CloseFault.{CloseFault};
ghost use Rattle.reg_records.specs.declared.faults.CloseFault.TheVariants.{OutOfMemory};
ghost use Rattle.reg_records.specs.Records.{IsFaithful, AreAlike, NothingLeft};
ghost use Rattle.reg_records.specs.Receipts.{AreFinished, IsRecord, IsRecordFault};
ghost use Rattle.reg_records.specs.declared.merging.MergeFault.{MergeFault};
ghost use Rattle.reg_records.specs.declared.merging.MergeFault.TheVariants.{OutOfMemory as MergeOutOfMemory};
ghost use Rattle.reg_records.specs.Merges.{HasOrder, IsGreatest, IsMergeFault};
ghost use Rattle.reg_base.specs.declared.limits.TheConstants.{MOST_EVENTS};
ghost use Rattle.reg_base.specs.declared.memory.OpId.{OpId};
ghost use Rattle.reg_front.specs.Fronts.{KeepsLaws};
ghost use Rattle.reg_process.specs.declared.events.Event.{Event};
ghost use Rattle.reg_world.specs.Laws.{AllAcknowledged};
ghost use Rattle.reg_world.specs.Keys.{IsWitness};
ghost use Rattle.reg_world.specs.World.{run_of, whole};
ghost use Rattle.reg_records.specs.Rest.{distance, most_to_rest, CanRest};
ghost use Rattle.reg_records.specs.Steps.{HaveSameSteps};

/// All worlds that a faithful record ends in are alike: they differ at most in the places from which equal frames were
/// taken.
pub fn one_run()
    ensures { (start : Op → ℕ → Start) (shape : Extent) (order : List ℕ) (logs : List (List LogEntry)) (u v : Made)
        → IsFaithful start shape order logs u → IsFaithful start shape order logs v → AreAlike start u v }
{}

/// A process has one list of finished operations.
pub fn one_list()
    ensures { (n registers : ℕ) (h : List Entry) → IsHistory n registers h → (p : ℕ) (a b : List Receipt)
        → AreFinished h p a → AreFinished h p b → a ≡ b }
{}

/// Where a fault is named, and it isn't `OutOfMemory`, no world makes the record a run with these receipts. So, memory
/// aside, a record is accepted exactly where it is one.
pub fn fault_is_no_record()
    ensures { (start : Op → ℕ → Start) (shape : Extent) (order : List ℕ) (logs : List (List LogEntry))
        (lists : List (List Receipt)) (fault : CloseFault)
        → fault ≢ OutOfMemory → IsRecordFault start shape order logs lists fault → (w : Made)
        → ¬ IsRecord start shape order logs lists w }
{}

/// A greatest order that leaves nothing out is a run of all entries.
pub fn greatest_is_run()
    ensures { (start : Op → ℕ → Start) (shape : Extent) (logs : List (List LogEntry)) (order : List ℕ)
        → IsGreatest start shape logs order → NothingLeft order logs
        → (w : Made) × IsFaithful start shape order logs w }
{}

/// If any order of all entries is a run, a greatest order leaves nothing out.
pub fn greatest_finds_all()
    ensures { (start : Op → ℕ → Start) (shape : Extent) (logs : List (List LogEntry)) (order : List ℕ)
        → IsGreatest start shape logs order → HasOrder start shape logs → NothingLeft order logs }
{}

/// Where a fault is named, and it isn't `OutOfMemory`, no order of all entries is a run.
pub fn fault_is_no_order()
    ensures { (start : Op → ℕ → Start) (shape : Extent) (logs : List (List LogEntry)) (fault : MergeFault)
        → fault ≢ MergeOutOfMemory → IsMergeFault start shape logs fault → ¬ HasOrder start shape logs }
{}

/// Every run that has room for as many more events as the bound says can come to rest, by no more ticks and takes than
/// that, whatever was lost before.
pub fn can_rest()
    ensures { (start : Op → ℕ → Start) (n registers : ℕ) (events : List Event) → KeepsLaws start
        → length (whole start n registers events).accepted + most_to_rest n (whole start n registers events).nodes
        ≤ MOST_EVENTS
        → CanRest start n registers events }
{}

/// A run is at no distance from rest exactly where no frame is left unacknowledged.
pub fn rests_at_no_distance()
    ensures { (start : Op → ℕ → Start) (n registers : ℕ) (events : List Event)
        → AllAcknowledged n (whole start n registers events).nodes
        ↔ distance n (whole start n registers events).nodes ≡ 0 }
{}

/// Two runs in which each process makes the same steps have the same witness, the order that `World::witness` gives,
/// whatever came when. So the runs of the same logs, in whatever orders of their entries, have one witness: it is
/// decided by what each process wrote down.
pub fn one_witness()
    ensures steps { (start : Op → ℕ → Start) (n registers : ℕ) (a b : List Event) (ids others : List OpId)
        → KeepsLaws start → HaveSameSteps start n registers a b
        → IsWitness (run_of registers (whole start n registers a)) ids
        → IsWitness (run_of registers (whole start n registers b)) others → ids ≡ others }
    ensures logs { (start : Op → ℕ → Start) (shape : Extent) (logs : List (List LogEntry)) (order other : List ℕ)
        (u v : Made) (ids others : List OpId)
        → KeepsLaws start → IsFaithful start shape order logs u → IsFaithful start shape other logs v
        → IsWitness (run_of u.registers (run_in start u)) ids → IsWitness (run_of v.registers (run_in start v)) others
        → ids ≡ others }
{}
