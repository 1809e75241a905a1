//! What holds of one process after every event. A function that does nothing: its contract is the law.
ghost use Rattle.std.specs.Prelude.{ℕ};
ghost use Rattle.reg_base.specs.declared.memory.Op.{Op};
ghost use Rattle.reg_front.specs.declared.starts.Start.{Start};
ghost use Rattle.reg_process.specs.declared.steps.Step.{Step};
ghost use Rattle.reg_process.specs.Process.{State, step};
ghost use Rattle.reg_process.specs.Parts.{state_of, first_parts};
ghost use Rattle.reg_process.specs.Settled.{NoneWaits};

/// No held cast is clear between events.
pub fn none_clear_waits()
    ensures first { (me n registers : ℕ) → NoneWaits (state_of (first_parts me n registers)) }
    ensures kept { (start : Op → ℕ → Start) (s : State) (e : Step) → NoneWaits s → NoneWaits (step start s e).0 }
{}
