//! What the law of front ends comes to. A function that does nothing: its contract is what holds.
ghost use Rattle.std.specs.Prelude.{ℕ, ◌≡◌};
ghost use Rattle.reg_base.specs.declared.memory.Op.{Op};
ghost use Rattle.reg_base.specs.declared.memory.Op.TheVariants.{Swap, CompareAndSwap};
ghost use Rattle.reg_front.specs.declared.starts.Start.{Start};
ghost use Rattle.reg_front.specs.declared.starts.Start.TheVariants.{Cast};
ghost use Rattle.reg_front.specs.Fronts.{KeepsLaws, CastsWhatTells};

/// Under every front end an operation that may change the memory, and whose answer tells of it, is cast and runs until
/// its delivery. A swap is such an operation, and so is a compare-and-swap.
pub fn what_tells_is_cast()
    ensures all { (start : Op → ℕ → Start) → KeepsLaws start → CastsWhatTells start }
    ensures swap { (start : Op → ℕ → Start) → KeepsLaws start → (register value unsettled : ℕ)
        → start (Swap register value) unsettled ≡ Cast }
    ensures compare_and_swap { (start : Op → ℕ → Start) → KeepsLaws start → (register expected value unsettled : ℕ)
        → start (CompareAndSwap register expected value) unsettled ≡ Cast }
{}
