//! The front ends, and what each has to keep.
ghost use Rattle.std.specs.Prelude.{◌≡◌, ℕ, ◌==◌, if◌then◌else◌};
ghost use Rattle.reg_base.specs.declared.memory.Op.{Op};
ghost use Rattle.reg_front.specs.declared.starts.Start.{Start};
ghost use Rattle.reg_front.specs.declared.starts.Start.TheVariants.{Cast, Look, Hold};
ghost use Rattle.reg_front.specs.Fronts.{MayStart};
ghost use Rattle.reg_front.specs.Table.{linear, local_read, local_write};
ghost use Rattle.reg_front.specs.Keeps.{linear_keeps, linear_casts, local_read_keeps, local_write_keeps};

use crate::starts::Start;
use reg_base::Op;

/// Decides how each operation starts. Every front end keeps `lawful`, by which the histories of its runs are
/// sequentially consistent (Lamport 1979, Attiya and Welch 1994).
pub trait FrontEnd {
    /// How each operation starts, by the number of own casts on their way.
    ghost start: { Op → ℕ → Start };

    /// How an operation starts where `unsettled` own casts are not yet delivered at the process that calls it.
    fn start(op: &Op, unsettled: u32) -> Start
        ensures { result ≡ start op.now unsettled };

    /// What may change the memory is cast. It is answered at once only where its answer is Done on every memory, so a
    /// swap or a compare-and-swap runs until its delivery. What isn't cast is answered from the copy: at once where no
    /// own cast is on its way, and else once every own cast is delivered.
    ghost lawful: { (op : Op) (unsettled : ℕ) → MayStart op unsettled (start op unsettled) };
}

/// A front end that casts every operation, so that the histories of its runs are linearizable too (Herlihy and Wing
/// 1990).
pub trait RealTime: FrontEnd {
    /// Every operation is cast, and runs until its delivery.
    ghost casts_all: { (op : Op) (unsettled : ℕ) → Self.start op unsettled ≡ Cast };
}

/// Casts every operation, which runs until its delivery (Lamport 1978, the replicated state machine).
pub struct Linear;

impl FrontEnd for Linear {
    ghost start = { linear };

    fn start(_op: &Op, _unsettled: u32) -> Start {
        Start::Cast
    }

    ghost lawful = { linear_keeps };
}

impl RealTime for Linear {
    ghost casts_all = { linear_casts };
}

/// Casts writes, swaps and compare-and-swaps, which run until their delivery. A read waits until every own cast is
/// delivered, and is answered from the own copy (Attiya and Welch 1994).
pub struct LocalRead;

impl FrontEnd for LocalRead {
    ghost start = { local_read };

    fn start(op: &Op, unsettled: u32) -> Start {
        match *op {
            Op::Read { register: _ } => look_or_hold(unsettled),
            Op::Write { .. } | Op::Swap { .. } | Op::CompareAndSwap { .. } => Start::Cast,
        }
    }

    ghost lawful = { local_read_keeps };
}

/// Casts writes and answers them at once, and casts swaps and compare-and-swaps, which run until their delivery. A read
/// waits until every own cast is delivered, and is answered from the own copy (Attiya and Welch 1994).
pub struct LocalWrite;

impl FrontEnd for LocalWrite {
    ghost start = { local_write };

    fn start(op: &Op, unsettled: u32) -> Start {
        match *op {
            Op::Read { register: _ } => look_or_hold(unsettled),
            Op::Write {
                register: _,
                value: _,
            } => Start::CastAndAnswer,
            Op::Swap {
                register: _,
                value: _,
            } => Start::Cast,
            Op::CompareAndSwap { .. } => Start::Cast,
        }
    }

    ghost lawful = { local_write_keeps };
}

fn look_or_hold(unsettled: u32) -> Start
    ensures { result ≡ (if unsettled == 0 then Look else Hold) }
{
    if unsettled == 0 {
        Start::Look
    } else {
        Start::Hold
    }
}
