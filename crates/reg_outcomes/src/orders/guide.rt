//! What guides a search: the values that are needed, and what has to come before each operation.
ghost use Rattle.std.specs.Prelude.{IsTrue, slice_index};
ghost use Rattle.reg_checkers.specs.History.{IsFinished};
ghost use Rattle.reg_checkers.specs.Progress.{op_of};
ghost use Rattle.reg_outcomes.specs.Forced.{AreForced, Comes};
ghost use Rattle.reg_outcomes.specs.Guiding.{IsBlocked, IsGuide};

use crate::orders::before::Before;
use crate::orders::finder::{Finder, next_number};
use crate::orders::forcing::is_finished;
use crate::orders::uses::Uses;
use reg_base::OpId;
use std::alloc::{Allocator, Global};

/// Whether an operation is finished, and known to come before another.
fn is_owed<A: Allocator + Copy>(
    finder: &Finder<'_, A>,
    before: &Before<A>,
    earlier: OpId,
    later: OpId,
) -> bool
    requires { AreForced finder.now before.now }
    ensures finished { IsTrue result → IsFinished finder.now.entries earlier }
    ensures comes { IsTrue result → Comes finder.now earlier later }
{
    if !before.has(earlier, later) {
        return false;
    }
    is_finished(finder, earlier)
}

/// Whether a finished operation that is not placed, once these numbers of operations are, by process, has to come
/// before another. It is enough to look at the next one of each process, since only its last one can be unfinished.
fn is_blocked<A: Allocator + Copy>(
    finder: &Finder<'_, A>,
    before: &Before<A>,
    next: &[u32],
    id: OpId,
) -> bool
    requires { AreForced finder.now before.now }
    ensures { IsTrue result → IsBlocked finder.now next.now id }
{
    let processes = finder.shape().processes() as u8;
    for process in 0..processes {
        let number = next_number(next, process);
        if is_owed(finder, before, OpId { process, number }, id) {
            return true;
        }
    }
    false
}

/// What is known of a history before it is searched.
#[derive(Drop)]
pub(crate) struct Guide<A: Allocator + Copy = Global> {
    /// The values that operations make and need.
    pub(crate) uses: Uses<A>,
    /// What has to come before each operation. None where that is not known.
    pub(crate) before: Option<Before<A>>,
}

impl<A: Allocator + Copy> Guide<A> {
    /// Whether something that is not placed is known to come before a process's next operation, once these numbers of
    /// operations are placed, by process.
    pub(crate) fn blocks(&self, finder: &Finder<'_, A>, next: &[u32], process: u8) -> bool
        requires { IsGuide finder.now self.now }
        ensures { IsTrue result → IsBlocked finder.now next.now (op_of process (slice_index next.now process)) }
    {
        let Some(before) = &self.before else {
            return false;
        };
        let number = next_number(next, process);
        is_blocked(finder, before, next, OpId { process, number })
    }
}
