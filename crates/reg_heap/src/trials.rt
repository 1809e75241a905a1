//! Calls with each allocation refused in turn.
use crate::refusing::Refusing;
use std::alloc::{Allocator, Global};
use std::test::Fail;

/// Calls that take memory, with one answer where there is enough of it.
pub trait Trial {
    /// The answer as a text, which is made in ample memory. None where the calls are out of memory.
    ///
    /// # Errors
    ///
    /// What came back is no answer that the calls can give.
    fn answer<A: Allocator + Copy>(&self, alloc: A, ample: Global) -> Result<Option<String>, Fail>;
}

/// What is wrong with a trial.
#[derive(Clone, Copy, Debug, PartialEq, Eq)]
pub enum Wrong {
    /// It is out of memory where no allocation was refused. The refusal, if any, was to come after `before` of them.
    WantsMemory { before: u64 },
    /// It has another answer where the allocation after `before` ones is refused.
    OtherAnswer { before: u64 },
    /// No allocation was refused, or too many were.
    NoEnd,
}

/// Makes the calls with the allocation after `before` ones refused. True where the refusal was still to come at the
/// end.
fn tries<T: Trial>(trial: &T, ample: Global, whole: &str, before: u64) -> Result<bool, Fail> {
    let heap = Refusing::new(ample, before);
    match trial.answer(&heap, ample)? {
        Some(text) if text.as_str() == whole => Ok(heap.is_waiting()),
        Some(_) => Err(Wrong::OtherAnswer { before })?,
        None if heap.is_waiting() => Err(Wrong::WantsMemory { before })?,
        None => Ok(false),
    }
}

/// Makes the calls with each allocation refused in turn, up to the first time that none is, and gives how many were.
///
/// # Errors
///
/// Some answer is neither out of memory nor the one with ample memory, or it is out of memory where none was refused;
/// or no allocation was refused.
pub fn refusals<T: Trial>(trial: &T, ample: Global) -> Result<u64, Fail> {
    let Some(whole) = trial.answer(ample, ample)? else {
        return Err(Wrong::WantsMemory { before: 0 })?;
    };
    for before in 0..10_000u64 {
        if tries(trial, ample, whole.as_str(), before)? {
            if before == 0 {
                break;
            }
            return Ok(before);
        }
    }
    Err(Wrong::NoEnd)?
}
