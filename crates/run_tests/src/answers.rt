//! What trials answer.
use std::alloc::Global;
use std::fmt::Debug;
use std::test::Fail;

/// The answer that shows this value.
pub(crate) fn shown<T: Debug>(ample: Global, value: &T) -> Result<Option<String>, Fail> {
    Ok(Some(format!(in ample; "{value:?}")?))
}

/// What calls that end in a fault answer: none where memory was refused, and else the trial fails.
pub(crate) fn unless_memory<E: Copy + Debug + Drop>(
    fault: E,
    refused: bool,
) -> Result<Option<String>, Fail> {
    if refused {
        return Ok(None);
    }
    Err(fault)?
}
