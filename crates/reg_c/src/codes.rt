//! The numbers of refusals that no fault of the crates below has.

/// These numbers say no event, or no operation.
pub(crate) const NO_EVENT: u32 = 32;
/// The world or the process was closed.
pub(crate) const CLOSED: u32 = 33;
/// There is no such shape.
pub(crate) const NO_SHAPE: u32 = 34;
/// There is no front end of this number.
pub(crate) const NO_FRONT: u32 = 35;
/// Bytes were no frame, or a frame has none.
pub(crate) const NO_FRAME: u32 = 48;
