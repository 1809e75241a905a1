//! Frames on their way out.
use crate::bodies::Frame;

/// A frame, and the number of the process that it is put for.
#[derive(Clone, Copy, Debug, PartialEq, Eq)]
pub struct Put {
    pub to: u8,
    pub frame: Frame,
}
