//! How large a drawing is.

/// How large a drawing is, in pixels of a page that isn't scaled.
#[derive(Clone, Copy, Debug, PartialEq, Eq)]
pub enum Size {
    /// Its texts have 12 pixels, and clocks 9: for a document.
    Usual,
    /// Twice as large, so that no text has less than 16 pixels: for a projector.
    Large,
}

impl Size {
    /// A length of the drawing in pixels.
    pub(crate) fn of(self, length: u32) -> u32 {
        match self {
            Size::Usual => length,
            Size::Large => length.saturating_mul(2),
        }
    }
}
