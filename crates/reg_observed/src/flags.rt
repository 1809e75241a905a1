//! How a history is to be judged.

/// How a history is to be judged, and told of.
#[derive(Clone, Copy, Debug, PartialEq, Eq)]
pub struct JudgeFlags<'a> {
    /// The first value of registers, as JSON has it, or None for the usual one.
    pub first: Option<&'a str>,
    /// Whether the answer is a report, where there is a point order.
    pub report: bool,
}
