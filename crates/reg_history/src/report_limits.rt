//! The limits of reports.

/// The most processes of a report of version 1.
pub const OLDER_PROCESSES: u32 = 16;
/// The most registers of a report of version 1.
pub const OLDER_REGISTERS: u32 = 256;
/// The most entries of a report's history.
pub const MOST_ENTRIES: u32 = 2_097_152;
/// The most operations of a report's order, and the most of its points.
pub const MOST_IDS: u32 = 1_048_576;
/// The most letters of the word that names a front end.
pub const LONGEST_FRONT: usize = 16;
