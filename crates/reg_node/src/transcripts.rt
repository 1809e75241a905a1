//! What processes did, as text: records of processes that ran apart, and the log of one process, whose lines are those
//! of a record, each behind its seal.
mod beginning;
mod frame_text;
mod headless;
mod log_heads;
mod logs;
mod record_text;
mod recorded;
mod sealing;
pub(crate) mod seals;
mod step_lines;
mod texts;
mod writing;

pub use beginning::{begin_log, names_line};
pub use headless::is_headless;
pub use log_heads::{Head, first_part, read_head};
pub use logs::{Log, LogFault, LogId, ReadLog, read_log};
pub use record_text::{Record, RecordFault, parse_record};
pub use recorded::Recorded;
pub use texts::text_of_record;
pub use writing::{LineFault, recorded_line, sealed_entry};
