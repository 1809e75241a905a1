//! Workloads in one fixed layout, read and written with no heap but their own.
//!
//! The kit's reader of TOML keeps its tables in the global heap. Where there is none, a small reader makes out what a
//! text says, which no clause speaks of, and the layout of that is written: the text in that layout is a document that
//! says the workload.
mod bytes;
mod draft;
mod laying;
mod reading;
mod scalars;
mod scripts;
mod sure;
mod values;

pub use laying::lay_out;
pub use reading::guess_workload;
pub use sure::read_layout;
