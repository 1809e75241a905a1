//! The deciding part of a node: one process on one machine that outlives crashes by a log. No sockets, files, clocks or
//! threads: its owner writes the entries down, says how many of them are durable, carries what is handed out, and has
//! the node look at its peers, which tells when one that is silent is greeted and when the node ticks. And what
//! processes did, as text (`transcripts`).
#![tactic(auto)]

mod chapters;
mod courses;
mod faults;
pub mod laws;
mod logged;
mod meetings;
mod messages;
mod nodes;
mod openings;
mod outputs;
mod peers;
mod replaying;
mod rooms;
mod transcripts;

pub use chapters::{Chapter, Told, ToldFault};
pub use courses::{Course, Progress};
pub use faults::{HelloFault, LoggedFault, MeetingFault, NodeFault, NotLogged, OpenFault};
pub use logged::LoggedNode;
pub use meetings::MeetingNode;
pub use messages::{Brings, Greeting, Message, MessageStart, Met, meet, names_crc};
pub use nodes::Node;
pub use openings::opening_of;
pub use outputs::Output;
pub use peers::{Look, Peers};
pub use reg_process::{ProcessFault, Put, Reply, Step};
pub use reg_records::LogEntry;
pub use rooms::{NoRoom, Room, room_in};
pub use transcripts::{
    Head, LineFault, Log, LogFault, LogId, ReadLog, Record, RecordFault, Recorded, begin_log,
    first_part, is_headless, names_line, parse_record, read_head, read_log, recorded_line,
    sealed_entry, text_of_record,
};
