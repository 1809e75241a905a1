//! Numbered links: each body from one process to another has the next number, and is accepted at most once, in order.
//! And when the frames of a link are put again that goes without an answer.
#![tactic(auto)]

mod beats;
mod fanout;
mod inboxes;
pub mod laws;
mod outboxes;

pub use beats::Beat;
pub use fanout::Outboxes;
pub use inboxes::Inbox;
pub use outboxes::{Ahead, LinkFault, Outbox};
