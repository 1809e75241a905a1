//! All processes and wires, over a list of events. The wires of one process are kept as lists of frames or as lists of
//! words, and the events as a list or in eight bytes each.
#![tactic(auto)]

mod accepted;
mod adding;
mod advancing;
mod bodies;
mod books;
mod callers;
mod events;
mod faults;
mod finding;
mod fronts;
pub mod laws;
mod members;
mod order;
mod outlines;
mod packed;
mod packed_events;
mod putting;
mod running;
mod slices;
mod stores;
mod strips;
mod unlisted;
mod witnesses;
mod words;

pub use accepted::Accepted;
pub use events::EventStore;
pub use faults::{RunFault, WorldFault};
pub use fronts::NamedFront;
pub use order::{CopyRead, First};
pub use packed::PackedWires;
pub use packed_events::PackedEvents;
pub use reg_process::Event;
pub use running::World;
pub use slices::Wires;
pub use stores::{ListingStore, WireStore};
pub use unlisted::UnlistedWires;
