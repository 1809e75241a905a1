//! Allocators: a heap over memory that the caller lends, which knows no other memory, for hosts that have no heap of
//! their own to offer, as a web page; and for tests one that refuses an allocation.
#![tactic(auto)]

mod lent;
mod piece;
mod pile;
mod refusing;
mod room;
mod shelf;
mod sizes;
mod trials;

pub use lent::LentHeap;
pub use piece::Piece;
pub use refusing::Refusing;
pub use room::Room;
pub use trials::{Trial, Wrong, refusals};
