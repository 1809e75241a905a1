//! What every crate of the project speaks of: limits, shapes, stamps, clocks, operations, one memory and the names
//! of its registers.
#![tactic(auto)]

mod chains;
mod clocks;
pub mod limits;
mod memory;
mod naming;
mod shapes;
mod stamps;
mod words;

pub use clocks::{Clock, ClockFull};
pub use memory::{Answer, Op, OpId, Registers};
pub use naming::{Names, NamesFault, is_name};
pub use shapes::{Shape, ShapeFault};
pub use stamps::{Delivered, Stamp};
pub use std::alloc::AllocError as OutOfMemory;
pub use words::{Words, happens};
