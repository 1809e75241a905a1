//! What one process sends to another, as values and as bytes.
#![tactic(auto)]

mod bodies;
mod faults;
pub mod laws;
mod layout;
mod puts;
mod reading;
mod spelling;

pub use bodies::{Body, Frame};
pub use faults::FrameFault;
pub use puts::Put;
pub use reading::decode;
pub use spelling::encode;
