//! Histories of calls and answers, their serial orders and point orders, and the two checkers.
#![tactic(auto)]

mod answers;
mod check;
mod entries;
mod facts;
mod faults;
pub mod laws;
mod log;
mod marks;
mod place;
mod points;
mod table;

pub use check::{check_points, check_serial};
pub use entries::{Entry, Point};
pub use facts::{Fact, Given};
pub use faults::{CheckFault, HistoryFault};
pub use log::History;
pub use points::ids_of_points;
pub use table::{fact_of, table_of};
