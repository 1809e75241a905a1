//! Orders of a history, found by a search, or none.
pub(crate) mod before;
pub(crate) mod changes;
pub(crate) mod choices;
pub(crate) mod failed;
pub(crate) mod finder;
pub(crate) mod finding;
pub(crate) mod forcing;
pub(crate) mod guide;
pub(crate) mod kinds;
pub(crate) mod sources;
pub(crate) mod torn;
pub(crate) mod tried;
pub(crate) mod uses;
pub(crate) mod walk;

pub use finding::{find_points, find_serial};
pub use kinds::OrderKind;
