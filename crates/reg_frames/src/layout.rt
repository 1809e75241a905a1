//! Where the parts of a frame stand in its bytes, and which bytes say what a frame is.

/// The length of what follows, in two bytes.
pub(crate) const LENGTH_AT: usize = 0;
/// The version: that of the cast of a swap, that of the cast of a compare-and-swap, or that of all other frames.
pub(crate) const VERSION_AT: usize = 2;
/// Whether it is a data frame or a count.
pub(crate) const KIND_AT: usize = 3;
/// The number of a data frame, or the count, in eight bytes.
pub(crate) const NUMBER_AT: usize = 4;
/// Whether the body of a data frame is a cast or an acknowledgement.
pub(crate) const BODY_AT: usize = 12;
/// The time of a body, in eight bytes.
pub(crate) const TIME_AT: usize = 13;
/// Which operation a cast has.
pub(crate) const OP_AT: usize = 21;
/// The register of a cast, in two bytes.
pub(crate) const REGISTER_AT: usize = 22;
/// The value of a write or a swap, or the value that a compare-and-swap expects, in eight bytes.
pub(crate) const VALUE_AT: usize = 24;
/// The value that a compare-and-swap writes, in eight bytes.
pub(crate) const NEW_VALUE_AT: usize = 32;

/// The bytes of a count.
pub(crate) const GOT_SIZE: usize = 12;
/// The bytes of an acknowledgement.
pub(crate) const ACK_SIZE: usize = 21;
/// The bytes of the cast of a read.
pub(crate) const READ_SIZE: usize = 24;
/// The bytes of the cast of a write or a swap.
pub(crate) const VALUED_SIZE: usize = 32;
/// The bytes of the cast of a compare-and-swap.
pub(crate) const COMPARED_SIZE: usize = 40;

/// The version of all frames but the casts of swaps and of compare-and-swaps.
pub(crate) const PLAIN: u8 = 1;
/// The version of the cast of a swap.
pub(crate) const SWAPPING: u8 = 2;
/// The version of the cast of a compare-and-swap. No frame has version 3.
pub(crate) const COMPARING: u8 = 4;

/// A data frame.
pub(crate) const DATA: u8 = 1;
/// A count of accepted frames.
pub(crate) const GOT: u8 = 2;

/// A cast.
pub(crate) const CAST: u8 = 1;
/// An acknowledgement.
pub(crate) const ACK: u8 = 2;

/// A read.
pub(crate) const READ: u8 = 1;
/// A write.
pub(crate) const WRITE: u8 = 2;
/// A swap.
pub(crate) const SWAP: u8 = 3;
/// A compare-and-swap.
pub(crate) const COMPARE_AND_SWAP: u8 = 4;
