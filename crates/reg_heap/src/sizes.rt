//! The sizes of blocks.
ghost use Rattle.std.specs.Prelude.{◌≡◌, ◌+◌, ◌*◌, ◌/◌, ◌^◌, ◌<◌, ◌≤◌, max};
ghost use Rattle.std.specs.Int.{div_ceil, next_multiple_of};
ghost use Rattle.reg_heap.specs.Blocks.{IsBlockSize, step, units};

/// The most bytes of a request that is granted.
pub(crate) const LARGEST: usize = 1 << 40;

/// The size of a block, and which of all sizes it is, counted up from the smallest.
#[derive(Clone, Copy)]
pub(crate) struct Class {
    pub(crate) bytes: usize,
    pub(crate) number: usize,
}

/// The class of the block for a request of so many bytes: multiples of 16, four to each doubling.
pub(crate) fn class_of(size: usize) -> Class
    requires { size ≤ LARGEST }
    ensures bytes { IsBlockSize size result.bytes }
{
    let units = size.div_ceil(16).max(1);
    let power = units.ilog2();
    let step = ((1 << power) / 4).max(1);
    let rounded = units.next_multiple_of(step);
    Class {
        bytes: rounded * 16,
        number: 4 * power as usize + rounded / step,
    }
}
