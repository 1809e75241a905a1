//! An allocator for tests: it refuses one allocation, and hands every other call on.
use std::alloc::{AllocError, Allocator};
use std::cell::Cell;

/// Refuses the allocation after the first `before`, and no other.
pub struct Refusing<B: Allocator> {
    inner: B,
    left: Cell<u64>,
}

impl<B: Allocator> Refusing<B> {
    /// An allocator over `inner` that refuses the allocation after the first `before`.
    pub fn new(inner: B, before: u64) -> Refusing<B> {
        Refusing {
            inner,
            left: Cell::new(before),
        }
    }

    /// Whether the refusal is still to come. A run of fewer than 2^63 allocations is assumed.
    pub fn is_waiting(&self) -> bool {
        self.left.get() < 1 << 63
    }
}

impl<B: Allocator> Drop for Refusing<B> {
    fn drop(self) {
        let Self { inner: _, left: _ } = self;
    }
}

/// Counts one allocation, and says whether it is the one to refuse.
fn tick(left: &Cell<u64>) -> bool {
    let before = left.get();
    left.set(before.wrapping_sub(1));
    before == 0
}

unsafe impl<B: Allocator> Allocator for Refusing<B> {
    ghost dealloc_token = { λ heap ty ptr. B.dealloc_token heap.inner ty ptr };

    fn allocate(&self, size: usize, align: usize) -> Result<*mut u8, AllocError> {
        if tick(&self.left) {
            return Err(AllocError);
        }
        self.inner.allocate(size, align)
    }

    unsafe fn deallocate(&self, ptr: *mut u8, size: usize, align: usize) {
        self.inner.deallocate(ptr, size, align);
    }
}
