//! Memory in which nothing lies.
ghost use Rattle.std.specs.Prelude.{◌≡◌, ℕ, ◌-◌, ◌%◌, ◌≤◌};
ghost use Rattle.linked_list_allocator.specs.Ownership.{bytes_at};

use std::marker::Model;

/// Memory in which nothing lies: the bytes from `start` on, which is a multiple of 16. Who holds the piece owns them.
#[repr(C)]
#[derive(Drop)]
pub struct Piece {
    pub start: *mut u8,
    pub ghost bytes: { ℕ },
}

impl Model for Piece {
    ghost also_owns = { λ p. bytes_at p.start p.bytes };
}

impl Piece {
    /// The first so many bytes, and those after them.
    pub(crate) fn cut(self, bytes: usize) -> (Piece, Piece)
        requires whole { bytes % 16 ≡ 0 }
        requires within { bytes ≤ self.bytes }
        ensures { (result.0.bytes ≡ bytes) × (result.1.bytes ≡ self.bytes - bytes) }
    {
        let Piece { start } = self;
        let behind = unsafe { start.add(bytes) };
        (Piece { start }, Piece { start: behind })
    }
}
