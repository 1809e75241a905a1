//! Pieces that were given back.
ghost use Rattle.std.specs.Prelude.{◌≡◌, ℕ, ◌+◌, ◌%◌, ◌<◌, ◌≤◌};
ghost use Rattle.reg_heap.specs.Owned.{pile};

use crate::piece::Piece;
use std::marker::Model;
use std::ptr::null_mut;

/// Pieces of one size, each with the place of the next in its first bytes.
#[derive(Drop)]
pub(crate) struct Pile {
    first: *mut u8,
    pub(crate) ghost count: { ℕ },
    pub(crate) ghost bytes: { ℕ },
}

impl Model for Pile {
    ghost also_owns = { λ p. pile p.bytes p.count p.first };
}

impl Pile {
    /// No piece, for pieces of this size.
    pub(crate) fn new(bytes: usize) -> Pile
        ensures { (result.count ≡ 0) × (result.bytes ≡ bytes) }
    {
        let _ = bytes;
        Pile { first: null_mut() }
    }

    /// The piece on top of the others.
    pub(crate) fn put(self, piece: Piece) -> Pile
        requires same { piece.bytes ≡ self.bytes }
        requires sized { (16 ≤ self.bytes) × (self.bytes % 16 ≡ 0) }
        ensures { (result.count ≡ self.count + 1) × (result.bytes ≡ self.bytes) }
    {
        let Pile { first: next } = self;
        let Piece { start } = piece;
        unsafe { (start as *mut *mut u8).write(next) };
        Pile { first: start }
    }

    /// The piece on top, and the others.
    pub(crate) fn take(self) -> (Piece, Pile)
        requires { 0 < self.count }
        ensures { (result.0.bytes ≡ self.bytes) × (result.1.count + 1 ≡ self.count) × (result.1.bytes ≡ self.bytes) }
    {
        let Pile { first: start } = self;
        let next = unsafe { (start as *mut *mut u8).read() };
        (Piece { start }, Pile { first: next })
    }
}
