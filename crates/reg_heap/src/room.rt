//! Memory that a caller lends.
ghost use Rattle.std.specs.Prelude.{◌≡◌, ◌-◌, ◌%◌, ◌≤◌};

use crate::piece::Piece;
use core::mem::replace_with;

/// Memory that its holder lends, and how many bytes it has: blocks are cut from it.
#[repr(C)]
#[derive(Drop)]
pub struct Room {
    pub piece: Piece,
    pub bytes: usize,
    ghost fits: { piece.bytes ≡ bytes },
}

impl Room {
    /// The first so many bytes, and those after them.
    pub(crate) fn split(self, bytes: usize) -> (Room, Room)
        requires whole { bytes % 16 ≡ 0 }
        requires within { bytes ≤ self.bytes }
        ensures { (result.0.bytes ≡ bytes) × (result.1.bytes ≡ self.bytes - bytes) }
    {
        let left = self.bytes - bytes;
        let (front, behind) = self.piece.cut(bytes);
        (
            Room {
                piece: front,
                bytes,
            },
            Room {
                piece: behind,
                bytes: left,
            },
        )
    }

    /// All that the room has. It is left with no byte.
    pub fn take(&mut self) -> Room
        ensures { (result.bytes ≡ self.old.bytes) × (self.new.bytes ≡ 0) }
    {
        replace_with(self, 0, Room::split)
    }
}
