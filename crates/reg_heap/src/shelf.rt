//! Blocks of one size that were given back.
ghost use Rattle.std.specs.Prelude.{◌≡◌, ◌%◌, ◌≤◌, IfSome};

use crate::piece::Piece;
use crate::pile::Pile;

/// The blocks of one size that were given back.
#[derive(Drop)]
pub(crate) struct Shelf {
    pile: Pile,
    count: usize,
    pub(crate) bytes: usize,
    ghost tied: { (pile.count ≡ count) × (pile.bytes ≡ bytes) },
}

impl Shelf {
    /// No block, for blocks of this size.
    fn new(bytes: usize) -> Shelf
        ensures { result.bytes ≡ bytes }
    {
        Shelf {
            pile: Pile::new(bytes),
            count: 0,
            bytes,
        }
    }

    /// The shelf, if it is for blocks of this size, and else a new one.
    pub(crate) fn sized(shelf: Option<Shelf>, bytes: usize) -> Shelf
        ensures { result.bytes ≡ bytes }
    {
        match shelf {
            Some(shelf) => {
                if shelf.bytes == bytes {
                    shelf
                } else {
                    Shelf::new(bytes)
                }
            }
            None => Shelf::new(bytes),
        }
    }

    /// With one block more. On a full shelf it is lost.
    pub(crate) fn put(self, block: Piece) -> Shelf
        requires same { block.bytes ≡ self.bytes }
        requires sized { (16 ≤ self.bytes) × (self.bytes % 16 ≡ 0) }
        ensures { result.bytes ≡ self.bytes }
    {
        if self.count == usize::MAX {
            return self;
        }
        Shelf {
            pile: self.pile.put(block),
            count: self.count + 1,
            bytes: self.bytes,
        }
    }

    /// A block, if there is one, and what is left.
    pub(crate) fn take(self) -> (Option<Piece>, Shelf)
        ensures block { IfSome result.0 (λ p. p.bytes ≡ self.bytes) }
        ensures left { result.1.bytes ≡ self.bytes }
    {
        if self.count == 0 {
            return (None, self);
        }
        let (block, pile) = self.pile.take();
        let left = Shelf {
            pile,
            count: self.count - 1,
            bytes: self.bytes,
        };
        (Some(block), left)
    }
}
