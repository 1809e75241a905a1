//! A heap over lent memory as an allocator.
ghost use Rattle.std.specs.Prelude.{◌≡◌, ◌≤◌, ◌%◌, IfSome};
ghost use Rattle.reg_heap.specs.Blocks.{IsBlockSize};
ghost use Rattle.reg_heap.specs.Owned.{block_token};

use crate::piece::Piece;
use crate::room::Room;
use crate::shelf::Shelf;
use crate::sizes::{Class, LARGEST, class_of};
use std::alloc::{AllocError, Allocator};
use std::array;
use std::cell::Cell;

/// How many sizes blocks have.
const CLASSES: usize = 160;

/// A heap over memory that was lent, as the allocator of one thread's collections, which hold a `&` to it. A block that
/// was given back is given out again for requests of its size; else blocks are cut from the memory's front.
#[derive(Drop)]
pub struct LentHeap {
    room: Cell<Option<Room>>,
    shelves: [Cell<Option<Shelf>>; CLASSES],
}

impl LentHeap {
    /// A heap over all of a room.
    pub fn new(room: Room) -> LentHeap {
        LentHeap {
            room: Cell::new(Some(room)),
            shelves: array::from_fn(|_| Cell::new(None)),
        }
    }

    /// What no block was cut from.
    pub fn into_room(self) -> Option<Room> {
        self.room.into_inner()
    }

    /// A block that was given back.
    fn used_block(&self, class: Class) -> Option<Piece>
        ensures { IfSome result (λ p. p.bytes ≡ class.bytes) }
    {
        let place = self.shelves.get(class.number)?;
        let (block, left) = Shelf::sized(place.replace(None), class.bytes).take();
        place.replace(Some(left));
        block
    }

    /// A block that is cut from the front of the memory.
    fn new_block(&self, bytes: usize) -> Option<Piece>
        requires { bytes % 16 ≡ 0 }
        ensures { IfSome result (λ p. p.bytes ≡ bytes) }
    {
        let room = self.room.replace(None)?;
        if room.bytes < bytes {
            self.room.replace(Some(room));
            return None;
        }
        let (block, left) = room.split(bytes);
        self.room.replace(Some(left));
        Some(block.piece)
    }

    fn take(&self, size: usize, align: usize) -> Option<Piece>
        ensures { IfSome result (λ p. IsBlockSize size p.bytes × (align ≤ 16)) }
    {
        if align > 16 || size > LARGEST {
            return None;
        }
        let class = class_of(size);
        match self.used_block(class) {
            Some(block) => Some(block),
            None => self.new_block(class.bytes),
        }
    }

    /// Takes a block back, for requests of its size.
    fn give(&self, block: Piece, size: usize)
        requires { IsBlockSize size block.bytes }
    {
        if size > LARGEST {
            return;
        }
        let class = class_of(size);
        if let Some(place) = self.shelves.get(class.number) {
            let shelf = Shelf::sized(place.replace(None), class.bytes);
            place.replace(Some(shelf.put(block)));
        }
    }
}

unsafe impl Allocator for LentHeap {
    ghost dealloc_token = { λ _. block_token };

    fn allocate(&self, size: usize, align: usize) -> Result<*mut u8, AllocError> {
        match self.take(size, align) {
            Some(Piece { start }) => Ok(start),
            None => Err(AllocError),
        }
    }

    unsafe fn deallocate(&self, ptr: *mut u8, size: usize, _align: usize) {
        self.give(Piece { start: ptr }, size);
    }
}
