//! The wires of one process, with one word for each frame.
ghost use Rattle.std.specs.Prelude.{◌≡◌, ◌+◌, ◌<◌, ◌≤◌, ◌++◌, ◌∷◌, [], true, length, IfOk, OnOk, slice_set};
ghost use Rattle.std.specs.Prelude.{slice_index_or};
ghost use Rattle.reg_frames.specs.declared.bodies.Body.TheVariants.{Ack};
ghost use Rattle.reg_world.specs.Words.{HasRoom};
ghost use Rattle.reg_world.specs.Packed.{frame_of, IsKept, Says, Grows};

use crate::accepted::Accepted;
use crate::bodies::Bodies;
use crate::stores::{ListingStore, WireStore};
use crate::strips::Strips;
use crate::words::{FIRST_COUNT, MOST_SLOTS, Slot, Word, numbers_from};
use reg_base::limits::MOST_RESENT;
use reg_frames::{Body, Frame};
use reg_process::Event;
use std::alloc::{AllocError, Allocator, Global};
use std::marker::Model;

/// What the words of a process speak of: its bodies by number, and the frames that are told by no number and no count.
#[derive(Drop)]
pub(crate) struct Tables<A: Allocator + Copy = Global> {
    bodies: Bodies<A>,
    others: Vec<Frame, A>,
}

impl<A: Allocator + Copy> Model for Tables<A> {
    ghost use Rattle.reg_world.specs.Packed.{Kept};

    ghost Value = { Kept };

    ghost view = { λ t. record { bodies = t.bodies; others = t.others.items } };
}

impl<A: Allocator + Copy> Tables<A> {
    /// The tables of a process that put nothing.
    fn new(alloc: A) -> Tables<A>
        ensures { result ≡ record { bodies = []; others = [] } }
    {
        Tables {
            bodies: Bodies::new(alloc),
            others: Vec::new(alloc),
        }
    }

    /// The frame of a slot.
    // (in line: it runs for each frame put or taken, and does little more than a call costs)
    #[inline(always)]
    fn frame(&self, slot: Slot) -> Frame
        requires { IsKept self.now slot }
        ensures { result ≡ frame_of self.now slot }
    {
        match slot {
            Slot::Data { number } => Frame::Numbered {
                number: u64::from(number),
                body: self.bodies.at(number as usize),
            },
            Slot::Count { count } => Frame::Got {
                count: u64::from(count),
            },
            Slot::Other { place } => self.others[place as usize],
        }
    }

    /// Whether so many bodies are kept under the numbers from `first` on, and no frame is kept whole.
    fn has_all(&self, first: u64, count: u64) -> bool
        ensures none { result ≡ true → self.now.others ≡ [] }
        ensures there { result ≡ true → first + count ≤ length self.now.bodies }
    {
        let kept = self.bodies.len() as u64;
        self.others.is_empty() && count <= kept && first <= kept - count
    }

    /// Whether the body is kept under this number. A body under the next number is kept from now on.
    // (in line: it runs for each frame put or taken, and does little more than a call costs)
    #[inline(always)]
    fn keeps(&mut self, number: u64, body: Body) -> Result<bool, AllocError>
        ensures few { IfOk result (λ keeps. keeps ≡ true → number < FIRST_COUNT) }
        ensures there { IfOk result (λ keeps. keeps ≡ true → number < length self.new.bodies) }
        ensures body { IfOk result (λ keeps. keeps ≡ true → slice_index_or self.new.bodies number (Ack 0) ≡ body) }
        ensures grows { Grows self.old self.new }
    {
        if number >= u64::from(FIRST_COUNT) {
            return Ok(false);
        }
        let place = number as usize;
        if place < self.bodies.len() {
            return Ok(self.bodies.is(place, &body));
        }
        if place > self.bodies.len() {
            return Ok(false);
        }
        self.bodies.push(body)?;
        Ok(true)
    }

    /// The slot of a frame that is kept whole. It fails too where there are too many of these frames for a word.
    fn other(&mut self, frame: &Frame) -> Result<Slot, AllocError>
        ensures room { IfOk result HasRoom }
        ensures says { IfOk result (λ slot. Says self.new slot frame.now) }
        ensures grows { Grows self.old self.new }
    {
        let place = self.others.len();
        if place >= MOST_SLOTS as usize {
            return Err(AllocError);
        }
        self.others.push(*frame)?;
        Ok(Slot::Other {
            place: place as u32,
        })
    }

    /// The slot of a frame. What was kept stays.
    // (in line: it runs for each frame put or taken, and does little more than a call costs)
    #[inline(always)]
    fn slot(&mut self, frame: &Frame) -> Result<Slot, AllocError>
        ensures room { IfOk result HasRoom }
        ensures says { IfOk result (λ slot. Says self.new slot frame.now) }
        ensures grows { Grows self.old self.new }
    {
        match *frame {
            Frame::Numbered { number, body } => {
                if self.keeps(number, body)? {
                    return Ok(Slot::Data {
                        number: number as u32,
                    });
                }
            }
            Frame::Got { count } => {
                if count < u64::from(MOST_SLOTS) {
                    return Ok(Slot::Count {
                        count: count as u32,
                    });
                }
            }
        }
        self.other(frame)
    }
}

/// The last number from which on a word can tell each of `MOST_RESENT` numbers.
const MOST_FIRST: u64 = FIRST_COUNT as u64 - MOST_RESENT;

/// All frames that a process ever put for each process, each as a word of four bytes. How much memory they take is not
/// promised.
// (the bodies are kept once, by their numbers, and a frame that is none of the bodies under its number is kept whole;
// most frames go to all others, so words that stand on several wires at the same place are kept once, up to the first
// that differs)
#[derive(Drop)]
pub struct PackedWires<A: Allocator + Copy = Global> {
    tables: Tables<A>,
    strips: Strips<Word, A>,
}

impl<A: Allocator + Copy> Model for PackedWires<A> {
    ghost use Rattle.std.specs.Prelude.{List};
    ghost use Rattle.reg_frames.specs.declared.bodies.Frame.{Frame};
    ghost use Rattle.reg_world.specs.Packed.{frames_on, AreKept};

    ghost Value = { List (List Frame) };

    ghost view = { λ w. frames_on w.tables w.strips };

    ghost invariant = { λ w. AreKept w.tables w.strips };
}

impl<A: Allocator + Copy> WireStore<A> for PackedWires<A> {
    type Events = Accepted<A>;

    ghost wires = { λ w. w };

    fn new(alloc: A, count: u32) -> Result<PackedWires<A>, AllocError> {
        let tables = Tables::new(alloc);
        let strips = Strips::new(alloc, count)?;
        Ok(PackedWires { tables, strips })
    }

    fn count(&self, to: u8) -> usize {
        self.strips.count(usize::from(to))
    }

    // (in line: it runs for each frame put or taken, and does little more than a call costs)
    #[inline(always)]
    fn frame_at(&self, to: u8, number: u32) -> Option<Frame> {
        match self.strips.at(usize::from(to), number) {
            Some(word) => Some(self.tables.frame(word.unpack())),
            None => None,
        }
    }

    // (in line: it runs for each frame that is put, and does little more than a call costs)
    #[inline(always)]
    fn put(&mut self, to: u8, frame: &Frame) -> Result<(), AllocError> {
        let slot = self.tables.slot(frame)?;
        self.strips.push(usize::from(to), Word::pack(slot))
    }

    fn put_again(&mut self, to: u8, first: u64, count: u64) -> Result<bool, AllocError> {
        if first > MOST_FIRST || !self.tables.has_all(first, count) {
            return Ok(false);
        }
        let words = numbers_from(first as u32);
        self.strips
            .push_all(usize::from(to), &words[..count as usize])?;
        Ok(true)
    }
}

impl<A: Allocator + Copy> ListingStore<A> for PackedWires<A> {
    fn listed(events: &Accepted<A>) -> &[Event] {
        events.as_slice()
    }
}
