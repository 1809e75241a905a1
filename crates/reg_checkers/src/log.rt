//! The history of a run: what was called and answered, and at which events.
ghost use Rattle.std.specs.Prelude.{◌≡◌, ◌≤◌, [], MatchResult, IfOk, OnOk, OnErr};
ghost use Rattle.reg_checkers.specs.Log.{IsLog, Grows, Refuses};

use crate::entries::Entry;
use crate::faults::HistoryFault;
use crate::place::{Progress, advance, is_in_place};
use reg_base::Shape;
use std::alloc::{AllocError, Allocator, Global};
use std::marker::Model;

/// A history of calls and answers (Herlihy and Wing 1990), each in place after those before it.
#[derive(Drop)]
pub struct History<A: Allocator + Copy = Global> {
    shape: Shape,
    entries: Vec<Entry, A>,
    progress: Vec<Progress, A>,
}

impl<A: Allocator + Copy> Model for History<A> {
    ghost use Rattle.std.specs.Prelude.{◌-◌, vec_len, vec_capacity};
    ghost use Rattle.reg_checkers.specs.Log.{Log};
    ghost use Rattle.reg_checkers.specs.Progress.{IsKept};

    ghost Value = { Log };

    ghost view = { λ h.
        record { shape = h.shape; entries = h.entries.items; room = vec_capacity h.entries - vec_len h.entries } };

    ghost invariant = { λ h. IsKept h.shape.processes h.shape.registers h.entries.items h.progress.items };
}

impl<A: Allocator + Copy> History<A> {
    /// A history without entries.
    pub fn new(alloc: A, shape: Shape) -> Result<History<A>, AllocError>
        ensures { IfOk result (λ h. (h.shape ≡ shape) × (h.entries ≡ [])) }
    {
        let idle = Progress {
            next: 0,
            running: None,
        };
        let progress = vec![in alloc; idle; shape.processes() as usize]?;
        Ok(History {
            shape,
            entries: Vec::new(alloc),
            progress,
        })
    }

    /// How many processes and registers it speaks of.
    pub fn shape(&self) -> Shape
        ensures { result ≡ self.now.shape }
    {
        self.shape
    }

    /// The entries, in order.
    pub fn entries(&self) -> &[Entry]
        ensures value { result.now ≡ self.now.entries }
        ensures in_place { IsLog self.now }
    {
        self.entries.as_slice()
    }

    /// Makes room: memory is not refused to the next `n` entries in place. The entries stay, and after a refusal all
    /// is as it was.
    pub fn reserve(&mut self, n: u32) -> Result<(), AllocError>
        ensures shape { self.new.shape ≡ self.old.shape }
        ensures entries { self.new.entries ≡ self.old.entries }
        ensures room { OnOk result (n ≤ self.new.room) }
        ensures err { OnErr result (self.new ≡ self.old) }
    {
        self.entries.reserve(n as usize)
    }

    /// Adds an entry at the end. One out of place is refused; one in place only where no room is left and memory is
    /// refused. Nothing has changed then.
    #[inline]
    pub fn push(&mut self, entry: Entry) -> Result<(), HistoryFault>
        ensures { MatchResult result (λ _. Grows self.old self.new entry)
            (λ fault. Refuses self.old entry fault × (self.new ≡ self.old)) }
    {
        if !is_in_place(self.shape, &self.entries, &self.progress, entry) {
            return Err(HistoryFault::OutOfPlace);
        }
        if self.entries.reserve(1).is_err() {
            return Err(HistoryFault::OutOfMemory);
        }
        advance(&mut self.progress, entry);
        self.entries.push_reserved(entry);
        Ok(())
    }
}
