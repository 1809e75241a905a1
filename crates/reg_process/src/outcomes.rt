//! What goes out of one event.
ghost use Rattle.std.specs.Prelude.{◌≡◌, [], None};
ghost use Rattle.reg_process.specs.Sending.{puts_of};

use crate::sends::Sends;
use crate::steps::Reply;
use reg_base::{Delivered, Stamp};
use reg_frames::Put;
use std::alloc::{Allocator, Global};

/// What goes out of one event.
#[derive(Drop)]
pub struct Outcome<A: Allocator + Copy = Global> {
    /// The frames put, by rising receiver, and to one receiver the count before data frames, these by rising number.
    pub frames: Vec<Put, A>,
    /// The stamp of the cast of the operation that was called in this event, None where none was cast.
    pub cast: Option<Stamp>,
    /// The casts delivered, in the order of their stamps.
    pub delivered: Vec<Delivered, A>,
    /// The reply to the operation that was called in this event or was running, None where none is due.
    pub reply: Option<Reply>,
}

/// What goes out of one event, its frames aside. The fields are those of `Outcome`.
#[derive(Drop)]
pub struct Effect<A: Allocator + Copy = Global> {
    pub cast: Option<Stamp>,
    pub delivered: Vec<Delivered, A>,
    pub reply: Option<Reply>,
}

/// What goes out of one event, with its frames in short, but for those of a tick. It takes the place of what went out
/// of the event before, so that a later event takes no memory for the list.
#[derive(Drop)]
pub struct Brief<A: Allocator + Copy = Global> {
    pub sends: Sends,
    pub effect: Effect<A>,
}

impl<A: Allocator + Copy> Effect<A> {
    /// Nothing.
    pub(crate) fn new(alloc: A) -> Effect<A>
        ensures made { result.cast ≡ None }
        ensures casts { result.delivered.items ≡ [] }
        ensures answer { result.reply ≡ None }
    {
        Effect {
            cast: None,
            delivered: Vec::new(alloc),
            reply: None,
        }
    }
}

impl<A: Allocator + Copy> Brief<A> {
    /// Nothing.
    pub fn new(alloc: A) -> Brief<A>
        ensures put { puts_of result.sends ≡ [] }
        ensures made { result.effect.cast ≡ None }
        ensures casts { result.effect.delivered.items ≡ [] }
        ensures answer { result.effect.reply ≡ None }
    {
        Brief {
            sends: Sends::Nothing,
            effect: Effect::new(alloc),
        }
    }

    /// Nothing goes out but this, without a cast or a delivery.
    pub(crate) fn say(&mut self, sends: Sends, reply: Option<Reply>)
        ensures put { puts_of self.new.sends ≡ puts_of sends }
        ensures made { self.new.effect.cast ≡ None }
        ensures casts { self.new.effect.delivered.items ≡ [] }
        ensures answer { self.new.effect.reply ≡ reply }
    {
        self.sends = sends;
        self.effect.cast = None;
        self.effect.delivered.clear();
        self.effect.reply = reply;
    }
}
