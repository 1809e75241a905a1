//! What goes out of one step.
ghost use Rattle.std.specs.Prelude.{◌≡◌};

use reg_process::{Put, Reply};
use std::alloc::{Allocator, Global};
use std::marker::Model;

/// What goes out of one step of a node: frames for other processes, and the reply to its caller.
#[derive(Drop)]
pub struct Output<A: Allocator + Copy = Global> {
    frames: Vec<Put, A>,
    reply: Option<Reply>,
}

impl<A: Allocator + Copy> Model for Output<A> {
    ghost use Rattle.reg_node.specs.Logs.{Outgoing};

    ghost Value = { Outgoing };

    ghost view = { λ o. record { frames = o.frames.items; reply = o.reply } };
}

impl<A: Allocator + Copy> Output<A> {
    pub(crate) fn new(frames: Vec<Put, A>, reply: Option<Reply>) -> Output<A>
        ensures { result ≡ record { frames = frames.items; reply = reply } }
    {
        Output { frames, reply }
    }

    /// The frames, by rising receiver.
    pub fn frames(&self) -> &[Put]
        ensures { result.now ≡ self.now.frames }
    {
        self.frames.as_slice()
    }

    /// The reply to the operation that was called in this step or was running, None where none is due.
    pub fn reply(&self) -> Option<Reply>
        ensures { result ≡ self.now.reply }
    {
        self.reply
    }
}
