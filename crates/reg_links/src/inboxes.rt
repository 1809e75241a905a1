//! The receiving end of a link.
ghost use Rattle.std.specs.Prelude.{◌≡◌, ◌+◌, ◌<◌, ◌≤◌, SomeIff, is_some, if◌then◌else◌};

use reg_base::limits::FRAME_NUMBERS;
use reg_frames::Body;
use std::marker::Model;

/// Which data frame from another process is accepted next.
#[derive(Drop)]
pub struct Inbox {
    expected: u64,
}

impl Model for Inbox {
    ghost use Rattle.std.specs.Prelude.{ℕ, ◌≤◌};
    ghost use Rattle.reg_base.specs.declared.limits.TheConstants.{FRAME_NUMBERS};

    ghost Value = { ℕ };

    ghost view = { λ i. i.expected };

    ghost invariant = { λ i. i.expected ≤ FRAME_NUMBERS };
}

impl Inbox {
    /// An inbox that expects number 0.
    pub fn new() -> Inbox
        ensures { result ≡ 0 }
    {
        Inbox { expected: 0 }
    }

    /// An inbox that expects the given number. None exactly where that is above `limits::FRAME_NUMBERS`.
    pub fn starting(expected: u64) -> Option<Inbox>
        ensures { SomeIff result (expected ≤ FRAME_NUMBERS) expected }
    {
        if expected > FRAME_NUMBERS {
            return None;
        }
        Some(Inbox { expected })
    }

    /// The number expected, which is the count of frames accepted.
    pub fn expected(&self) -> u64
        ensures value { result ≡ self.now }
        ensures in_range { result ≤ FRAME_NUMBERS }
    {
        self.expected
    }

    /// Accepts the body with the number expected, gives it, and then expects the next. Another number, or one that is
    /// not below `limits::FRAME_NUMBERS`, gives None and changes nothing.
    pub fn take(&mut self, number: u64, body: Body) -> Option<Body>
        ensures answer { SomeIff result (number ≡ self.old × self.old < FRAME_NUMBERS) body }
        ensures after { self.new ≡ (if is_some result then self.old + 1 else self.old) }
    {
        if number != self.expected || self.expected == FRAME_NUMBERS {
            return None;
        }
        self.expected += 1;
        Some(body)
    }
}
