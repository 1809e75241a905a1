//! The bodies that a process queued, most of which are acknowledgements.
ghost use Rattle.std.specs.Prelude.{◌≡◌, ◌<◌, ◌++◌, ◌∷◌, [], length, OnOk, OnErr, Decides, slice_index_or};
ghost use Rattle.reg_frames.specs.declared.bodies.Body.TheVariants.{Ack};
ghost use Rattle.reg_world.specs.Bodies.{cast_of};

use reg_base::Op;
use reg_frames::Body;
use std::alloc::{AllocError, Allocator, Global};
use std::marker::Model;

/// What is kept of a body: a cast is kept apart, since it takes more room.
#[derive(Clone, Copy)]
pub(crate) enum ShortBody {
    Ack { time: u64 },
    /// The cast at this place of those that are kept.
    Cast { place: usize },
}

const _: () = prove!(size_of::<ShortBody>() == 16);

/// A cast.
#[derive(Clone, Copy)]
pub(crate) struct KeptCast {
    time: u64,
    op: Op,
}

/// Whether a body is the acknowledgement of this time.
#[inline(always)]
fn is_ack(body: &Body, time: u64) -> bool
    ensures { Decides result (body.now ≡ Ack time) }
{
    match *body {
        Body::Ack { time: other } => time == other,
        Body::Cast { .. } => false,
    }
}

/// Whether a body is this cast.
#[inline(always)]
fn is_cast(body: &Body, cast: &KeptCast) -> bool
    ensures { Decides result (body.now ≡ cast_of cast.now) }
{
    match *body {
        Body::Ack { .. } => false,
        Body::Cast { time, op } => cast.time == time && cast.op == op,
    }
}

/// Bodies, by their numbers.
#[derive(Drop)]
pub(crate) struct Bodies<A: Allocator + Copy = Global> {
    shorts: Vec<ShortBody, A>,
    casts: Vec<KeptCast, A>,
}

impl<A: Allocator + Copy> Model for Bodies<A> {
    ghost use Rattle.std.specs.Prelude.{List};
    ghost use Rattle.reg_frames.specs.declared.bodies.Body.{Body};
    ghost use Rattle.reg_world.specs.Bodies.{bodies_of, AreThere};

    ghost Value = { List Body };

    ghost view = { λ b. bodies_of b.shorts.items b.casts.items };

    ghost invariant = { λ b. AreThere b.shorts.items b.casts.items };
}

impl<A: Allocator + Copy> Bodies<A> {
    /// None.
    pub(crate) fn new(alloc: A) -> Bodies<A>
        ensures { result ≡ [] }
    {
        Bodies {
            shorts: Vec::new(alloc),
            casts: Vec::new(alloc),
        }
    }

    /// How many there are.
    // (in line: it runs for each frame put or taken)
    #[inline(always)]
    pub(crate) fn len(&self) -> usize
        ensures { result ≡ length self.now }
    {
        self.shorts.len()
    }

    /// The body with this number.
    // (in line: it runs for each frame put or taken, and does little more than a call costs)
    #[inline(always)]
    pub(crate) fn at(&self, number: usize) -> Body
        requires { number < length self.now }
        ensures { result ≡ slice_index_or self.now number (Ack 0) }
    {
        match self.shorts[number] {
            ShortBody::Ack { time } => Body::Ack { time },
            ShortBody::Cast { place } => {
                let KeptCast { time, op } = self.casts[place];
                Body::Cast { time, op }
            }
        }
    }

    /// Whether the body with this number is this one.
    // (in line: it runs for each frame that is put, and does little more than a call costs)
    #[inline(always)]
    pub(crate) fn is(&self, number: usize, body: &Body) -> bool
        requires { number < length self.now }
        ensures { Decides result (body.now ≡ slice_index_or self.now number (Ack 0)) }
    {
        match self.shorts[number] {
            ShortBody::Ack { time } => is_ack(body, time),
            ShortBody::Cast { place } => is_cast(body, &self.casts[place]),
        }
    }

    /// Adds a body under the next number. Where memory is refused nothing has changed.
    pub(crate) fn push(&mut self, body: Body) -> Result<(), AllocError>
        ensures added { OnOk result (self.new ≡ self.old ++ body ∷ []) }
        ensures kept { OnErr result (self.new ≡ self.old) }
    {
        match body {
            Body::Ack { time } => self.shorts.push(ShortBody::Ack { time })?,
            Body::Cast { time, op } => {
                let place = self.casts.len();
                self.casts.push(KeptCast { time, op })?;
                self.shorts.push(ShortBody::Cast { place })?;
            }
        }
        Ok(())
    }
}
