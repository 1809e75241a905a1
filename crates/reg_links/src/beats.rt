//! When frames are put again.
ghost use Rattle.std.specs.Prelude.{◌≡◌};
ghost use Rattle.reg_links.specs.Beats.{is_due, is_long, new_beat, next_look, ticks_at, watched, woken};

/// What is known of a link from looks at it, one after another.
#[derive(Clone, Copy, Debug, PartialEq, Eq)]
pub struct Beat {
    /// The first frame that wasn't acknowledged at the last look, by its number.
    first: Option<u64>,
    /// How many looks since then have found the same frame, and no mail to wait for.
    silent: u32,
}

/// Whether a tick is made at this look of those that found a link silent: at the first, then after 2, 4, .. 64 more
/// looks, and from there on after each 100.
fn is_due(silent: u32) -> bool
    ensures { result ≡ is_due silent }
{
    matches!(silent, 1 | 3 | 7 | 15 | 31 | 63 | 127 | 227)
}

/// The number of the next look that finds a link silent. The last hundred are counted again and again.
fn next_look(silent: u32) -> u32
    ensures { result ≡ next_look silent }
{
    if silent < 227 { silent + 1 } else { 128 }
}

impl Beat {
    /// A link that was never looked at.
    pub fn new() -> Beat
        ensures { result ≡ new_beat }
    {
        Beat {
            first: None,
            silent: 0,
        }
    }

    /// A look at a link on which this frame is the first that isn't acknowledged. `mail` says whether something waits
    /// to be taken at one of its ends, so that an answer may be on its way. Tells whether a tick is to be made.
    pub fn look(&mut self, first: Option<u64>, mail: bool) -> bool
        ensures beat { self.new ≡ watched self.old first mail }
        ensures tick { result ≡ ticks_at self.old first mail }
    {
        if first.is_none() || first != self.first {
            *self = Beat { first, silent: 0 };
            return false;
        }
        if mail {
            return false;
        }
        self.silent = next_look(self.silent);
        is_due(self.silent)
    }

    /// Whether the link is silent for so many looks, 127 or more, that the pauses between ticks don't grow any more.
    pub fn is_long(&self) -> bool
        ensures { result ≡ is_long self.now }
    {
        self.silent >= 127
    }

    /// Notes that something came. Where the link was silent for long, counting begins anew with the same frame.
    pub fn hear(&mut self)
        ensures { self.new ≡ woken self.old }
    {
        if self.is_long() {
            self.silent = 0;
        }
    }
}
