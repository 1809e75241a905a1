//! Whether a station goes on, and whether callers still wait in its cluster.
ghost use Rattle.std.specs.Prelude.{◌≡◌, ◌≤◌, ◌+◌, ◌↔◌, IsTrue};
ghost use Rattle.reg_base.specs.declared.limits.TheConstants.{MOST_EVENTS};
ghost use Rattle.reg_live.specs.Phases.{after_place, after_stop, after_telling, is_stopped, is_untold};

use reg_base::limits::MOST_EVENTS;

/// Whether a station goes on, and whether callers still wait in its cluster.
#[derive(Clone, Copy)]
pub(crate) enum Phase {
    /// It goes on, and its caller may wait.
    Open,
    /// It goes on, but filled the journal: no caller is to wait any more, and that has yet to be told.
    Full,
    /// It has stopped: no caller is to wait any more, and that has yet to be told.
    Stopped,
    /// It goes on, and no caller waits here any more.
    Told,
    /// It has stopped, and no caller waits here any more.
    Ended,
}

/// Whether a journal has no place left after this one.
fn is_last(place: u64) -> bool
    ensures { IsTrue result ↔ (MOST_EVENTS ≤ place + 1) }
{
    place >= u64::from(MOST_EVENTS - 1)
}

impl Phase {
    /// Whether the station has stopped.
    pub(crate) fn is_stopped(self) -> bool
        ensures { result ≡ is_stopped self }
    {
        matches!(self, Phase::Stopped | Phase::Ended)
    }

    /// Whether the callers have yet to be told to wait no more.
    pub(crate) fn is_untold(self) -> bool
        ensures { result ≡ is_untold self }
    {
        matches!(self, Phase::Full | Phase::Stopped)
    }

    /// The phase once the station stops.
    pub(crate) fn stop(self) -> Phase
        ensures { result ≡ after_stop self }
    {
        match self {
            Phase::Told | Phase::Ended => Phase::Ended,
            _ => Phase::Stopped,
        }
    }

    /// The phase once the station's caller was told to wait no more.
    pub(crate) fn tell(self) -> Phase
        ensures { result ≡ after_telling self }
    {
        if self.is_stopped() {
            Phase::Ended
        } else {
            Phase::Told
        }
    }

    /// The phase after a section at this place.
    pub(crate) fn after(self, place: u64) -> Phase
        ensures { result ≡ after_place self place }
    {
        match self {
            Phase::Open if is_last(place) => Phase::Full,
            _ => self,
        }
    }
}
