//! A logical clock.
ghost use Rattle.std.specs.Prelude.{◌≡◌, ◌+◌, ◌≤◌, ◌<◌, max, if◌then◌else◌, is_ok, OkIff};

use crate::limits::LAST_TIME;
use std::marker::Model;
use thiserror::Error;

/// The clock would pass its last time, `limits::LAST_TIME`.
#[derive(Clone, Copy, Debug, PartialEq, Eq, Error)]
#[error("clock full")]
pub struct ClockFull;

/// A logical clock.
#[derive(Debug, Drop)]
pub struct Clock {
    time: u64,
}

impl Model for Clock {
    ghost use Rattle.std.specs.Prelude.{ℕ, ◌≤◌};
    ghost use Rattle.reg_base.specs.declared.limits.TheConstants.{LAST_TIME};

    ghost Value = { ℕ };

    ghost view = { λ c. c.time };

    ghost invariant = { λ c. c.time ≤ LAST_TIME };
}

impl Clock {
    /// A clock at 0.
    pub fn new() -> Self
        ensures { result ≡ 0 }
    {
        Clock { time: 0 }
    }

    /// The time that the clock shows, at most `limits::LAST_TIME`.
    pub fn now(&self) -> u64
        ensures value { result ≡ self.now }
        ensures in_range { result ≤ LAST_TIME }
    {
        self.time
    }

    /// Goes on by one, and gives the new time. `ClockFull` comes exactly at `limits::LAST_TIME`, and the clock stays.
    pub fn tick(&mut self) -> Result<u64, ClockFull>
        ensures answer { OkIff result (self.old < LAST_TIME) (self.old + 1) }
        ensures after { self.new ≡ (if is_ok result then self.old + 1 else self.old) }
    {
        if self.time == LAST_TIME {
            return Err(ClockFull);
        }
        self.time += 1;
        Ok(self.time)
    }

    /// Goes on to one more than the later of its own time and the given one, and gives the new time. `ClockFull` comes
    /// exactly where the later one is not below `limits::LAST_TIME`, and the clock stays.
    pub fn receive(&mut self, time: u64) -> Result<u64, ClockFull>
        ensures answer { OkIff result (max self.old time < LAST_TIME) (max self.old time + 1) }
        ensures after { self.new ≡ (if is_ok result then max self.old time + 1 else self.old) }
    {
        let later = self.time.max(time);
        if later >= LAST_TIME {
            return Err(ClockFull);
        }
        self.time = later + 1;
        Ok(self.time)
    }
}
