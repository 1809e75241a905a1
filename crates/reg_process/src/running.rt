//! The operation that runs at a process.
ghost use Rattle.std.specs.Prelude.{◌≡◌};
ghost use Rattle.reg_process.specs.Process.{Own, Held};
ghost use Rattle.reg_process.specs.Waits.{running_of};

use crate::awaited::Awaited;
use reg_base::{Op, Stamp};
use std::marker::Model;

/// An operation that runs.
#[derive(Clone, Copy)]
pub struct Current {
    awaited: Awaited,
}

impl Model for Current {
    ghost use Rattle.reg_process.specs.Process.{Running};
    ghost use Rattle.reg_process.specs.Waits.{running_of, awaited_of};

    ghost Value = { Running };

    ghost view = { λ c. running_of c.awaited };

    ghost inverse = { λ r. record { awaited = awaited_of r } };
}

impl Current {
    /// An operation that runs until its cast is delivered.
    pub fn cast(stamp: Stamp, op: Op) -> Current
        ensures { result ≡ Own stamp op }
    {
        Current {
            awaited: Awaited::Cast { stamp, op },
        }
    }

    /// An operation that runs until every own cast is delivered.
    pub fn held(op: Op) -> Current
        ensures { result ≡ Held op }
    {
        Current {
            awaited: Awaited::Settling { op },
        }
    }

    /// What it waits for.
    pub fn awaited(self) -> Awaited
        ensures { self ≡ running_of result }
    {
        self.awaited
    }
}
