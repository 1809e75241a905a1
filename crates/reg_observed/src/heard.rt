//! Events that were heard, with their words under numbers.
ghost use Rattle.std.specs.Prelude.{◌≡◌, [], OnOk, IfOk, IfErr};
ghost use Rattle.reg_observed.specs.Heard.{Speaks, Widens};

use crate::events::Event;
use crate::faults::ReadFault;
use crate::told::Told;
use crate::words::Words;
use std::alloc::Global;

/// The processes, keys and values that a history speaks of, by number.
#[derive(Drop)]
pub struct Vocabulary {
    pub processes: Words,
    pub keys: Words,
    pub values: Words,
}

impl Vocabulary {
    pub(crate) fn new(global: Global) -> Vocabulary {
        Vocabulary {
            processes: Words::new(global),
            keys: Words::new(global),
            values: Words::new(global),
        }
    }

    /// The event with its words under numbers. New words are added.
    pub(crate) fn event(&mut self, line: u32, told: Told) -> Result<Event, ReadFault>
        ensures event { IfOk result (λ e. Speaks self.new (line, told) e) }
        ensures wider { OnOk result (Widens self.old self.new) }
        ensures why { IfErr result (λ f. f ≡ ReadFault.OutOfMemory) }
    {
        let Told {
            process,
            moment,
            act,
            key,
            expected,
            value,
        } = told;
        let process = self.processes.number(process)?;
        let key = self.keys.number(key)?;
        let expected = self.values.number(expected)?;
        let value = self.values.number(value)?;
        Ok(Event {
            line,
            process,
            moment,
            act,
            key,
            expected,
            value,
        })
    }
}

/// What a history tells: its events, in the order of its lines, and the words that they speak of.
#[derive(Drop)]
pub struct Heard {
    pub words: Vocabulary,
    pub events: Vec<Event>,
}

impl Heard {
    /// Nothing was told yet.
    pub(crate) fn new(global: Global) -> Heard
        ensures { result.events.items ≡ [] }
    {
        Heard {
            words: Vocabulary::new(global),
            events: Vec::new(global),
        }
    }
}
