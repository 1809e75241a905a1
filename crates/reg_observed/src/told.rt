//! What a line tells, in words of the line.
use crate::events::Moment;
use reg_judge::Act;
use std::marker::Model;

/// An event of a call. Process, key and values are the texts that JSON has of them: two are the same where their texts
/// are.
#[derive(Drop)]
pub(crate) struct Told {
    pub process: String,
    pub moment: Moment,
    pub act: Act,
    pub key: String,
    pub expected: String,
    pub value: String,
}

impl Model for Told {
    ghost use Rattle.std.specs.Prelude.{string_bytes};
    ghost use Rattle.reg_observed.specs.Told.{Telling};

    ghost Value = { Telling };

    ghost view = { λ t.
        record {
          process = string_bytes t.process;
          moment = t.moment;
          act = t.act;
          key = string_bytes t.key;
          expected = string_bytes t.expected;
          value = string_bytes t.value;
        } };
}
