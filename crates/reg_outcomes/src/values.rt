//! The text of counts and of outcomes.
ghost use Rattle.std.specs.Prelude.{◌++◌, ◌∷◌, []};
ghost use Rattle.std.specs.List.{flat_map};
ghost use Rattle.std.specs.Fmt.{decimal};
ghost use Rattle.reg_text.specs.Writing.{Puts};
ghost use Rattle.reg_outcomes.specs.AllText.{answer_text, told_text, value_text};

use crate::told::ToldAnswer;
use reg_base::Answer;
use reg_text::{Sink, put_number};
use std::io::Write;

/// Puts a mark, and then a number, and ends the line.
pub fn put_count<W: Write>(sink: &mut Sink<'_, W>, mark: &str, number: u64)
    ensures { Puts W.contents sink.old sink.new ((mark.now ++ decimal number) ++ 10 ∷ []) }
{
    put_number(sink, mark, number);
    sink.put(b"\n");
}

/// Puts an answer, after a space.
fn put_answer<W: Write>(sink: &mut Sink<'_, W>, answer: Answer)
    ensures { Puts W.contents sink.old sink.new (answer_text answer) }
{
    match answer {
        Answer::Done => sink.put(b" done"),
        Answer::Value(value) => put_number(sink, " value ", value),
        Answer::Unequal => sink.put(b" unequal"),
    }
}

/// Puts an operation and what it answered.
pub(crate) fn put_value<W: Write>(sink: &mut Sink<'_, W>, told: ToldAnswer)
    ensures { Puts W.contents sink.old sink.new (value_text told) }
{
    put_number(sink, "p", told.process as u64);
    put_number(sink, " #", told.number as u64);
    put_answer(sink, told.answer);
}

/// Puts what an operation answered, and two spaces.
fn put_told<W: Write>(sink: &mut Sink<'_, W>, told: ToldAnswer)
    ensures { Puts W.contents sink.old sink.new (told_text told) }
{
    put_value(sink, told);
    sink.put(b"  ");
}

/// Puts an outcome, two spaces after each answer.
pub fn put_outcome<W: Write>(sink: &mut Sink<'_, W>, outcome: &[ToldAnswer])
    ensures { Puts W.contents sink.old sink.new (flat_map told_text outcome.now) }
{
    for told in outcome {
        put_told(sink, *told);
    }
}
