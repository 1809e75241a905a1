//! The text of all outcomes.
ghost use Rattle.std.specs.Prelude.{◌++◌, ◌∷◌, [], codes, map};
ghost use Rattle.std.specs.Option.{option_map};
ghost use Rattle.reg_base.specs.Lists.{lists};
ghost use Rattle.reg_text.specs.Lines.{text_of};
ghost use Rattle.reg_text.specs.Writing.{Puts, IsWritten};
ghost use Rattle.reg_outcomes.specs.AllText.{all_text, never_lines, outcome_text, turns_text, value_text, values_text};

use crate::interleavings::nevers::MOST_NEVERS;
use crate::interleavings::outcomes::{AllOutcomes, Outcome};
use crate::told::ToldAnswer;
use crate::values::{put_count, put_outcome, put_value};
use reg_text::{Sink, Unwritten, put_number};
use std::alloc::Allocator;
use std::io::Write;

/// Puts the processes in the order of their turns.
fn put_turns<W: Write>(sink: &mut Sink<'_, W>, turns: &[u8])
    ensures { Puts W.contents sink.old sink.new (turns_text turns.now) }
{
    sink.put(b"turns");
    for turn in turns {
        put_number(sink, " ", *turn as u64);
    }
}

/// Puts the line of an outcome.
fn put_line<A: Allocator + Copy, W: Write>(sink: &mut Sink<'_, W>, outcome: &Outcome<A>)
    ensures { Puts W.contents sink.old sink.new (outcome_text outcome.now ++ 10 ∷ []) }
{
    put_outcome(sink, outcome.told.as_slice());
    put_turns(sink, outcome.turns.as_slice());
    sink.put(b"\n");
}

/// Puts a line for each outcome.
fn put_lines<A: Allocator + Copy, W: Write>(sink: &mut Sink<'_, W>, outcomes: &[Outcome<A>])
    ensures { Puts W.contents sink.old sink.new (text_of (map outcome_text outcomes.now)) }
{
    for outcome in outcomes {
        put_line(sink, outcome);
    }
}

/// Puts an answer that stands after others.
fn put_behind<W: Write>(sink: &mut Sink<'_, W>, value: ToldAnswer)
    ensures { Puts W.contents sink.old sink.new (codes "  " ++ value_text value) }
{
    sink.put(b"  ");
    put_value(sink, value);
}

/// Puts answers, two spaces between them.
fn put_values<W: Write>(sink: &mut Sink<'_, W>, values: &[ToldAnswer])
    ensures { Puts W.contents sink.old sink.new (values_text values.now) }
{
    let Some((first, others)) = values.split_first() else {
        return;
    };
    put_value(sink, *first);
    for value in others {
        put_behind(sink, *value);
    }
}

/// Puts the line of answers that no outcome has.
fn put_never<W: Write>(sink: &mut Sink<'_, W>, values: &[ToldAnswer])
    ensures { Puts W.contents sink.old sink.new (values_text values.now ++ 10 ∷ []) }
{
    put_values(sink, values);
    sink.put(b"\n");
}

/// Puts a line for each list of answers.
fn put_list<A: Allocator + Copy, W: Write>(sink: &mut Sink<'_, W>, list: &[Vec<ToldAnswer, A>])
    ensures { Puts W.contents sink.old sink.new (text_of (map values_text (lists list.now))) }
{
    for values in list {
        put_never(sink, values.as_slice());
    }
}

/// Puts the lines of what no outcome has.
fn put_nevers<A: Allocator + Copy, W: Write>(
    sink: &mut Sink<'_, W>,
    nevers: &Option<Vec<Vec<ToldAnswer, A>, A>>,
)
    ensures { Puts W.contents sink.old sink.new
        (text_of (never_lines (option_map (λ list. lists list.items) nevers.now))) }
{
    match nevers {
        None => put_count(sink, "never over ", MOST_NEVERS as u64),
        Some(list) => {
            put_count(sink, "never ", list.len() as u64);
            put_list(sink, list.as_slice());
        }
    }
}

/// Puts the text of all outcomes.
fn put_all<A: Allocator + Copy, W: Write>(
    sink: &mut Sink<'_, W>,
    operations: u64,
    all: &AllOutcomes<A>,
    nevers: &Option<Vec<Vec<ToldAnswer, A>, A>>,
)
    ensures { Puts W.contents sink.old sink.new
        (all_text operations all.now.stages all.now.list.items (option_map (λ list. lists list.items) nevers.now)) }
{
    put_count(sink, "operations ", operations);
    put_count(sink, "stages ", all.stages);
    put_count(sink, "outcomes ", all.list.len() as u64);
    put_lines(sink, all.list.as_slice());
    put_nevers(sink, nevers);
}

/// Writes the text of all outcomes of this number of operations, with what none has: all of it or, where the writer
/// fails, a first part.
pub fn write_all<A: Allocator + Copy, W: Write>(
    writer: &mut W,
    operations: u64,
    all: &AllOutcomes<A>,
    nevers: &Option<Vec<Vec<ToldAnswer, A>, A>>,
) -> Result<(), Unwritten>
    ensures { IsWritten result (W.contents writer.old) (W.contents writer.new)
        (all_text operations all.now.stages all.now.list.items (option_map (λ list. lists list.items) nevers.now)) }
{
    let mut sink = Sink::new(writer);
    put_all(&mut sink, operations, all, nevers);
    sink.finish()
}
