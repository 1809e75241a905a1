//! The first answer that no point order explains, by what was found out of each key: the one of the earliest event.
ghost use Rattle.std.specs.Prelude.{◌≡◌, ℕ, IfSome, IsTrue};
ghost use Rattle.reg_base.specs.declared.memory.Answer.{Answer as AnyAnswer};
ghost use Rattle.reg_base.specs.declared.memory.OpId.{OpId as AnyId};
ghost use Rattle.reg_checkers.specs.declared.entries.Entry.TheVariants.{Answered};
ghost use Rattle.reg_judge.specs.Firsts.{IsAnswerAt, IsEarlier, IsFirstNot};

use crate::rulings::keys::Ruling;
use reg_checkers::Entry;

/// The earlier of an event and that of a key's first answer that none explains, if there is one.
fn earlier(found: Option<u32>, ruling: Ruling) -> Option<u32>
    ensures { IsEarlier found ruling result }
{
    let Ruling::Not { at } = ruling else {
        return found;
    };
    match found {
        Some(first) if first <= at => Some(first),
        _ => Some(at),
    }
}

/// The earliest event of an answer that is the first of its key that none explains. None where each key is
/// linearizable.
fn first_not(rulings: &[Ruling]) -> Option<u32>
    ensures { IfSome result (IsFirstNot rulings.now) }
{
    let mut found = None;
    for ruling in rulings {
        found = earlier(found, *ruling);
    }
    found
}

/// Whether the entry is an answer of this event.
fn is_answer(entry: Entry, event: u32) -> bool
    ensures { IsTrue result → (id : AnyId) × (answer : AnyAnswer) × (entry ≡ Answered event id answer) }
{
    match entry {
        Entry::Called {
            at: _,
            id: _,
            op: _,
        } => false,
        Entry::Answered {
            at,
            id: _,
            answer: _,
        } => at == event,
    }
}

/// The place of an answer of this event.
pub(crate) fn answer_place(entries: &[Entry], event: u32) -> Option<usize>
    ensures { IfSome result (IsAnswerAt entries.now event) }
{
    for place in 0..entries.len() {
        if is_answer(entries[place], event) {
            return Some(place);
        }
    }
    None
}

/// The place of the answer of the earliest event that is the first of its key that none explains.
pub(crate) fn first_unexplained(entries: &[Entry], rulings: &[Ruling]) -> Option<usize>
    ensures { IfSome result (λ place. (at : ℕ) × IsFirstNot rulings.now at × IsAnswerAt entries.now at place) }
{
    let event = first_not(rulings)?;
    answer_place(entries, event)
}
