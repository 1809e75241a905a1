//! What a caller sees of a world that it holds.
ghost use Rattle.std.specs.Prelude.{◌≡◌};
ghost use Rattle.reg_c.specs.Worlds.{entry_part, event_of_entry, expected_of_entry, expected_of_op, id_part};
ghost use Rattle.reg_c.specs.Worlds.{point_part, id_of_entry, kind_of_entry, kind_of_op, kind_of_answer, look_of};
ghost use Rattle.reg_c.specs.Worlds.{register_of_entry, register_of_op, value_of_entry, value_of_op};

use crate::events::value_of_answer;
use reg_base::{Answer, Op, OpId};
use reg_checkers::{Entry, Point};

/// What an entry of a history has.
#[derive(Clone, Copy)]
pub enum EntryPart {
    Event,
    Process,
    Number,
    Kind,
    Register,
    Value,
    Expected,
}

/// What the id of an operation has.
#[derive(Clone, Copy)]
pub enum IdPart {
    Process,
    Number,
}

/// What a point has.
#[derive(Clone, Copy)]
pub enum PointPart {
    Process,
    Number,
    Event,
}

/// What to look at.
#[derive(Clone, Copy)]
pub enum Look {
    /// How many events were accepted.
    Events,
    /// How many entries the history has.
    Entries,
    OfEntry(EntryPart),
    /// The value of the last step's reply, 0 where it gave none.
    ReplyValue,
    /// The place of the last step's reply: how many casts it counts with.
    ReplyPlace,
    /// How many operations the order has that was asked for last.
    Ids,
    OfId(IdPart),
    /// How many points there were when the order was asked for last.
    Points,
    OfPoint(PointPart),
}

/// What the number says to look at.
pub fn look_at(what: u32) -> Option<Look>
    ensures { result ≡ look_of what }
{
    let look = match what {
        0 => Look::Events,
        1 => Look::Entries,
        2 => Look::OfEntry(EntryPart::Event),
        3 => Look::OfEntry(EntryPart::Process),
        4 => Look::OfEntry(EntryPart::Number),
        5 => Look::OfEntry(EntryPart::Kind),
        6 => Look::OfEntry(EntryPart::Register),
        7 => Look::OfEntry(EntryPart::Value),
        8 => Look::ReplyValue,
        9 => Look::ReplyPlace,
        10 => Look::Ids,
        11 => Look::OfId(IdPart::Process),
        12 => Look::OfId(IdPart::Number),
        13 => Look::Points,
        14 => Look::OfPoint(PointPart::Process),
        15 => Look::OfPoint(PointPart::Number),
        16 => Look::OfPoint(PointPart::Event),
        17 => Look::OfEntry(EntryPart::Expected),
        _ => return None,
    };
    Some(look)
}

/// A part of an entry.
pub fn of_entry(part: EntryPart, entry: &Entry) -> u64
    ensures { result ≡ entry_part part entry.now }
{
    match part {
        EntryPart::Event => event_of(entry),
        EntryPart::Process => u64::from(id_of(entry).process),
        EntryPart::Number => u64::from(id_of(entry).number),
        EntryPart::Kind => kind_of(entry),
        EntryPart::Register => register_of(entry),
        EntryPart::Value => value_of(entry),
        EntryPart::Expected => expected_of(entry),
    }
}

/// A part of an id.
pub fn of_id(part: IdPart, id: &OpId) -> u64
    ensures { result ≡ id_part part id.now }
{
    match part {
        IdPart::Process => u64::from(id.process),
        IdPart::Number => u64::from(id.number),
    }
}

/// A part of a point.
pub fn of_point(part: PointPart, point: &Point) -> u64
    ensures { result ≡ point_part part point.now }
{
    match part {
        PointPart::Process => u64::from(point.id.process),
        PointPart::Number => u64::from(point.id.number),
        PointPart::Event => u64::from(point.at),
    }
}

/// The event of an entry.
fn event_of(entry: &Entry) -> u64
    ensures { result ≡ event_of_entry entry.now }
{
    match *entry {
        Entry::Called { at, .. } | Entry::Answered { at, .. } => u64::from(at),
    }
}

/// The operation of an entry.
fn id_of(entry: &Entry) -> OpId
    ensures { result ≡ id_of_entry entry.now }
{
    match *entry {
        Entry::Called { id, .. } | Entry::Answered { id, .. } => id,
    }
}

/// The kind of an entry, as in its row.
fn kind_of(entry: &Entry) -> u64
    ensures { result ≡ kind_of_entry entry.now }
{
    match *entry {
        Entry::Called { op, .. } => op_kind(op),
        Entry::Answered { answer, .. } => answer_kind(answer),
    }
}

fn op_kind(op: Op) -> u64
    ensures { result ≡ kind_of_op op }
{
    match op {
        Op::Read { register: _ } => 0,
        Op::Write { .. } => 1,
        Op::Swap { .. } => 2,
        Op::CompareAndSwap { .. } => 5,
    }
}

fn answer_kind(answer: Answer) -> u64
    ensures { result ≡ kind_of_answer answer }
{
    match answer {
        Answer::Done => 3,
        Answer::Value(_) => 4,
        Answer::Unequal => 6,
    }
}

/// The register of a call, 0 of an answer.
fn register_of(entry: &Entry) -> u64
    ensures { result ≡ register_of_entry entry.now }
{
    match *entry {
        Entry::Called { op, .. } => op_register(op),
        Entry::Answered { .. } => 0,
    }
}

fn op_register(op: Op) -> u64
    ensures { result ≡ register_of_op op }
{
    match op {
        Op::Read { register } => u64::from(register),
        Op::Write { register, .. } => u64::from(register),
        Op::Swap { register, .. } => u64::from(register),
        Op::CompareAndSwap { register, .. } => u64::from(register),
    }
}

/// The value of a call or an answer, 0 where it has none.
fn value_of(entry: &Entry) -> u64
    ensures { result ≡ value_of_entry entry.now }
{
    match *entry {
        Entry::Called { op, .. } => op_value(op),
        Entry::Answered { answer, .. } => value_of_answer(answer),
    }
}

fn op_value(op: Op) -> u64
    ensures { result ≡ value_of_op op }
{
    match op {
        Op::Read { register: _ } => 0,
        Op::Write { register: _, value } => value,
        Op::Swap { register: _, value } => value,
        Op::CompareAndSwap { value, .. } => value,
    }
}

/// The value that a call expects, 0 of what is no compare-and-swap.
fn expected_of(entry: &Entry) -> u64
    ensures { result ≡ expected_of_entry entry.now }
{
    match *entry {
        Entry::Called { op, .. } => op_expected(op),
        Entry::Answered { .. } => 0,
    }
}

fn op_expected(op: Op) -> u64
    ensures { result ≡ expected_of_op op }
{
    match op {
        Op::Read { .. } => 0,
        Op::Write { .. } => 0,
        Op::Swap { .. } => 0,
        Op::CompareAndSwap { expected, .. } => expected,
    }
}
