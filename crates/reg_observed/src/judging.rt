//! What a history that was heard comes to.
ghost use Rattle.std.specs.Prelude.{◌≡◌, ℕ, List, IfOk, IfSome, OnOk, length, option_copied};
ghost use Rattle.reg_observed.specs.Verdicts.{AreJudged, AreSought, IsHeard, IsJudged, IsSerialOf, registers_for};
ghost use Rattle.reg_observed.specs.Rows.{rows_from};
ghost use Rattle.reg_observed.specs.Reading.{AreEvents};
ghost use Rattle.reg_observed.specs.Told.{Telling};
ghost use Rattle.reg_observed.specs.Turns.{first_wrong, none_running};
ghost use Rattle.reg_judge.specs.Instead.{AreToldOf};
ghost use Rattle.reg_judge.specs.Rulings.{AreRuled, RulesSerial};
ghost use Rattle.reg_judge.specs.Standing.{IsStood};

use crate::faults::{JudgeFault, ReadFault};
use crate::first_values::first_value;
use crate::heard::Heard;
use crate::histories::{history_in, shape_of, unruled};
use crate::rows::rows_of;
use crate::turns::check_turns;
use reg_base::Answer;
use reg_base::limits::{MOST_EVENTS, MOST_REGISTERS};
use reg_checkers::{History, Point};
use reg_judge::{
    Naming, Row, Ruling, Serial, Sought, Unseated, history_of, possible_all, rule_all, seek,
    seek_serial,
};
use std::alloc::{Allocator, Global};

/// What was found out of a history.
#[derive(Drop)]
pub struct Verdict<A: Allocator + Copy> {
    /// The number of the first value of registers.
    pub first: u32,
    /// The history, of all keys.
    pub history: History<A>,
    /// A point order of it, None where there is none.
    pub points: Option<Vec<Point, A>>,
    /// Of each key, by number.
    pub keys: Vec<Ruling>,
    /// What might have been answered at the first answer of each key that none explains, if it was looked for.
    pub possible: Vec<Option<Vec<Answer>>>,
    /// Whether it has a serial order, None where it has a point order, which is one.
    pub serial: Option<Serial>,
}

/// The history of rows under the numbers of their processes, None where they have none.
fn own_history<A: Allocator + Copy>(
    alloc: A,
    heard: &Heard,
    rows: &[Row],
) -> Result<Option<History<A>>, JudgeFault>
    ensures stands { IfOk result
        (λ o. IfSome o
        (λ h. IsStood Naming.Own (length heard.now.words.processes) (registers_for (length heard.now.words.keys))
        rows.now h.entries)) }
    ensures registers { IfOk result
        (λ o. IfSome o (λ h. h.shape.registers ≡ registers_for (length heard.now.words.keys))) }
{
    let shape = shape_of(heard.words.keys.count())?;
    let processes = heard.words.processes.count();
    match history_of(alloc, shape, Naming::Own, processes, rows) {
        Ok(history) => Ok(Some(history)),
        Err(Unseated::OutOfMemory) => Err(JudgeFault::OutOfMemory),
        Err(_) => Ok(None),
    }
}

/// Whether the rows, each process under its own number, have a serial order.
fn serial_of<A: Allocator + Copy>(
    alloc: A,
    heard: &Heard,
    rows: &[Row],
) -> Result<Serial, JudgeFault>
    ensures { IfOk result
        (IsSerialOf (length heard.now.words.processes) (registers_for (length heard.now.words.keys)) rows.now) }
{
    let history = own_history(alloc, heard, rows)?;
    match history {
        Some(history) => Ok(seek_serial(alloc, &history)?),
        None => Ok(Serial::Unjudged),
    }
}

/// What is found out of each key.
fn rulings_of(global: Global, heard: &Heard, rows: &[Row]) -> Result<Vec<Ruling>, JudgeFault>
    ensures { IfOk result
        (λ v. AreRuled (length heard.now.words.processes) (length heard.now.words.keys) rows.now v.items) }
{
    let count = heard.words.keys.count();
    if count > MOST_REGISTERS as usize {
        return Err(JudgeFault::Keys { count });
    }
    match rule_all(global, heard.words.processes.count(), count as u32, rows) {
        Ok(rulings) => Ok(rulings),
        Err(fault) => Err(unruled(&heard.events, fault)),
    }
}

/// What might have been answered instead, of each key.
fn possible_of(
    global: Global,
    heard: &Heard,
    rows: &[Row],
    rulings: &[Ruling],
) -> Result<Vec<Option<Vec<Answer>>>, JudgeFault>
    ensures { IfOk result (λ v. AreToldOf (length heard.now.words.processes) rows.now rulings.now v.items) }
{
    match possible_all(global, heard.words.processes.count(), rows, rulings) {
        Ok(told) => Ok(told),
        Err(fault) => Err(unruled(&heard.events, fault)),
    }
}

/// A point order of the history, None where there is none.
fn points_of<A: Allocator + Copy>(
    alloc: A,
    heard: &Heard,
    history: &History<A>,
) -> Result<Option<Vec<Point, A>>, JudgeFault>
    ensures { IfOk result (AreSought history.now.shape.registers history.now.entries) }
{
    match seek(alloc, history) {
        Ok(Sought::Points(points)) => Ok(Some(points)),
        Ok(Sought::None { place: _ }) => Ok(None),
        Err(fault) => Err(unruled(&heard.events, fault)),
    }
}

/// What rows come to, where the first value of registers has this number.
fn judge_rows<A: Allocator + Copy>(
    alloc: A,
    global: Global,
    heard: &Heard,
    first: u32,
    rows: &[Row],
) -> Result<Verdict<A>, JudgeFault>
    ensures judged { IfOk result (AreJudged (length heard.now.words.processes) (length heard.now.words.keys) rows.now) }
    ensures first { IfOk result (λ v. v.first ≡ first) }
{
    let history = history_in(alloc, heard, rows)?;
    let keys = rulings_of(global, heard, rows)?;
    let possible = possible_of(global, heard, rows, &keys)?;
    let points = points_of(alloc, heard, &history)?;
    let serial = match points {
        Some(_) => None,
        None => Some(serial_of(alloc, heard, rows)?),
    };
    Ok(Verdict {
        first,
        history,
        points,
        keys,
        possible,
        serial,
    })
}

/// The calls and answers of the events, where each process is in turn.
fn rows_in_turn(global: Global, heard: &Heard, first: u32) -> Result<Vec<Row>, JudgeFault>
    requires { IsHeard heard.now }
    ensures turns { OnOk result
        (first_wrong (none_running (length heard.now.words.processes)) heard.now.events.items ≡ None) }
    ensures rows { IfOk result (λ v. v.items ≡ rows_from first 0 heard.now.events.items) }
{
    if heard.events.len() > MOST_EVENTS as usize {
        return Err(JudgeFault::Read {
            fault: ReadFault::TooLong,
        });
    }
    let processes = heard.words.processes.count();
    check_turns(global, processes, &heard.events)?;
    Ok(rows_of(global, processes, first, &heard.events)?)
}

/// What a history comes to that was heard. `asked` is the first value of registers, as JSON has it; where it is None,
/// the first value is null if some answer is null or a compare-and-swap expects null, and else 0.
///
/// # Errors
///
/// `First` says that what was asked for is no value; `Read` names the first event that its process may not have told of
/// where it stands; `Keys` says that there are more keys than registers; `Full` names the first call that finds no
/// place; `TooWide` says that no order was looked for to the end, and at which line there were too many stages.
/// `OutOfPlace` names what may not come next, and `Unchecked` says that an order was found which is none: that neither
/// ever comes, no clause says.
pub fn judge<A: Allocator + Copy>(
    alloc: A,
    global: Global,
    heard: &mut Heard,
    asked: Option<&str>,
) -> Result<Verdict<A>, JudgeFault>
    requires { IsHeard heard.old }
    ensures judged { IfOk result (IsJudged (option_copied asked.entry) heard.new) }
    ensures told { OnOk result
        ((told : List (ℕ × Telling)) → AreEvents heard.old.words told heard.old.events.items
        → AreEvents heard.new.words told heard.new.events.items) }
{
    let first = first_value(global, &mut heard.words.values, &heard.events, asked)?;
    let rows = rows_in_turn(global, heard, first)?;
    let verdict = judge_rows(alloc, global, heard, first, &rows)?;
    Ok(verdict)
}
