//! A history of rows: each call under a name, and its answer under the same.
ghost use Rattle.std.specs.Prelude.{◌≡◌, ◌<◌, ◌++◌, ◌∷◌, [], ℕ, IfOk, IfSome, OnOk, Some, length, get_or, None};
ghost use Rattle.std.specs.Prelude.{slice_get, slice_set, replicate};
ghost use Rattle.reg_judge.specs.Standing.{MayName, Stands, IsStood, OneMore, act_op, no_calls};
ghost use Rattle.reg_base.specs.declared.memory.OpId.{OpId as AnyId};
ghost use Rattle.reg_checkers.specs.declared.entries.Entry.TheVariants.{Called, Answered};
ghost use Rattle.reg_checkers.specs.History.{WasCalled};
ghost use Rattle.reg_checkers.specs.Log.{IsLog, IsNextOf};

use crate::rulings::rows::{Act, Row, Step};
use reg_base::limits::{MOST_OPERATIONS, MOST_PROCESSES, MOST_REGISTERS};
use reg_base::{Answer, Op, OpId, Shape};
use reg_checkers::{Entry, History, HistoryFault};
use std::alloc::{AllocError, Allocator};

/// Under which names operations stand in a history.
#[derive(Clone, Copy, Debug, PartialEq, Eq)]
pub enum Naming {
    /// Under any: a call takes a place at which no call is under way, so that real time alone orders operations.
    Any,
    /// Under the number of their own process.
    Own,
}

/// Why rows are no history.
#[derive(Clone, Copy, Debug, PartialEq, Eq)]
pub enum Unseated {
    /// The call of this event found no place: under any name, at each of `limits::MOST_PROCESSES` places a call is
    /// under way, or `limits::MOST_OPERATIONS` were; under its own, there is no place for its process.
    Full { at: u32 },
    /// The row of this event may not come next.
    OutOfPlace { at: u32 },
    /// There was no memory for it.
    OutOfMemory,
}

impl From<AllocError> for Unseated {
    ghost use Rattle.reg_judge.specs.declared.rulings.seats.Unseated.TheVariants.{OutOfMemory};

    ghost from_gives = { λ _ e. e ≡ OutOfMemory };

    fn from(_error: AllocError) -> Unseated {
        Unseated::OutOfMemory
    }
}

/// The last call of a process.
#[derive(Clone, Copy)]
pub(crate) struct LastCall {
    /// Its name in the history.
    pub(crate) id: OpId,
    /// Its key.
    pub(crate) key: u32,
}

/// What is kept beside a history: of each place how many calls it had and whether one is under way, and of each process
/// its last call.
#[derive(Drop)]
struct Seats<A: Allocator + Copy> {
    next: Vec<u32, A>,
    busy: Vec<bool, A>,
    held: Vec<Option<LastCall>, A>,
}

/// The operation of a call.
fn op_of(act: Act, key: u32, expected: u64, value: u64) -> Op
    requires { key < 65536 }
    ensures { result ≡ act_op act key expected value }
{
    let register = key as u16;
    match act {
        Act::Read => Op::Read { register },
        Act::Write => Op::Write { register, value },
        Act::Swap => Op::Swap { register, value },
        Act::CompareAndSwap => Op::CompareAndSwap {
            register,
            expected,
            value,
        },
    }
}

fn none_held<A: Allocator + Copy>(
    alloc: A,
    processes: usize,
) -> Result<Vec<Option<LastCall>, A>, AllocError>
    ensures { IfOk result (λ v. v.items ≡ no_calls processes) }
{
    let held = vec![in alloc; None; processes]?;
    Ok(held)
}

impl<A: Allocator + Copy> Seats<A> {
    fn new(alloc: A, processes: usize) -> Result<Seats<A>, AllocError>
        ensures { IfOk result (λ s. s.held.items ≡ no_calls processes) }
    {
        let next = vec![in alloc; 0; MOST_PROCESSES as usize]?;
        let busy = vec![in alloc; false; MOST_PROCESSES as usize]?;
        let held = none_held(alloc, processes)?;
        Ok(Seats { next, busy, held })
    }

    /// The first place at which no call is under way, and one more fits.
    fn free(&self) -> Option<u8> {
        for place in 0..MOST_PROCESSES as u8 {
            let busy = self.busy.get(place as usize).copied();
            let next = self.next.get(place as usize).copied();
            if busy == Some(false) && next.is_some_and(|n| n < MOST_OPERATIONS) {
                return Some(place);
            }
        }
        None
    }

    /// The place for a call of the process.
    fn place(&self, naming: Naming, process: u32) -> Option<u8>
        ensures { IfSome result (MayName naming process) }
    {
        match naming {
            Naming::Any => self.free(),
            Naming::Own => {
                if process < MOST_PROCESSES {
                    Some(process as u8)
                } else {
                    None
                }
            }
        }
    }

    /// The name of the next call at the place.
    fn name(&self, place: u8) -> OpId
        ensures { result.process ≡ place }
    {
        OpId {
            process: place,
            number: self.next.get(place as usize).copied().unwrap_or(0),
        }
    }

    /// Notes whether a call is under way at the place of this name, and that the next one has the number after it.
    fn note(&mut self, id: OpId, busy: bool)
        ensures { self.new.held.items ≡ self.old.held.items }
    {
        if let Some(kept) = self.busy.get_mut(id.process as usize) {
            *kept = busy;
        }
        if let Some(next) = self.next.get_mut(id.process as usize) {
            *next = id.number.saturating_add(1);
        }
    }
}

/// Adds an entry.
fn push<A: Allocator + Copy>(
    history: &mut History<A>,
    at: u32,
    entry: Entry,
) -> Result<(), Unseated>
    ensures grown { OnOk result (history.new.entries ≡ history.old.entries ++ entry ∷ []) }
    ensures in_place { OnOk result (IsNextOf history.old entry) }
    ensures log { OnOk result (IsLog history.old → IsLog history.new) }
    ensures shape { history.new.shape ≡ history.old.shape }
{
    match history.push(entry) {
        Ok(()) => Ok(()),
        Err(HistoryFault::OutOfPlace) => Err(Unseated::OutOfPlace { at }),
        Err(HistoryFault::OutOfMemory) => Err(Unseated::OutOfMemory),
    }
}

/// Adds a call.
fn add_call<A: Allocator + Copy>(
    history: &mut History<A>,
    seats: &mut Seats<A>,
    naming: Naming,
    row: &Row,
    op: Op,
) -> Result<(), Unseated>
    requires { row.now.process < length seats.old.held.items }
    ensures call { OnOk result
        ((id : AnyId) × MayName naming row.now.process id.process × (¬ WasCalled history.old.entries id)
        × (history.new.entries ≡ history.old.entries ++ Called row.now.at id op ∷ [])
        × (seats.new.held.items
        ≡ slice_set seats.old.held.items row.now.process (Some (record { id = id; key = row.now.key })))) }
    ensures log { OnOk result (IsLog history.old → IsLog history.new) }
    ensures shape { history.new.shape ≡ history.old.shape }
{
    let Some(place) = seats.place(naming, row.process) else {
        return Err(Unseated::Full { at: row.at });
    };
    let id = seats.name(place);
    let entry = Entry::Called { at: row.at, id, op };
    push(history, row.at, entry)?;
    seats.note(id, true);
    seats.held[row.process as usize] = Some(LastCall { id, key: row.key });
    Ok(())
}

/// Adds an answer.
fn add_answer<A: Allocator + Copy>(
    history: &mut History<A>,
    seats: &mut Seats<A>,
    row: &Row,
    answer: Answer,
) -> Result<(), Unseated>
    requires { row.now.process < length seats.old.held.items }
    ensures answer { OnOk result
        ((id : AnyId)
        × (get_or seats.old.held.items row.now.process None ≡ Some (record { id = id; key = row.now.key }))
        × (history.new.entries ≡ history.old.entries ++ Answered row.now.at id answer ∷ [])
        × (seats.new.held.items ≡ seats.old.held.items)) }
    ensures log { OnOk result (IsLog history.old → IsLog history.new) }
    ensures shape { history.new.shape ≡ history.old.shape }
{
    let Some(last) = seats.held[row.process as usize] else {
        return Err(Unseated::OutOfPlace { at: row.at });
    };
    if last.key != row.key {
        return Err(Unseated::OutOfPlace { at: row.at });
    }
    let id = last.id;
    let entry = Entry::Answered {
        at: row.at,
        id,
        answer,
    };
    push(history, row.at, entry)?;
    seats.note(id, false);
    Ok(())
}

/// Adds a row.
fn add_row<A: Allocator + Copy>(
    history: &mut History<A>,
    seats: &mut Seats<A>,
    naming: Naming,
    row: &Row,
) -> Result<(), Unseated>
    ensures more { OnOk result
        (OneMore naming row.now seats.old.held.items history.old.entries seats.new.held.items history.new.entries) }
    ensures log { OnOk result (IsLog history.old → IsLog history.new) }
    ensures shape { history.new.shape ≡ history.old.shape }
{
    if row.process as usize >= seats.held.len() || row.key >= MOST_REGISTERS {
        return Err(Unseated::OutOfPlace { at: row.at });
    }
    match row.step {
        Step::Call {
            act,
            expected,
            value,
        } => add_call(
            history,
            seats,
            naming,
            row,
            op_of(act, row.key, expected, value),
        ),
        Step::Answer(answer) => add_answer(history, seats, row, answer),
    }
}

fn add_rows<A: Allocator + Copy>(
    alloc: A,
    history: &mut History<A>,
    naming: Naming,
    processes: usize,
    rows: &[Row],
) -> Result<(), Unseated>
    requires { history.old.entries ≡ [] }
    ensures stands { OnOk result (IsStood naming processes history.new.shape.registers rows.now history.new.entries) }
    ensures shape { history.new.shape ≡ history.old.shape }
{
    let mut seats = Seats::new(alloc, processes)?;
    for row in rows {
        add_row(history, &mut seats, naming, row)?;
    }
    Ok(())
}

/// The history of these rows, of as many registers.
///
/// # Errors
///
/// `Full` names the event of the first call that finds no place; `OutOfPlace` the first row that may not come next.
pub fn history_of<A: Allocator + Copy>(
    alloc: A,
    shape: Shape,
    naming: Naming,
    processes: usize,
    rows: &[Row],
) -> Result<History<A>, Unseated>
    ensures stands { IfOk result (λ h. IsStood naming processes shape.registers rows.now h.entries) }
    ensures shape { IfOk result (λ h. h.shape ≡ shape) }
{
    let mut history = History::new(alloc, shape)?;
    add_rows(alloc, &mut history, naming, processes, rows)?;
    Ok(history)
}
