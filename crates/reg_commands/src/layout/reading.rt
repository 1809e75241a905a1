//! The workload of a text.
ghost use Rattle.std.specs.Prelude.{◌≡◌, ◌<◌, ◌≤◌, None, IfOk};
ghost use Rattle.reg_inputs.specs.Loads.{IsLoad};

use crate::layout::bytes::{behind, behind_item, first, skip_blank, text_at};
use crate::layout::draft::{Draft, draft_of};
use crate::layout::scalars::{Scalar, scalar_at};
use crate::layout::scripts::scripts_at;
use reg_base::limits::{LAST_SEED, MOST_EVENTS, MOST_ODDS, USUAL_BUDGET};
use reg_base::{Names, Shape};
use reg_front::Front;
use reg_inputs::{Key, Workload, WorkloadFault};
use std::alloc::Allocator;
use std::str;

/// What stands from a value on.
fn from(text: &[u8], at: usize) -> &[u8] {
    text.get(at..).unwrap_or(&[])
}

/// What stands from the value on at a key that each workload has.
fn needed(text: &[u8], value: Option<usize>, key: Key) -> Result<&[u8], WorkloadFault> {
    match value {
        Some(at) => Ok(from(text, at)),
        None => Err(WorkloadFault::Missing { key }),
    }
}

fn front_at(bytes: &[u8]) -> Result<Front, WorkloadFault> {
    let key = Key::Front;
    let Some((text, _)) = text_at(bytes) else {
        return Err(WorkloadFault::Kind { key });
    };
    let name = str::from_utf8(text).map_err(|_| WorkloadFault::Range { key })?;
    Front::from_name(name).ok_or(WorkloadFault::Range { key })
}

fn owned<A: Allocator + Copy>(alloc: A, bytes: &[u8]) -> Result<String<A>, WorkloadFault> {
    let copy = Vec::from_slice(alloc, bytes).map_err(|_| WorkloadFault::OutOfMemory)?;
    String::from_utf8(copy).map_err(|_| WorkloadFault::Toml)
}

fn names_of<A: Allocator + Copy>(texts: Vec<String<A>, A>) -> Result<Names<A>, WorkloadFault> {
    Names::new(texts).map_err(|_| WorkloadFault::Range {
        key: Key::Registers,
    })
}

fn names_at<A: Allocator + Copy>(alloc: A, bytes: &[u8]) -> Result<Names<A>, WorkloadFault> {
    let key = Key::Registers;
    if first(bytes) != b'[' {
        return Err(WorkloadFault::Kind { key });
    }
    let mut rest = skip_blank(behind(bytes));
    let mut texts = Vec::new(alloc);
    for _ in 0..bytes.len() {
        if first(rest) == b']' {
            return names_of(texts);
        }
        let Some((text, after)) = text_at(rest) else {
            return Err(WorkloadFault::Kind { key });
        };
        if texts.push(owned(alloc, text)?).is_err() {
            return Err(WorkloadFault::OutOfMemory);
        }
        match behind_item(after) {
            Some(more) => rest = more,
            None => return Err(WorkloadFault::Toml),
        }
    }
    Err(WorkloadFault::Toml)
}

/// Which numbers a key may have, and the usual one where the key is not there.
#[derive(Clone, Copy)]
struct Numbers {
    least: u64,
    most: u64,
    usual: u64,
}

/// The number at a key.
fn number_of(
    text: &[u8],
    value: Option<usize>,
    key: Key,
    numbers: Numbers,
) -> Result<u64, WorkloadFault>
    requires least { numbers.least ≤ numbers.usual }
    requires most { numbers.usual ≤ numbers.most }
    ensures { IfOk result (λ n. (numbers.least ≤ n) × (n ≤ numbers.most)) }
{
    let Some(at) = value else {
        return Ok(numbers.usual);
    };
    let Some((Scalar::Integer(integer), _)) = scalar_at(from(text, at)) else {
        return Err(WorkloadFault::Kind { key });
    };
    match u64::try_from(integer) {
        Ok(number) if numbers.least <= number && number <= numbers.most => Ok(number),
        _ => Err(WorkloadFault::Range { key }),
    }
}

/// Odds in a hundred: none where the key is not there.
const ODDS: Numbers = Numbers {
    least: 0,
    most: MOST_ODDS as u64,
    usual: 0,
};

fn workload_of<A: Allocator + Copy>(
    alloc: A,
    text: &[u8],
    draft: Draft,
) -> Result<Workload<A>, WorkloadFault>
    ensures { IfOk result (λ w. IsLoad w) }
{
    let front = front_at(needed(text, draft.front, Key::Front)?)?;
    let names = names_at(alloc, needed(text, draft.registers, Key::Registers)?)?;
    let lines = needed(text, draft.scripts, Key::Scripts)?;
    let seeds = Numbers {
        least: 0,
        most: LAST_SEED,
        usual: 0,
    };
    let budgets = Numbers {
        least: 1,
        most: u64::from(MOST_EVENTS),
        usual: u64::from(USUAL_BUDGET),
    };
    let seed = number_of(text, draft.seed, Key::Seed, seeds)?;
    let loss = number_of(text, draft.loss, Key::Loss, ODDS)?;
    let repeat = number_of(text, draft.repeat, Key::Repeat, ODDS)?;
    let budget = number_of(text, draft.budget, Key::Budget, budgets)?;
    let scripts = scripts_at(alloc, lines, &names)?;
    let processes = scripts.len();
    if processes == 0 {
        return Err(WorkloadFault::Range { key: Key::Scripts });
    }
    let Ok(shape) = Shape::new(processes as u32, names.count() as u32) else {
        return Err(WorkloadFault::Range { key: Key::Scripts });
    };
    Ok(Workload {
        shape,
        names,
        front,
        scripts,
        seed,
        loss: loss as u32,
        repeat: repeat as u32,
        budget: budget as u32,
    })
}

/// The workload that a text seems to say, or a fault that it seems to have.
pub fn guess_workload<A: Allocator + Copy>(
    alloc: A,
    text: &str,
) -> Result<Workload<A>, WorkloadFault>
    ensures { IfOk result (λ w. IsLoad w) }
{
    let Some(draft) = draft_of(text.as_bytes()) else {
        return Err(WorkloadFault::Toml);
    };
    if draft.has_unknown {
        return Err(WorkloadFault::UnknownKey);
    }
    workload_of(alloc, text.as_bytes(), draft)
}
