//! The numbers of a workload.
ghost use Rattle.std.specs.Prelude.{◌≡◌, ◌<◌, ◌≤◌, pos, None, Some, IfOk, MatchResult};
ghost use Rattle.toml.specs.Data.{get_member, integer};
ghost use Rattle.toml.specs.View.{table_view, view};
ghost use Rattle.reg_base.specs.declared.limits.TheConstants.{MOST_EVENTS, MOST_ODDS, LAST_SEED, USUAL_BUDGET};
ghost use Rattle.reg_inputs.specs.Keys.{key_name};
ghost use Rattle.reg_inputs.specs.declared.keys.Key.TheVariants as key;
ghost use Rattle.reg_inputs.specs.Loads.{SaysNumber};
ghost use Rattle.reg_inputs.specs.Judged.{number_fault, number_at, numbers_at};

use crate::faults::WorkloadFault;
use crate::keys::Key;
use crate::values::value_at;
use reg_base::limits::{LAST_SEED, MOST_EVENTS, MOST_ODDS, USUAL_BUDGET};
use toml::{Table, Value};

/// The numbers of a workload.
#[derive(Clone, Copy)]
pub(crate) struct Numbers {
    pub(crate) seed: u64,
    pub(crate) loss: u32,
    pub(crate) repeat: u32,
    pub(crate) budget: u32,
}

/// The integer that a value is, within these limits.
fn number_of(value: &Value, key: Key, least: u64, most: u64) -> Result<u64, WorkloadFault>
    ensures { MatchResult result
        (λ n. (view value.now ≡ integer (pos n)) × (number_fault key least most (view value.now) ≡ None) × (least ≤ n)
        × (n ≤ most))
        (λ e. number_fault key least most (view value.now) ≡ Some e) }
{
    let Some(number) = value.as_integer() else {
        return Err(WorkloadFault::Kind { key });
    };
    if number < 0 {
        return Err(WorkloadFault::Range { key });
    }
    let number = number as u64;
    if least <= number && number <= most {
        Ok(number)
    } else {
        Err(WorkloadFault::Range { key })
    }
}

/// The integer at a key, and the usual one where the key is not there.
fn read_number(
    table: &Table,
    key: Key,
    least: u64,
    most: u64,
    usual: u64,
) -> Result<u64, WorkloadFault>
    requires least { least ≤ usual }
    requires most { usual ≤ most }
    ensures { MatchResult result
        (λ n. SaysNumber usual n (get_member (key_name key) (table_view table.now))
        × (number_at key least most (table_view table.now) ≡ None) × (least ≤ n) × (n ≤ most))
        (λ e. number_at key least most (table_view table.now) ≡ Some e) }
{
    match value_at(table, key) {
        Some(value) => number_of(value, key, least, most),
        None => Ok(usual),
    }
}

/// The seed, the odds and the budget of a table.
pub(crate) fn read_numbers(table: &Table) -> Result<Numbers, WorkloadFault>
    ensures fault { MatchResult result (λ _. numbers_at (table_view table.now) ≡ None)
        (λ e. numbers_at (table_view table.now) ≡ Some e) }
    ensures seed { IfOk result
        (λ n. SaysNumber 0 n.seed (get_member (key_name key.Seed) (table_view table.now)) × (n.seed ≤ LAST_SEED)) }
    ensures loss { IfOk result
        (λ n. SaysNumber 0 n.loss (get_member (key_name key.Loss) (table_view table.now)) × (n.loss ≤ MOST_ODDS)) }
    ensures repeat { IfOk result
        (λ n. SaysNumber 0 n.repeat (get_member (key_name key.Repeat) (table_view table.now))
        × (n.repeat ≤ MOST_ODDS)) }
    ensures budget { IfOk result
        (λ n. SaysNumber USUAL_BUDGET n.budget (get_member (key_name key.Budget) (table_view table.now))
        × (0 < n.budget) × (n.budget ≤ MOST_EVENTS)) }
{
    let seed = read_number(table, Key::Seed, 0, LAST_SEED, 0)?;
    let loss = read_number(table, Key::Loss, 0, u64::from(MOST_ODDS), 0)?;
    let repeat = read_number(table, Key::Repeat, 0, u64::from(MOST_ODDS), 0)?;
    let budget = read_number(
        table,
        Key::Budget,
        1,
        u64::from(MOST_EVENTS),
        u64::from(USUAL_BUDGET),
    )?;
    Ok(Numbers {
        seed,
        loss: loss as u32,
        repeat: repeat as u32,
        budget: budget as u32,
    })
}
