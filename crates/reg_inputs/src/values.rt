//! The values of a table.
ghost use Rattle.std.specs.Prelude.{◌≡◌, ◌⊎◌, ◌<◌, ◌≤◌, Option, List, None, Some, Ok, true, IsTrue, IfOk, MatchResult};
ghost use Rattle.std.specs.Prelude.{map, length, option_map, nat_lt, nat_le, ◌&&◌};
ghost use Rattle.std.specs.List.{list_all};
ghost use Rattle.toml.specs.Data.{Data, get_member, string, array};
ghost use Rattle.toml.specs.View.{table_view, view, items_of};
ghost use Rattle.reg_base.specs.Names.{texts, names_fault};
ghost use Rattle.reg_base.specs.declared.limits.TheConstants.{MOST_PROCESSES, MOST_OPERATIONS};
ghost use Rattle.reg_front.specs.declared.named.Front.{Front};
ghost use Rattle.reg_front.specs.Table.{front_name};
ghost use Rattle.reg_inputs.specs.Keys.{key_name, all_known};
ghost use Rattle.reg_inputs.specs.declared.keys.Key.TheVariants as key;
ghost use Rattle.reg_inputs.specs.declared.faults.WorkloadFault.{WorkloadFault};
ghost use Rattle.reg_inputs.specs.declared.faults.WorkloadFault.TheVariants.{OutOfMemory};
ghost use Rattle.reg_inputs.specs.Loads.{texts_data};
ghost use Rattle.reg_inputs.specs.Judged.{needed, front_fault, array_fault, is_text, text_of, registers_fault};
ghost use Rattle.reg_inputs.specs.Judged.{is_script as is_script_data, is_short as is_short_data};
ghost use Rattle.reg_inputs.specs.Judged.{are_few as are_few_data, front_at, registers_at, scripts_at};

use crate::faults::WorkloadFault;
use crate::keys::{Key, is_key};
use reg_base::Names;
use reg_base::limits::{MOST_OPERATIONS, MOST_PROCESSES};
use reg_front::Front;
use std::alloc::{AllocError, Allocator};
use toml::{Table, Value};

/// Whether all keys of a table are keys of a workload.
pub(crate) fn has_known_keys(table: &Table) -> bool
    ensures { result ≡ all_known (table_view table.now) }
{
    table.keys().all(|name| is_key(name.as_str()))
}

/// The value at a key.
pub(crate) fn value_at(table: &Table, key: Key) -> Option<&Value>
    ensures { option_map (λ v. view v.now) result ≡ get_member (key_name key) (table_view table.now) }
{
    table.get(key.name())
}

/// The front end that a value names.
fn front_of(value: &Value) -> Result<Front, WorkloadFault>
    ensures fault { MatchResult result
        (λ f. (view value.now ≡ string (front_name f)) × (front_fault (view value.now) ≡ None))
        (λ e. front_fault (view value.now) ≡ Some e) }
    ensures whole { (f : Front) → view value.now ≡ string (front_name f) → result ≡ Ok f }
{
    let Some(name) = value.as_str() else {
        return Err(WorkloadFault::Kind { key: Key::Front });
    };
    match Front::from_name(name) {
        Some(front) => Ok(front),
        None => Err(WorkloadFault::Range { key: Key::Front }),
    }
}

/// The front end of a table.
pub(crate) fn read_front(table: &Table) -> Result<Front, WorkloadFault>
    ensures fault { MatchResult result
        (λ f. (get_member (key_name key.Front) (table_view table.now) ≡ Some (string (front_name f)))
        × (front_at (table_view table.now) ≡ None))
        (λ e. front_at (table_view table.now) ≡ Some e) }
    ensures whole { (f : Front) → get_member (key_name key.Front) (table_view table.now) ≡ Some (string (front_name f))
        → result ≡ Ok f }
{
    match value_at(table, Key::Front) {
        Some(value) => front_of(value),
        None => Err(WorkloadFault::Missing { key: Key::Front }),
    }
}

/// The values of an array, which each workload has.
fn array_at(table: &Table, key: Key) -> Result<&[Value], WorkloadFault>
    ensures { MatchResult result
        (λ a. get_member (key_name key) (table_view table.now) ≡ Some (array (items_of (map view a.now))))
        (λ e. (fault : List Data → Option WorkloadFault)
        → needed key (array_fault key fault) (get_member (key_name key) (table_view table.now)) ≡ Some e) }
{
    let Some(value) = value_at(table, key) else {
        return Err(WorkloadFault::Missing { key });
    };
    match value.as_array() {
        Some(items) => Ok(items.as_slice()),
        None => Err(WorkloadFault::Kind { key }),
    }
}

/// Whether all values are texts.
fn are_strings(values: &[Value]) -> bool
    ensures { result ≡ list_all (λ v. is_text (view v)) values.now }
{
    values.iter().all(|v| v.is_str())
}

/// The text that a value is, and nothing where it is none.
fn text_in(value: &Value) -> &str
    ensures { result.now ≡ text_of (view value.now) }
{
    match value.as_str() {
        Some(text) => text,
        None => "",
    }
}

/// The texts that the values are.
fn copied<A: Allocator + Copy>(alloc: A, values: &[Value]) -> Result<Vec<String<A>, A>, AllocError>
    ensures { IfOk result (λ v. texts v.items ≡ map (λ x. text_of (view x)) values.now) }
{
    let mut copies = Vec::new(alloc);
    for value in values {
        let copy = String::from_str(alloc, text_in(value))?;
        copies.push(copy)?;
    }
    Ok(copies)
}

/// The names that an array holds.
fn names_of<A: Allocator + Copy>(alloc: A, values: &[Value]) -> Result<Names<A>, WorkloadFault>
    ensures { MatchResult result
        (λ n. (map view values.now ≡ map string n) × (names_fault n ≡ None)
        × (registers_fault (map view values.now) ≡ None))
        (λ e. (e ≡ OutOfMemory) ⊎ (registers_fault (map view values.now) ≡ Some e)) }
{
    let key = Key::Registers;
    if !are_strings(values) {
        return Err(WorkloadFault::Kind { key });
    }
    let Ok(copies) = copied(alloc, values) else {
        return Err(WorkloadFault::OutOfMemory);
    };
    match Names::new(copies) {
        Ok(names) => Ok(names),
        Err(_) => Err(WorkloadFault::Range { key }),
    }
}

/// The names of the registers of a table.
pub(crate) fn read_names<A: Allocator + Copy>(
    alloc: A,
    table: &Table,
) -> Result<Names<A>, WorkloadFault>
    ensures { MatchResult result
        (λ n. (get_member (key_name key.Registers) (table_view table.now) ≡ Some (texts_data n))
        × (names_fault n ≡ None) × (registers_at (table_view table.now) ≡ None))
        (λ e. (e ≡ OutOfMemory) ⊎ (registers_at (table_view table.now) ≡ Some e)) }
{
    let values = array_at(table, Key::Registers)?;
    let names = names_of(alloc, values)?;
    Ok(names)
}

/// Whether a value is an array of texts.
fn is_script(value: &Value) -> bool
    ensures { result ≡ is_script_data (view value.now) }
{
    match value.as_array() {
        Some(lines) => are_strings(lines),
        None => false,
    }
}

/// Whether a value is an array of no more items than a process can call.
fn is_short(value: &Value) -> bool
    ensures { result ≡ is_short_data (view value.now) }
{
    match value.as_array() {
        Some(lines) => lines.len() <= MOST_OPERATIONS as usize,
        None => false,
    }
}

/// Whether all values are arrays of texts.
fn are_scripts(values: &[Value]) -> bool
    ensures { result ≡ list_all (λ v. is_script_data (view v)) values.now }
{
    values.iter().all(|v| is_script(v))
}

/// Whether no array is too long.
fn are_short(values: &[Value]) -> bool
    ensures { result ≡ list_all (λ v. is_short_data (view v)) values.now }
{
    values.iter().all(|v| is_short(v))
}

/// Whether there can be as many processes as there are values.
fn is_count(values: &[Value]) -> bool
    ensures value { result ≡ (nat_lt 0 (length values.now) && nat_le (length values.now) MOST_PROCESSES) }
    ensures some { IsTrue result → 0 < length values.now }
    ensures few { IsTrue result → length values.now ≤ MOST_PROCESSES }
{
    !values.is_empty() && values.len() <= MOST_PROCESSES as usize
}

/// Whether there is a script, there are not too many, and none is too long.
fn are_few(values: &[Value]) -> bool
    ensures value { result ≡ are_few_data (map view values.now) }
    ensures some { IsTrue result → 0 < length values.now }
    ensures few { IsTrue result → length values.now ≤ MOST_PROCESSES }
    ensures short { IsTrue result → list_all (λ v. is_short_data (view v)) values.now ≡ true }
{
    if is_count(values) {
        are_short(values)
    } else {
        false
    }
}

/// The scripts of a table, each an array of texts that is not too long.
pub(crate) fn read_scripts(table: &Table) -> Result<&[Value], WorkloadFault>
    ensures fault { MatchResult result
        (λ a. (get_member (key_name key.Scripts) (table_view table.now) ≡ Some (array (items_of (map view a.now))))
        × (scripts_at (table_view table.now) ≡ None))
        (λ e. scripts_at (table_view table.now) ≡ Some e) }
    ensures some { IfOk result (λ a. 0 < length a.now) }
    ensures few { IfOk result (λ a. length a.now ≤ MOST_PROCESSES) }
    ensures kind { IfOk result (λ a. list_all (λ v. is_script_data (view v)) a.now ≡ true) }
    ensures short { IfOk result (λ a. list_all (λ v. is_short_data (view v)) a.now ≡ true) }
{
    let key = Key::Scripts;
    let scripts = array_at(table, key)?;
    if !are_scripts(scripts) {
        return Err(WorkloadFault::Kind { key });
    }
    if !are_few(scripts) {
        return Err(WorkloadFault::Range { key });
    }
    Ok(scripts)
}
