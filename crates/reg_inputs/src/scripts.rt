//! The operations of a workload.
ghost use Rattle.std.specs.Prelude.{◌≡◌, ◌⊎◌, ◌≤◌, ℕ, List, None, Some, true, IfOk, IfErr, IfSome, map, length};
ghost use Rattle.std.specs.List.{list_all};
ghost use Rattle.reg_base.specs.Lists.{lists};
ghost use Rattle.toml.specs.Data.{string, array};
ghost use Rattle.toml.specs.View.{view, items_of};
ghost use Rattle.reg_base.specs.Names.{names_fault};
ghost use Rattle.reg_base.specs.declared.limits.TheConstants.{MOST_PROCESSES, MOST_OPERATIONS};
ghost use Rattle.reg_base.specs.declared.memory.Op.{Op};
ghost use Rattle.reg_text.specs.Lines.{AllFit};
ghost use Rattle.reg_text.specs.Ops.{op_text, OpFits};
ghost use Rattle.reg_inputs.specs.declared.faults.WorkloadFault.TheVariants.{OutOfMemory, Script};
ghost use Rattle.reg_inputs.specs.Loads.{IsScript, op_data, script_data};
ghost use Rattle.reg_inputs.specs.Judged.{is_script, is_short, IsFirstWrong, IsFirstRefused};

use crate::faults::WorkloadFault;
use reg_base::{Names, Op};
use reg_text::read_op;
use std::alloc::Allocator;
use toml::Value;

/// The operation that a value spells, on a register of these names.
fn op_of<A: Allocator + Copy>(value: &Value, names: &Names<A>) -> Option<Op>
    requires { names_fault names.now ≡ None }
    ensures read { IfSome result (λ op. (view value.now ≡ string (op_text names.now op)) × OpFits names.now op) }
    ensures whole { (op : Op) → OpFits names.now op → view value.now ≡ string (op_text names.now op)
        → result ≡ Some op }
{
    match value.as_str() {
        Some(text) => read_op(text.as_bytes(), names),
        None => None,
    }
}

/// The operations of the script of a process, or the first place that has none.
fn script_of<A: Allocator + Copy>(
    alloc: A,
    process: u8,
    lines: &[Value],
    names: &Names<A>,
) -> Result<Vec<Op, A>, WorkloadFault>
    requires names { names_fault names.now ≡ None }
    requires short { length lines.now ≤ MOST_OPERATIONS }
    ensures read { IfOk result
        (λ v. (map view lines.now ≡ map (op_data names.now) v.items) × IsScript names.now v.items) }
    ensures only { IfOk result
        (λ v. (ops : List Op) → IsScript names.now ops → map view lines.now ≡ map (op_data names.now) ops
        → v.items ≡ ops) }
    ensures refused { IfErr result
        (λ e. (e ≡ OutOfMemory)
        ⊎ ((place : ℕ) × (e ≡ Script process place) × IsFirstWrong names.now (map view lines.now) place)) }
{
    let mut ops = Vec::new(alloc);
    let mut place = 0u32;
    for value in lines {
        let Some(op) = op_of(value, names) else {
            return Err(WorkloadFault::Script { process, place });
        };
        if ops.push(op).is_err() {
            return Err(WorkloadFault::OutOfMemory);
        }
        place += 1;
    }
    Ok(ops)
}

/// The texts of a script.
fn lines_of(value: &Value) -> &[Value]
    requires kind { is_script (view value.now) ≡ true }
    requires short { is_short (view value.now) ≡ true }
    ensures value { view value.now ≡ array (items_of (map view result.now)) }
    ensures few { length result.now ≤ MOST_OPERATIONS }
{
    match value.as_array() {
        Some(lines) => lines.as_slice(),
        None => unreachable!(),
    }
}

/// The operations of all scripts, or the first process and the first place there that has none.
pub(crate) fn scripts_of<A: Allocator + Copy>(
    alloc: A,
    scripts: &[Value],
    names: &Names<A>,
) -> Result<Vec<Vec<Op, A>, A>, WorkloadFault>
    requires names { names_fault names.now ≡ None }
    requires few { length scripts.now ≤ MOST_PROCESSES }
    requires kind { list_all (λ v. is_script (view v)) scripts.now ≡ true }
    requires short { list_all (λ v. is_short (view v)) scripts.now ≡ true }
    ensures read { IfOk result
        (λ v. (map view scripts.now ≡ map (script_data names.now) (lists v.items))
        × AllFit (λ _ ops. IsScript names.now ops) (lists v.items)) }
    ensures only { IfOk result
        (λ v. (all : List (List Op)) → AllFit (λ _ ops. IsScript names.now ops) all
        → map view scripts.now ≡ map (script_data names.now) all → lists v.items ≡ all) }
    ensures refused { IfErr result
        (λ e. (e ≡ OutOfMemory)
        ⊎ ((process : ℕ) × (place : ℕ) × (e ≡ Script process place)
        × IsFirstRefused names.now (map view scripts.now) process place)) }
{
    let mut all = Vec::new(alloc);
    let mut process = 0u8;
    for value in scripts {
        let script = script_of(alloc, process, lines_of(value), names)?;
        if all.push(script).is_err() {
            return Err(WorkloadFault::OutOfMemory);
        }
        process += 1;
    }
    Ok(all)
}
