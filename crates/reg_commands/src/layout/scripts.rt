//! The operations of a workload.
ghost use Rattle.std.specs.Prelude.{◌≡◌, ◌≤◌, None, IfOk, length};
ghost use Rattle.reg_base.specs.Lists.{lists};
ghost use Rattle.reg_base.specs.Names.{names_fault};
ghost use Rattle.reg_base.specs.declared.limits.TheConstants.{MOST_PROCESSES};
ghost use Rattle.reg_text.specs.Lines.{AllFit};
ghost use Rattle.reg_inputs.specs.Loads.{IsScript};

use crate::layout::bytes::{behind, behind_item, first, skip_blank, text_at};
use reg_base::limits::{MOST_OPERATIONS, MOST_PROCESSES};
use reg_base::{Names, Op};
use reg_inputs::{Key, WorkloadFault};
use reg_text::read_op;
use std::alloc::Allocator;

/// The script at the start, and what stands after it.
fn script_at<'a, A: Allocator + Copy>(
    alloc: A,
    process: u8,
    bytes: &'a [u8],
    names: &Names<A>,
) -> Result<(Vec<Op, A>, &'a [u8]), WorkloadFault>
    requires { names_fault names.now ≡ None }
    ensures { IfOk result (λ p. IsScript names.now p.0.items) }
{
    let key = Key::Scripts;
    if first(bytes) != b'[' {
        return Err(WorkloadFault::Kind { key });
    }
    let mut rest = skip_blank(behind(bytes));
    let mut ops = Vec::new(alloc);
    for place in 0..MOST_OPERATIONS {
        if first(rest) == b']' {
            return Ok((ops, behind(rest)));
        }
        let Some((text, after)) = text_at(rest) else {
            return Err(WorkloadFault::Kind { key });
        };
        let Some(op) = read_op(text, names) else {
            return Err(WorkloadFault::Script { process, place });
        };
        if ops.push(op).is_err() {
            return Err(WorkloadFault::OutOfMemory);
        }
        match behind_item(after) {
            Some(more) => rest = more,
            None => return Err(WorkloadFault::Toml),
        }
    }
    if first(rest) == b']' {
        Ok((ops, behind(rest)))
    } else {
        Err(WorkloadFault::Range { key })
    }
}

/// The scripts of all processes.
pub(crate) fn scripts_at<A: Allocator + Copy>(
    alloc: A,
    bytes: &[u8],
    names: &Names<A>,
) -> Result<Vec<Vec<Op, A>, A>, WorkloadFault>
    requires { names_fault names.now ≡ None }
    ensures known { IfOk result (λ v. AllFit (λ _ ops. IsScript names.now ops) (lists v.items)) }
    ensures few { IfOk result (λ v. length v.items ≤ MOST_PROCESSES) }
{
    let key = Key::Scripts;
    if first(bytes) != b'[' {
        return Err(WorkloadFault::Kind { key });
    }
    let mut rest = skip_blank(behind(bytes));
    let mut all = Vec::new(alloc);
    for process in 0..MOST_PROCESSES as u8 {
        if first(rest) == b']' {
            return Ok(all);
        }
        let (script, after) = script_at(alloc, process, rest, names)?;
        if all.push(script).is_err() {
            return Err(WorkloadFault::OutOfMemory);
        }
        match behind_item(after) {
            Some(more) => rest = more,
            None => return Err(WorkloadFault::Toml),
        }
    }
    if first(rest) == b']' {
        Ok(all)
    } else {
        Err(WorkloadFault::Range { key })
    }
}
