//! The steps of a record, process by process.
ghost use Rattle.std.specs.Prelude.{◌≡◌, ◌<◌, [], IfOk, OnOk, vec_len};
ghost use Rattle.reg_base.specs.Lists.{lists};
ghost use Rattle.reg_verify.specs.Logs.{AreLogs, order_of as order_of_steps};
ghost use Rattle.reg_verify.specs.Adding.{IsAdded};

use reg_node::Recorded;
use reg_records::LogEntry;
use std::alloc::{AllocError, Allocator};

/// The processes of the steps, in order.
fn order_of<A: Allocator + Copy>(alloc: A, steps: &[Recorded]) -> Result<Vec<u8, A>, AllocError>
    ensures { IfOk result (λ v. v.items ≡ order_of_steps steps.now) }
{
    let mut order = Vec::new(alloc);
    for step in steps {
        order.push(step.process)?;
    }
    Ok(order)
}

/// An empty log for each process.
fn no_logs<A: Allocator + Copy>(
    alloc: A,
    processes: u32,
) -> Result<Vec<Vec<LogEntry, A>, A>, AllocError>
    ensures { IfOk result (λ v. AreLogs processes [] (lists v.items)) }
{
    let mut logs = Vec::new(alloc);
    for _process in 0..processes {
        logs.push(Vec::new(alloc))?;
    }
    Ok(logs)
}

/// Adds an entry to the log of a process.
fn add<A: Allocator + Copy>(
    logs: &mut Vec<Vec<LogEntry, A>, A>,
    process: u8,
    entry: LogEntry,
) -> Result<(), AllocError>
    requires { process < vec_len logs.old }
    ensures added { OnOk result (IsAdded (lists logs.old.items) (lists logs.new.items) process entry) }
    ensures len { vec_len logs.new ≡ vec_len logs.old }
{
    logs[usize::from(process)].push(entry)?;
    Ok(())
}

/// The log of each process. The steps of further processes are in none.
pub(crate) fn logs_of<A: Allocator + Copy>(
    alloc: A,
    processes: u32,
    steps: &[Recorded],
) -> Result<Vec<Vec<LogEntry, A>, A>, AllocError>
    ensures { IfOk result (λ v. AreLogs processes steps.now (lists v.items)) }
{
    let mut logs = no_logs(alloc, processes)?;
    for step in steps {
        if usize::from(step.process) < logs.len() {
            add(&mut logs, step.process, step.entry)?;
        }
    }
    Ok(logs)
}

/// The processes of the steps, in order, and the log of each process.
pub(crate) fn part<A: Allocator + Copy>(
    alloc: A,
    processes: u32,
    steps: &[Recorded],
) -> Result<(Vec<u8, A>, Vec<Vec<LogEntry, A>, A>), AllocError>
    ensures order { IfOk result (λ p. p.0.items ≡ order_of_steps steps.now) }
    ensures logs { IfOk result (λ p. AreLogs processes steps.now (lists p.1.items)) }
{
    let order = order_of(alloc, steps)?;
    let logs = logs_of(alloc, processes, steps)?;
    Ok((order, logs))
}
