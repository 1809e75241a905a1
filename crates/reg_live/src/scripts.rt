//! The scripts of a cluster, each performed by a thread of its own.
ghost use Rattle.std.specs.Prelude.{◌≡◌, List, [], None, Ok, true, IfOk, OnOk, map, vec_len};
ghost use Rattle.reg_base.specs.Lists.{lists};
ghost use Rattle.reg_base.specs.declared.memory.Op.{Op};
ghost use Rattle.reg_live.specs.Passes.{IsLived, RespectTime, RespectUpdates, AreNew};
ghost use Rattle.reg_live.specs.Scripts.{IsPerformed, IsBack, AreStarted, ArePerformed, ops_of};

use crate::closing::Closed;
use crate::faults::LiveFault;
use crate::gates::NoGate;
use crate::passes::Pass;
use crate::roads::Honest;
use crate::running::{Running, StartFault, start};
use reg_base::{Op, Shape};
use reg_front::FrontEnd;
use reg_records::CloseFault;
use reg_world::{WireStore, Wires};
use std::alloc::{AllocError, Global};
use std::snapshot::Snapshot;
use std::sync::{Arc, Wait};
use std::thread;
use std::thread::{Promise, PromisedHandle, Threads};
use std::time::Clock;
use thiserror::Error;

/// Why there is no record of scripts.
#[derive(Clone, Copy, Debug, PartialEq, Eq, Error)]
pub enum RunStop {
    /// A pass was refused: of several, that of the lowest process.
    #[error("process {process}: {fault}")]
    Pass { process: u8, fault: LiveFault },
    /// What the stations wrote down was refused.
    #[error("close: {fault}")]
    Close { fault: CloseFault },
    /// There was no memory, or a thread couldn't be made.
    #[error("out of memory")]
    OutOfMemory,
}

impl From<AllocError> for RunStop {
    ghost use Rattle.reg_live.specs.declared.scripts.RunStop.TheVariants.{OutOfMemory};

    ghost from_gives = { λ _ stop. stop ≡ OutOfMemory };

    fn from(_error: AllocError) -> RunStop {
        Self::OutOfMemory
    }
}

impl From<StartFault> for RunStop {
    ghost use Rattle.reg_live.specs.declared.scripts.RunStop.TheVariants.{OutOfMemory};

    ghost from_gives = { λ _ stop. stop ≡ OutOfMemory };

    fn from(fault: StartFault) -> RunStop {
        match fault {
            StartFault::OutOfMemory => RunStop::OutOfMemory,
        }
    }
}

/// A pass that is back, and why its script ended early.
#[derive(Drop)]
struct Caller<F: FrontEnd> {
    pass: Pass<F, NoGate>,
    fault: Option<LiveFault>,
}

/// What the thread of a script promises: its pass is back, of the same process, and has performed the script up to the
/// first refusal.
#[derive(Drop)]
struct Performs {
    process: u8,
    script: Snapshot<Vec<Op>>,
}

impl<F: FrontEnd> Promise<Caller<F>> for Performs {
    ghost kept_by = { λ p c. IsPerformed p.process p.script.value.items c.pass c.fault };
}

/// Performs a script up to the first refusal.
fn perform_all<F: FrontEnd, R: Wait>(rt: &R, pass: Pass<F, NoGate>, script: &[Op]) -> Caller<F>
    requires { pass.receipts ≡ [] }
    ensures { IsPerformed pass.me script.now result.pass result.fault }
{
    let mut pass = pass;
    for op in script {
        if let Err(fault) = pass.perform(rt, *op) {
            return Caller {
                pass,
                fault: Some(fault),
            };
        }
    }
    Caller { pass, fault: None }
}

/// Starts the caller of a script.
fn call<F: FrontEnd + Send + Sync + 'static, R: Threads + Wait + Copy + Send + Sync + 'static>(
    rt: R,
    pass: Pass<F, NoGate>,
    script: Vec<Op>,
) -> Result<PromisedHandle<Caller<F>, Performs>, AllocError>
    requires { pass.receipts ≡ [] }
    ensures { IfOk result (λ h. (h.promise.process ≡ pass.me) × (h.promise.script.value ≡ script)) }
{
    let promise = Performs {
        process: pass.process(),
        script: Snapshot::of(&script),
    };
    let performed = move || -> Caller<F>
        requires { pass.receipts ≡ [] }
        ensures { IsPerformed pass.me script.items result.pass result.fault }
    { perform_all(&rt, pass, &script) };
    thread::spawn_with(&rt, promise, performed).map_err(|_| AllocError)
}

/// Starts the caller of each script, the k-th with the k-th pass.
fn start_callers<
    F: FrontEnd + Send + Sync + 'static,
    R: Threads + Wait + Copy + Send + Sync + 'static,
>(
    rt: R,
    handles: &mut Vec<PromisedHandle<Caller<F>, Performs>>,
    shape: Shape,
    passes: Vec<Pass<F, NoGate>>,
    scripts: Vec<Vec<Op>>,
) -> Result<(), AllocError>
    requires empty { handles.old.items ≡ [] }
    requires passes { AreNew shape passes.items }
    requires each { vec_len scripts ≡ shape.processes }
    ensures { OnOk result
        (AreStarted (lists scripts.items)
        (map (λ h. (h.promise.process, h.promise.script.value.items)) handles.new.items)) }
{
    let mut passes = passes.into_iter();
    for script in scripts {
        let Some(pass) = passes.next() else {
            unreachable!();
        };
        handles.push(call(rt, pass, script)?)?;
    }
    Ok(())
}

/// How a script ended.
fn script_end(process: u8, fault: Option<LiveFault>) -> Result<(), RunStop>
    ensures { OnOk result (fault ≡ None) }
{
    match fault {
        Some(fault) => Err(RunStop::Pass { process, fault }),
        None => Ok(()),
    }
}

/// Waits until a caller is done, and puts its pass after those of earlier ones. What was told of earlier ones comes
/// first, then its own refusal.
fn join_caller<F: FrontEnd, R: Threads + Wait>(
    rt: &R,
    passes: &mut Vec<Pass<F, NoGate>>,
    told: Result<(), RunStop>,
    process: u8,
    caller: PromisedHandle<Caller<F>, Performs>,
) -> Result<(), RunStop>
    ensures { OnOk result
        ((told ≡ Ok tt)
        × IsBack passes.old.items caller.promise.process caller.promise.script.value.items passes.new.items) }
{
    let Caller { pass, fault } = caller.join(rt);
    let pushed = passes.push(pass);
    told?;
    script_end(process, fault)?;
    if pushed.is_err() {
        return Err(RunStop::OutOfMemory);
    }
    Ok(())
}

/// Waits until the callers are done. Their passes, or the refusal of the lowest process that was refused.
fn join_callers<F: FrontEnd, R: Threads + Wait>(
    rt: &R,
    alloc: Global,
    callers: Vec<PromisedHandle<Caller<F>, Performs>>,
) -> Result<Vec<Pass<F, NoGate>>, RunStop>
    ensures { IfOk result
        (λ passes. (scripts : List (List Op))
        → AreStarted scripts (map (λ h. (h.promise.process, h.promise.script.value.items)) callers.items)
        → ArePerformed scripts passes.items) }
{
    let mut passes = Vec::new(alloc);
    let mut told = Ok(());
    let mut process = 0u8;
    for caller in callers {
        told = join_caller(rt, &mut passes, told, process, caller);
        process = process.wrapping_add(1);
    }
    match told {
        Ok(()) => Ok(passes),
        Err(stop) => Err(stop),
    }
}

/// Closes a cluster whose callers have ended, and whose passes have performed these scripts.
fn close_ended<F: FrontEnd, R: Threads + Wait, W: WireStore<Global>>(
    rt: &R,
    alloc: Global,
    running: Running<F, NoGate>,
    passes: Vec<Pass<F, NoGate>>,
) -> Result<Closed<F, W>, RunStop>
    ensures lived { IfOk result (λ c. IsLived F.start running (lists c.receipts.items) c.world) }
    ensures time { IfOk result (λ c. RespectTime c.world.registers c.world.history (lists c.receipts.items)) }
    ensures updates { IfOk result (λ c. RespectUpdates F.start c.world.history (lists c.receipts.items)) }
    ensures performed { IfOk result
        (λ c. (scripts : List (List Op)) → ArePerformed scripts passes.items
        → map ops_of (lists c.receipts.items) ≡ scripts) }
{
    match running.close_in(rt, alloc, passes) {
        Ok(closed) => Ok(closed),
        Err(CloseFault::OutOfMemory) => Err(RunStop::OutOfMemory),
        Err(fault) => Err(RunStop::Close { fault }),
    }
}

/// Ends the threads of a cluster of which nothing is told but why it stopped.
fn give_up<F: FrontEnd, R: Threads + Wait>(
    rt: &R,
    alloc: Global,
    running: Running<F, NoGate>,
    stop: RunStop,
) -> RunStop {
    drop(running.close(rt, alloc, Vec::new(alloc)));
    stop
}

/// Waits for all threads, and closes the cluster.
fn end<F: FrontEnd, R: Threads + Wait, W: WireStore<Global>>(
    rt: &R,
    alloc: Global,
    running: Running<F, NoGate>,
    callers: Vec<PromisedHandle<Caller<F>, Performs>>,
    all: bool,
) -> Result<Closed<F, W>, RunStop>
    ensures all { OnOk result (all ≡ true) }
    ensures lived { IfOk result (λ c. IsLived F.start running (lists c.receipts.items) c.world) }
    ensures time { IfOk result (λ c. RespectTime c.world.registers c.world.history (lists c.receipts.items)) }
    ensures updates { IfOk result (λ c. RespectUpdates F.start c.world.history (lists c.receipts.items)) }
    ensures performed { IfOk result
        (λ c. (scripts : List (List Op))
        → AreStarted scripts (map (λ h. (h.promise.process, h.promise.script.value.items)) callers.items)
        → map ops_of (lists c.receipts.items) ≡ scripts) }
{
    let told = join_callers(rt, alloc, callers);
    if !all {
        return Err(give_up(rt, alloc, running, RunStop::OutOfMemory));
    }
    match told {
        Ok(passes) => close_ended(rt, alloc, running, passes),
        Err(stop) => Err(give_up(rt, alloc, running, stop)),
    }
}

/// Performs each script in a thread of its own, over a cluster with an honest road, and closes the cluster: the k-th
/// script by the pass of process k, all of it. A script ends at its first refusal, and the others run on.
///
/// # Errors
///
/// `Pass` where a pass was refused, `Close` where the record was, and `OutOfMemory` where memory or a thread was. The
/// threads that were made are joined before. No clause says which of these comes.
pub fn run_scripts<
    F: FrontEnd + Send + Sync + 'static,
    R: Threads + Wait + Clock + Copy + Send + Sync + 'static,
>(rt: R, alloc: Global, shape: Shape, scripts: Vec<Vec<Op>>) -> Result<Closed<F>, RunStop>
    requires { vec_len scripts ≡ shape.processes }
    ensures lived { IfOk result (λ c. IsLived F.start shape (lists c.receipts.items) c.world) }
    ensures time { IfOk result (λ c. RespectTime c.world.registers c.world.history (lists c.receipts.items)) }
    ensures updates { IfOk result (λ c. RespectUpdates F.start c.world.history (lists c.receipts.items)) }
    ensures performed { IfOk result (λ c. map ops_of (lists c.receipts.items) ≡ lists scripts.items) }
{
    run_scripts_in::<F, R, Wires<Global>>(rt, alloc, shape, scripts)
}

/// `run_scripts`, with the run in a world that keeps its wires in a store of the caller's choice.
///
/// # Errors
///
/// Those of `run_scripts`.
pub fn run_scripts_in<
    F: FrontEnd + Send + Sync + 'static,
    R: Threads + Wait + Clock + Copy + Send + Sync + 'static,
    W: WireStore<Global>,
>(rt: R, alloc: Global, shape: Shape, scripts: Vec<Vec<Op>>) -> Result<Closed<F, W>, RunStop>
    requires { vec_len scripts ≡ shape.processes }
    ensures lived { IfOk result (λ c. IsLived F.start shape (lists c.receipts.items) c.world) }
    ensures time { IfOk result (λ c. RespectTime c.world.registers c.world.history (lists c.receipts.items)) }
    ensures updates { IfOk result (λ c. RespectUpdates F.start c.world.history (lists c.receipts.items)) }
    ensures performed { IfOk result (λ c. map ops_of (lists c.receipts.items) ≡ lists scripts.items) }
{
    let mut callers = Vec::new(alloc);
    callers.reserve(scripts.len())?;
    let road = Arc::new(alloc, Honest).map_err(|_| RunStop::OutOfMemory)?;
    let (running, passes) = start::<F, _, _, _>(rt, alloc, shape, NoGate, road)?;
    let all = start_callers(rt, &mut callers, shape, passes, scripts).is_ok();
    end(&rt, alloc, running, callers, all)
}
