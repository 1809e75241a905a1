//! The commands that run a schedule under the front end of a table, whatever its own front line says.
ghost use Rattle.std.specs.Prelude.{◌≡◌, ◌≢◌, None, IfErr, IfOk};
ghost use Rattle.reg_commands.specs.Replays.{BlamesRun, Shows, plan_in};
ghost use Rattle.reg_inputs.specs.Schedules.{IsPlan, Spells};
ghost use Rattle.reg_web.specs.Under.{BlamesUnread, fault_of_reading};

use crate::tables::{Table, Task};
use reg_base::Names;
use reg_commands::{Fault, Ran, TextCommand, read_schedule, run_events, write_out};
use reg_front::{Front, FrontEnd};
use reg_history::Report;
use reg_inputs::Schedule;
use reg_show::{ShowFault, send_data, told_under};
use reg_trace::{Data, Notes, read_notes};
use reg_world::{Wires, World};
use std::alloc::Allocator;
use std::io::Write;

/// A fault of the reader of schedules. That it is none of an event the reader doesn't promise: such a one would be told
/// as want of memory.
fn read_fault(fault: Fault) -> Fault
    ensures { result ≡ fault_of_reading fault }
{
    match fault {
        Fault::Event { .. } => Fault::OutOfMemory,
        fault => fault,
    }
}

/// The schedule that a text spells.
fn schedule_of<A: Allocator + Copy>(alloc: A, text: &str) -> Result<Schedule<A>, Fault>
    ensures read { IfOk result (λ s. Spells text.now s × IsPlan s) }
    ensures why { IfErr result (λ f. BlamesUnread f text.now) }
    ensures kind { IfErr result (λ f. f ≢ Fault.Output) }
{
    match read_schedule(alloc, text) {
        Ok(schedule) => Ok(schedule),
        Err(fault) => Err(read_fault(fault)),
    }
}

/// The report of what a world did, under this front end's name and these names, without points. That its parts are a
/// report isn't proved here: else it would be told as want of memory.
fn report_world<F: FrontEnd, A: Allocator + Copy>(
    alloc: A,
    front: Front,
    names: Names<A>,
    world: World<F, A>,
) -> Result<Report<A>, Fault>
    ensures shows { IfOk result (λ r. Shows F.start (plan_in front names world) r) }
    ensures points { IfOk result (λ r. r.points ≡ None) }
    ensures why { IfErr result (λ f. f ≡ Fault.OutOfMemory) }
{
    let (_, order) = world.serial_order()?;
    let front = String::from_str(alloc, front.name())?;
    match Report::new(front, names, world.into_history(), order, None) {
        Ok(report) => Ok(report),
        Err(_) => Err(Fault::OutOfMemory),
    }
}

/// The report of a schedule's run under a front end that need not be the one that it names, without points.
fn report_under<F: FrontEnd, A: Allocator + Copy>(
    alloc: A,
    schedule: Schedule<A>,
) -> Result<Report<A>, Fault>
    ensures shows { IfOk result (λ r. Shows F.start schedule r) }
    ensures points { IfOk result (λ r. r.points ≡ None) }
    ensures why { IfErr result (λ f. BlamesRun F.start schedule f) }
{
    let Ran {
        world,
        names,
        front,
    } = run_events::<F, A, Wires<A>>(alloc, schedule)?;
    report_world(alloc, front, names, world)
}

/// A schedule of which all is to be told, with these notes.
#[derive(Drop)]
struct ToTell<A: Allocator + Copy> {
    alloc: A,
    schedule: Schedule<A>,
    notes: Notes<A>,
}

impl<A: Allocator + Copy> Task for ToTell<A> {
    ghost use Rattle.reg_web.specs.Under.{IsDataUnder};

    type Told = Result<Data<A>, ShowFault>;

    ghost Comes = { λ it start told. IsDataUnder start it.schedule it.notes told };

    fn run<F: FrontEnd>(self) -> Result<Data<A>, ShowFault> {
        told_under::<F, A>(self.alloc, self.schedule, self.notes)
    }
}

/// A schedule of whose run a report is to be made.
#[derive(Drop)]
struct ToReport<A: Allocator + Copy> {
    alloc: A,
    schedule: Schedule<A>,
}

impl<A: Allocator + Copy> Task for ToReport<A> {
    ghost use Rattle.reg_web.specs.Under.{IsReportUnder};

    type Told = Result<Report<A>, Fault>;

    ghost Comes = { λ it start told. IsReportUnder start it.schedule told };

    fn run<F: FrontEnd>(self) -> Result<Report<A>, Fault> {
        report_under::<F, A>(self.alloc, self.schedule)
    }
}

/// Tells as data the run of a schedule under the front end of a table.
#[derive(Clone, Copy)]
pub(crate) struct DataUnder {
    pub table: Table,
}

impl TextCommand for DataUnder {
    ghost use Rattle.std.specs.Prelude.{refl};
    ghost use Rattle.std.proofs.Common.{inl};
    ghost use Rattle.reg_show.specs.Pages.{StopsTold};
    ghost use Rattle.reg_show.specs.declared.faults.ShowFault.TheVariants.{Command};
    ghost use Rattle.reg_web.specs.Tables.{start_in};
    ghost use Rattle.reg_web.specs.Under.{BlamesUnder, TellsUnder, unread};

    type Fault = ShowFault;

    ghost IsAnswer = { λ it _. TellsUnder (start_in it.table) };

    ghost IsBlamed = { λ it. BlamesUnder Command (StopsTold (start_in it.table)) };

    fn answer<A: Allocator + Copy, W: Write>(
        self,
        alloc: A,
        text: String<A>,
        writer: &mut W,
    ) -> Result<bool, ShowFault> {
        let schedule = schedule_of(alloc, text.as_str())?;
        let notes = read_notes(alloc, text.as_str())?;
        let task = ToTell {
            alloc,
            schedule,
            notes,
        };
        let told = self.table.run(task)?;
        send_data(writer, "", &told, "\n")?;
        Ok(true)
    }

    ghost blames_input = { λ _ fault text other blamed. inl (fault, refl, unread fault text other blamed) };
}

/// Runs a schedule under the front end of a table, and writes the report of its run.
#[derive(Clone, Copy)]
pub(crate) struct ReplayUnder {
    pub table: Table,
}

impl TextCommand for ReplayUnder {
    ghost use Rattle.std.specs.Prelude.{refl};
    ghost use Rattle.std.proofs.Common.{inl};
    ghost use Rattle.reg_show.specs.Runs.{StopsRun};
    ghost use Rattle.reg_web.specs.Tables.{start_in};
    ghost use Rattle.reg_web.specs.Texts.{itself};
    ghost use Rattle.reg_web.specs.Under.{BlamesUnder, ReplaysUnder, unread};

    type Fault = Fault;

    ghost IsAnswer = { λ it _. ReplaysUnder (start_in it.table) };

    ghost IsBlamed = { λ it. BlamesUnder itself (StopsRun (start_in it.table)) };

    fn answer<A: Allocator + Copy, W: Write>(
        self,
        alloc: A,
        text: String<A>,
        writer: &mut W,
    ) -> Result<bool, Fault> {
        let schedule = schedule_of(alloc, text.as_str())?;
        let report = self.table.run(ToReport { alloc, schedule })?;
        write_out(writer, &report)?;
        Ok(true)
    }

    ghost blames_input = { λ _ fault text other blamed. inl (fault, refl, unread fault text other blamed) };
}
