//! Each growth of the parts refused in turn: the answer is out of memory, or the one with ample memory.
use crate::answers::{shown, unless_memory};
use crate::demands::demand_refusals;
use crate::macros::{cast, id, point};
use crate::parts::processes::tables_of;
use crate::parts::reports::is_written_as;
use crate::parts::traces::{Row, all_of, push_made, step_of};
use crate::report_texts::{NO_POINTS, NO_POINTS_NOW, ONE_PROCESS, ONE_PROCESS_NOW};
use crate::values::WRITE_FIVE;
use reg_base::{OpId, Shape};
use reg_frames::{Body, Frame};
use reg_front::{Front, FrontEnd, Linear, LocalRead, LocalWrite};
use reg_heap::{Trial, refusals};
use reg_history::{CheckFault, Point, ReadFault, Report, check_points, check_serial, read_report};
use reg_process::{Process, ProcessFault, Put, Step};
use std::alloc::{AllocError, Allocator, Global};
use std::test::Fail;

/// Whether a process has stopped, so that each of these steps fails.
fn has_stopped<F: FrontEnd, A: Allocator + Copy>(
    process: &mut Process<F, A>,
    rows: &[Row],
) -> bool {
    for (_, step, _) in rows {
        if step_of(process, step).err() != Some(ProcessFault::Failed) {
            return false;
        }
    }
    true
}

/// Adds what a process gives at a step. Tells whether there is memory for the step.
fn push_step<F: FrontEnd, A: Allocator + Copy>(
    text: &mut String,
    process: &mut Process<F, A>,
    step: &Step,
) -> Result<bool, AllocError> {
    let made = step_of(process, step);
    push_made(text, process, &made)?;
    Ok(!matches!(made, Err(ProcessFault::OutOfMemory)))
}

/// What processes give at each of their steps. None where memory is refused at one, and its process has stopped.
fn all_told<F: FrontEnd, A: Allocator + Copy>(
    ample: Global,
    all: &mut [Process<F, A>],
    rows: &[Row],
) -> Result<Option<String>, Fail> {
    let mut text = String::new(ample);
    for (at, step, _) in rows {
        let process = all.get_mut(*at as usize).ok_or(ProcessFault::NoProcess)?;
        if !push_step(&mut text, process, step)? {
            return unless_memory(ProcessFault::OutOfMemory, has_stopped(process, rows));
        }
    }
    Ok(Some(text))
}

/// What the new processes of a shape give at each of their steps.
fn steps_told<F: FrontEnd, A: Allocator + Copy>(
    alloc: A,
    ample: Global,
    shape: Shape,
    rows: &[Row],
) -> Result<Option<String>, Fail> {
    match all_of::<F, A>(alloc, ample, shape) {
        Ok(mut all) => all_told(ample, all.as_mut_slice(), rows),
        Err(fault) => unless_memory(fault, fault == ProcessFault::OutOfMemory),
    }
}

/// Steps of processes with a front end, as each is answered.
#[derive(Clone, Copy)]
struct Steps {
    front: Front,
    processes: u32,
    rows: &'static [Row],
}

impl Trial for Steps {
    fn answer<A: Allocator + Copy>(&self, alloc: A, ample: Global) -> Result<Option<String>, Fail> {
        let shape = Shape::new(self.processes, 1)?;
        match self.front {
            Front::Linear => steps_told::<Linear, A>(alloc, ample, shape, self.rows),
            Front::LocalRead => steps_told::<LocalRead, A>(alloc, ample, shape, self.rows),
            Front::LocalWrite => steps_told::<LocalWrite, A>(alloc, ample, shape, self.rows),
        }
    }
}

const CAST: Frame = cast!(0, 1, WRITE_FIVE);

/// A cast that is taken once, and then again a number of times, with the list of each answer given back.
#[derive(Clone, Copy)]
struct Again {
    times: u32,
}

/// The last of its answers.
fn taken_again<A: Allocator + Copy>(
    process: &mut Process<LocalWrite, A>,
    times: u32,
) -> Result<Vec<Put, A>, ProcessFault> {
    let mut answer = process.take(1, &CAST)?;
    for _time in 0..times {
        process.reuse(answer.frames);
        answer = process.take(1, &CAST)?;
    }
    Ok(answer.frames)
}

/// The same of a new process.
fn taken_again_by_new<A: Allocator + Copy>(
    alloc: A,
    shape: Shape,
    times: u32,
) -> Result<Vec<Put, A>, ProcessFault> {
    let mut process = Process::new(alloc, shape, 0)?;
    taken_again(&mut process, times)
}

impl Trial for Again {
    fn answer<A: Allocator + Copy>(&self, alloc: A, ample: Global) -> Result<Option<String>, Fail> {
        match taken_again_by_new(alloc, Shape::new(2, 1)?, self.times) {
            Ok(frames) => shown(ample, &frames.as_slice()),
            Err(fault) => unless_memory(fault, fault == ProcessFault::OutOfMemory),
        }
    }
}

/// A frame out of turn is answered in the list that was given back, so that no more growths can be refused.
#[test]
fn a_frame_out_of_turn_uses_the_list_given_back(rt: HostRuntime) -> Result<(), Fail> {
    let once = refusals(&Again { times: 0 }, rt.alloc())?;
    let often = refusals(&Again { times: 5 }, rt.alloc())?;
    assert!(rt; once == often, "{once} {often}");
    Ok(())
}

/// Points in the real-time order of a stale read.
const STALE: [Point; 2] = [point!(0, 4), point!(1, 5)];

/// A report of several names, each on a line of its own.
const NAMES_NOW: &str =
    "awreg report 2\nfront local-read\nprocesses 2\nregisters 3\nx\nabc\nzz\nhistory 2\n       0  p0    #0       call    write zz 5\n       1  p1    #0       call    read abc\norder 1\np0 #0\nend\n";

/// A report that is read, judged and written again in version 2.
#[derive(Clone, Copy)]
struct Judged {
    text: &'static str,
    now: &'static str,
}

/// What both checks say of a report, which has the points of a stale read, and whether it is written as this text. None
/// where memory is refused to one of them.
fn told<A: Allocator + Copy>(
    alloc: A,
    ample: Global,
    report: &Report<A>,
    now: &str,
) -> Result<Option<String>, Fail> {
    let history = report.history();
    let serial = check_serial(alloc, history, report.order());
    let points = check_points(alloc, history, STALE.as_slice());
    match is_written_as(alloc, report, now) {
        Some(is_now) if ![serial, points].contains(&Err(CheckFault::OutOfMemory)) => {
            shown(ample, &(serial, points, is_now))
        }
        _ => Ok(None),
    }
}

impl Trial for Judged {
    fn answer<A: Allocator + Copy>(&self, alloc: A, ample: Global) -> Result<Option<String>, Fail> {
        match read_report(alloc, self.text) {
            Ok(report) => told(alloc, ample, &report, self.now),
            Err(fault) => unless_memory(fault, fault == ReadFault::OutOfMemory),
        }
    }
}

/// Reports, and how each is written in version 2.
const JUDGED: &[Judged] = &[
    Judged {
        text: ONE_PROCESS,
        now: ONE_PROCESS_NOW,
    },
    Judged {
        text: NO_POINTS,
        now: NO_POINTS_NOW,
    },
    Judged {
        text: NAMES_NOW,
        now: NAMES_NOW,
    },
];

/// The fewest refusals of the steps of a front end's tables.
fn least_refusals(alloc: Global, front: Front) -> Result<u64, Fail> {
    let mut least = u64::MAX;
    for (processes, rows) in tables_of(front) {
        let steps = Steps {
            front,
            processes: *processes,
            rows,
        };
        least = least.min(refusals(&steps, alloc)?);
    }
    Ok(least)
}

#[test]
fn each_growth_is_refused(rt: HostRuntime) -> Result<(), Fail> {
    for front in [Front::Linear, Front::LocalRead, Front::LocalWrite] {
        assert!(rt; least_refusals(rt.alloc(), front)? > 2);
    }
    for judged in JUDGED {
        demand_refusals(&rt, judged, 6)?;
    }
    Ok(())
}
