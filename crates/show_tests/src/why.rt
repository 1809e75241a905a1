//! How it is told what is wrong with a text: all of the answer, and nothing where there is no memory.
use crate::given::{Task, answer_of, tells};
use crate::{why_events, why_reports, why_schedules, why_workloads};
use reg_commands::run_command;
use reg_heap::{Trial, refusals};
use reg_reasons::{Explain, ExplainLent};
use std::alloc::{Allocator, Global};
use std::process::Abort;
use std::test::Fail;

/// A text, and what is told of it. The proof of a function goes through all texts that it names once for each of them,
/// so that the rows stand in several tables, each given by a function.
pub(crate) type Row = (&'static str, &'static str);

/// Demands what is told of each text, with this status.
fn demand_told(rt: &(impl Abort + AllocGlobal), task: Task, status: u8, rows: &[Row]) {
    for (text, answer) in rows {
        let given = (status, *answer, "");
        assert!(rt; tells(rt.alloc(), task, text, given), "{text}");
    }
}

/// Demands what is told of the texts of all tables but one.
fn demand_all_told(rt: &(impl Abort + AllocGlobal), task: Task) {
    demand_told(rt, task, 0, why_schedules::accepted());
    demand_told(rt, task, 0, why_workloads::accepted());
    demand_told(rt, task, 0, why_reports::accepted());
    demand_told(rt, task, 1, &[(REFUSED, REFUSED_TOLD)]);
    demand_told(rt, task, 1, why_schedules::words());
    demand_told(rt, task, 1, why_schedules::spaces());
    demand_told(rt, task, 1, why_schedules::numbers());
    demand_told(rt, task, 1, why_schedules::names());
    demand_told(rt, task, 1, why_events::events());
    demand_told(rt, task, 1, why_workloads::refused());
    demand_told(rt, task, 1, why_reports::lines());
    demand_told(rt, task, 1, why_reports::places());
    demand_told(rt, task, 1, why_reports::orders());
    demand_told(rt, task, 1, why_reports::entries());
    demand_told(rt, task, 1, why_reports::lists());
}

#[test]
fn texts_are_told_as_worked_by_hand(rt: HostRuntime) {
    demand_all_told(&rt, Task::Why);
    demand_told(&rt, Task::Why, 0, why_workloads::in_no_layout());
}

#[test]
fn the_same_is_told_with_one_heap(rt: HostRuntime) {
    demand_all_told(&rt, Task::WhyLent);
}

#[test]
fn broken_documents_are_told_alike(rt: HostRuntime) {
    let alloc = rt.alloc();
    for text in why_workloads::broken() {
        let (mut output, mut errors) = (Vec::new(alloc), Vec::new(alloc));
        let (mut one, mut other) = (text.as_bytes(), text.as_bytes());
        let command = Explain { global: alloc };
        run_command(command, alloc, &mut one, &mut output, &mut errors);
        let (mut lent, mut faults) = (Vec::new(alloc), Vec::new(alloc));
        run_command(ExplainLent, alloc, &mut other, &mut lent, &mut faults);
        let is_same = output.as_slice() == lent.as_slice() && output.len() > "toml\n".len();
        assert_eq!(rt;
            (is_same, errors.is_empty(), faults.is_empty()),
            (true, true, true),
            "{text}"
        );
    }
}

/// A schedule of which the last event is refused, and what is told of it.
pub(crate) const REFUSED: &str = "processes 1
registers x
front linear
call 0 read x
tick 1
";

const REFUSED_TOLD: &str = "event 1: no process
5 | tick 1
  |      ^
there is no process 1: the process is 0
";

/// What is told of a text.
#[derive(Clone, Copy)]
struct Asked {
    text: &'static str,
}

impl Trial for Asked {
    fn answer<A: Allocator + Copy>(&self, alloc: A, ample: Global) -> Result<Option<String>, Fail> {
        let mut reader = self.text.as_bytes();
        let (mut output, mut errors) = (Vec::new(ample), Vec::new(ample));
        let command = Explain { global: ample };
        run_command(command, alloc, &mut reader, &mut output, &mut errors);
        Ok(answer_of(ample, output, errors.as_slice()))
    }
}

/// What is told of a text where there is no heap but one.
#[derive(Clone, Copy)]
struct AskedLent {
    text: &'static str,
}

impl Trial for AskedLent {
    fn answer<A: Allocator + Copy>(&self, alloc: A, ample: Global) -> Result<Option<String>, Fail> {
        let mut reader = self.text.as_bytes();
        let (mut output, mut errors) = (Vec::new(ample), Vec::new(ample));
        run_command(ExplainLent, alloc, &mut reader, &mut output, &mut errors);
        Ok(answer_of(ample, output, errors.as_slice()))
    }
}

#[test]
fn want_of_memory_is_told_and_nothing_else(rt: HostRuntime) -> Result<(), Fail> {
    let alloc = rt.alloc();
    let misspelt = "processes 1\nregisters x\nfront linear\ncal 0 read x\n";
    for text in [REFUSED, misspelt, "front = 1\n"] {
        assert!(rt; refusals(&Asked { text }, alloc)? > 3, "{text}");
        assert!(rt; refusals(&AskedLent { text }, alloc)? > 3, "{text}");
    }
    Ok(())
}
