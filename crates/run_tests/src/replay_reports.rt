//! Each schedule that was worked by hand has its report, and each report is judged too.
use crate::commands::{Given, gives};
use crate::demands::demand;
use crate::replay_rows::{Row, linear, local};
use crate::replays::ONE_PROCESS_SCHEDULE;
use crate::report_texts::ONE_PROCESS_NOW;
use crate::streams::demand_each_growth;
use reg_commands::Command;
use std::alloc::Global;
use std::process::Abort;

/// The verdict on a report, by the front end that it names.
fn verdict_on(report: &str) -> &'static str {
    if report.starts_with("awreg report 2\nfront linear\n") {
        "serial yes\npoints yes\n"
    } else {
        "serial yes\n"
    }
}

/// Whether a command gives this report of the two parts of a text, and it is judged well.
pub(crate) fn has_report(
    alloc: Global,
    command: Command,
    parts: (&str, &str),
    report: &str,
) -> bool {
    let verdict = Given::Accepted(verdict_on(report));
    gives(alloc, command, parts, Given::Accepted(report))
        && gives(alloc, Command::Check, (report, ""), verdict)
}

const ONE_PROCESS: &[Row] = &[Row {
    schedule: ONE_PROCESS_SCHEDULE,
    report: ONE_PROCESS_NOW,
}];

/// Demands that the schedules of these rows have their reports.
fn demand_reports(rt: &(impl Abort + AllocGlobal), rows: &[Row]) {
    for row in rows {
        let parts = (row.schedule, "");
        let right = has_report(rt.alloc(), Command::Replay, parts, row.report);
        demand(rt, &row.schedule, right);
    }
}

#[test]
fn each_run_has_its_report(rt: HostRuntime) {
    demand_reports(&rt, ONE_PROCESS);
    demand_reports(&rt, linear());
    demand_reports(&rt, local());
}

/// Demands that every growth of the replays of these rows is refused in turn.
fn demand_growths(rt: &(impl Abort + AllocGlobal), rows: &[Row]) {
    for row in rows {
        demand_each_growth(rt, rt.alloc(), Command::Replay, row.schedule, row.report);
    }
}

#[test]
fn a_replay_with_each_growth_refused(rt: HostRuntime) {
    demand_growths(&rt, linear());
    demand_growths(&rt, local());
}
