//! Which command lines of `awshow` are taken, and how a refused one is told.
use crate::lines::words_of;
use crate::play_words::{OUTCOMES, SCHEDULES};
use reg_outcomes::OrderKind;
use reg_show_cli::{
    Asked, Command, Form, JudgeFlags, Showing, Topic, View, WordsFault, ask, refuse,
};
use std::alloc::Global;
use std::process::Abort;

/// Lines of `judge`, and what each asks for.
const JUDGED: [(&str, Option<Asked<'static>>); 17] = [
    (
        "judge",
        Some(Asked::Judge {
            flags: JudgeFlags {
                first: None,
                report: false,
            },
        }),
    ),
    (
        "judge --first 5",
        Some(Asked::Judge {
            flags: JudgeFlags {
                first: Some("5"),
                report: false,
            },
        }),
    ),
    (
        "judge --first null",
        Some(Asked::Judge {
            flags: JudgeFlags {
                first: Some("null"),
                report: false,
            },
        }),
    ),
    (
        "judge --report",
        Some(Asked::Judge {
            flags: JudgeFlags {
                first: None,
                report: true,
            },
        }),
    ),
    (
        "judge --first 5 --report",
        Some(Asked::Judge {
            flags: JudgeFlags {
                first: Some("5"),
                report: true,
            },
        }),
    ),
    (
        "judge --report --first 5",
        Some(Asked::Judge {
            flags: JudgeFlags {
                first: Some("5"),
                report: true,
            },
        }),
    ),
    (
        "judge --first --report",
        Some(Asked::Judge {
            flags: JudgeFlags {
                first: Some("--report"),
                report: false,
            },
        }),
    ),
    ("judge --first", None),
    ("judge --first=5", None),
    ("judge --first 5 6", None),
    ("judge --first 5 --first 6", None),
    ("judge --report --report", None),
    ("judge --report --first", None),
    ("judge --report yes", None),
    ("judge --seed 5", None),
    ("trace --report", None),
    ("judge judge", None),
];

/// Lines that ask for help with a command, and with which.
const HELP: [(&str, Topic); 18] = [
    ("draw --help", Topic::Draw),
    ("schedule --help", Topic::Schedule),
    ("outcomes -h", Topic::Outcomes),
    ("find --help", Topic::Find),
    ("why --help", Topic::Why),
    ("verify -h", Topic::Verify),
    ("judge --help", Topic::Judge),
    ("help judge", Topic::Judge),
    ("help outcomes", Topic::Outcomes),
    ("data -h", Topic::Data),
    ("page --help", Topic::Page),
    ("help rest", Topic::Rest),
    ("help merge", Topic::Merge),
    ("story --help", Topic::Story),
    ("help trace", Topic::Trace),
    ("help replay", Topic::Replay),
    ("check --help", Topic::Check),
    ("play -h", Topic::Play),
];

/// Lines that ask for help with no command, or seem to ask for help, and what each asks for.
const WHOLE_HELP: [(&str, Option<Asked<'static>>); 10] = [
    ("help", Some(Asked::Help { topic: None })),
    ("-h", Some(Asked::Help { topic: None })),
    ("--help", Some(Asked::Help { topic: None })),
    ("help help", None),
    ("help -h", None),
    ("help --help", None),
    ("-h replay", None),
    ("help trace draw", None),
    ("schedule --help --fair", None),
    ("help live", None),
];

/// Lines of the other commands, and of none, and what each asks for.
const OTHERS: [(&str, Option<Asked<'static>>); 40] = [
    ("trace --seed 5", None),
    ("trace --short", None),
    (
        "trace",
        Some(Asked::Show {
            view: View {
                showing: Showing::Trace,
                form: Form::Short,
            },
        }),
    ),
    (
        "draw",
        Some(Asked::Show {
            view: View {
                showing: Showing::Draw,
                form: Form::Short,
            },
        }),
    ),
    (
        "find serial",
        Some(Asked::Find {
            kind: OrderKind::Serial,
        }),
    ),
    (
        "find points",
        Some(Asked::Find {
            kind: OrderKind::Points,
        }),
    ),
    ("find", None),
    ("find order", None),
    ("find serial points", None),
    (
        "data",
        Some(Asked::Show {
            view: View {
                showing: Showing::Data,
                form: Form::Whole,
            },
        }),
    ),
    (
        "page",
        Some(Asked::Show {
            view: View {
                showing: Showing::Page,
                form: Form::Short,
            },
        }),
    ),
    (
        "rest",
        Some(Asked::Show {
            view: View {
                showing: Showing::Rest,
                form: Form::Whole,
            },
        }),
    ),
    ("why", Some(Asked::Why)),
    ("verify", Some(Asked::Verify)),
    ("merge", Some(Asked::Merge)),
    ("story", Some(Asked::Story)),
    ("--version", Some(Asked::Version)),
    ("", None),
    ("trace --", None),
    ("-- trace", None),
    ("trace --fair", None),
    ("draw draw", None),
    ("page --fair", None),
    ("rest --fair", None),
    ("why why", None),
    ("version", None),
    ("--version --version", None),
    ("why --fair", None),
    (
        "trace --whole",
        Some(Asked::Show {
            view: View {
                showing: Showing::Trace,
                form: Form::Whole,
            },
        }),
    ),
    (
        "draw --whole",
        Some(Asked::Show {
            view: View {
                showing: Showing::Draw,
                form: Form::Whole,
            },
        }),
    ),
    (
        "page --whole",
        Some(Asked::Show {
            view: View {
                showing: Showing::Page,
                form: Form::Whole,
            },
        }),
    ),
    (
        "draw --large",
        Some(Asked::Show {
            view: View {
                showing: Showing::DrawLarge,
                form: Form::Short,
            },
        }),
    ),
    (
        "draw --large --whole",
        Some(Asked::Show {
            view: View {
                showing: Showing::DrawLarge,
                form: Form::Whole,
            },
        }),
    ),
    ("draw --whole --large", None),
    ("draw --large --large", None),
    ("trace --large", None),
    ("trace --whole --whole", None),
    ("draw --short", None),
    ("data --whole", None),
    ("rest --whole", None),
];

/// Lines of the commands of `awreg`, and what each asks for.
const TEXTS: [(&str, Option<Asked<'static>>); 11] = [
    (
        "replay",
        Some(Asked::Text {
            command: Command::Replay,
        }),
    ),
    (
        "check",
        Some(Asked::Text {
            command: Command::Check,
        }),
    ),
    (
        "play",
        Some(Asked::Text {
            command: Command::Play { fair: false },
        }),
    ),
    (
        "play --fair",
        Some(Asked::Text {
            command: Command::Play { fair: true },
        }),
    ),
    ("play --fair --fair", None),
    ("play --seed 5", None),
    ("play fair", None),
    ("replay --fair", None),
    ("check replay", None),
    ("replay FILE", None),
    ("live", None),
];

/// Whether the words of a line ask for this.
fn asks(rt: &impl Abort, alloc: Global, line: &str, asked: &Option<Asked<'static>>) -> bool {
    let words = words_of(rt, alloc, "awshow", line);
    ask(words.as_slice()) == *asked
}

/// Refuses a line that asks for something else than its table says.
fn check_lines(rt: &impl Abort, alloc: Global, lines: &[(&str, Option<Asked<'static>>)]) {
    for (line, asked) in lines {
        assert!(rt; asks(rt, alloc, line, asked), "{line}");
    }
}

#[test]
fn each_line_of_schedule_asks_for_what_it_says(rt: HostRuntime) {
    check_lines(&rt, rt.alloc(), &SCHEDULES);
}

#[test]
fn each_line_of_outcomes_asks_for_what_it_says(rt: HostRuntime) {
    check_lines(&rt, rt.alloc(), &OUTCOMES);
}

#[test]
fn each_line_of_judge_asks_for_what_it_says(rt: HostRuntime) {
    check_lines(&rt, rt.alloc(), &JUDGED);
}

#[test]
fn each_line_of_help_asks_for_what_it_says(rt: HostRuntime) {
    for (line, topic) in &HELP {
        let topic = Some(*topic);
        assert!(rt;
            asks(&rt, rt.alloc(), line, &Some(Asked::Help { topic })),
            "{line}"
        );
    }
    check_lines(&rt, rt.alloc(), &WHOLE_HELP);
}

#[test]
fn each_line_of_a_command_of_awreg_asks_for_what_it_says(rt: HostRuntime) {
    check_lines(&rt, rt.alloc(), &TEXTS);
}

#[test]
fn each_other_line_asks_for_what_it_says(rt: HostRuntime) {
    check_lines(&rt, rt.alloc(), &OTHERS);
}

/// Whether a refused command line has this status and line.
fn is_told(alloc: Global, status: u8, line: &str) -> bool {
    let mut errors = Vec::new(alloc);
    refuse(WordsFault::CommandLine, &mut errors) == status && errors.as_slice() == line.as_bytes()
}

#[test]
fn a_refused_command_line_is_told_by_a_usage_line(rt: HostRuntime) {
    let usage = "usage: awshow COMMAND [FLAGS] < TEXT, and awshow help lists the commands\n";
    assert!(rt; is_told(rt.alloc(), 2, usage));
}
