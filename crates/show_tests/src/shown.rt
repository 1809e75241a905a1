//! Schedules, traces and drawings of texts, with what was worked out by hand from the rules.
ghost use Rattle.reg_show.specs.Seeds.{IsSeed, seed_of};

use crate::given::{Row, Task, demand, tells};
use crate::values::{scheduled, shown, shown_in};
use reg_commands::{Command, OverText, run_command};
use reg_show::{Form, Player, SHORT_FORM, Showing, View};
use std::alloc::{AllocError, Global};

/// A write that is done once the other process has acknowledged its cast.
pub(crate) const WRITE: &str = "processes 2
registers x
front linear
call 0 write x 5
take 0 1 0
take 1 0 1
";

const WRITE_TRACE: &str = "0 call 0 write x 5
    clock 1
    holds (1, 0): p1 was not heard past it
    puts data 0: cast (1, 0) write x 5 (take 0 1 0)
1 take 0 1 0
    takes data 0: cast (1, 0) write x 5
    clock 2
    delivers (1, 0) write x 5
    copy x 5
    puts count 1 (take 1 0 0)
    puts data 0: acknowledgement (2, 1) (take 1 0 1)
2 take 1 0 1
    takes data 0: acknowledgement (2, 1)
    clock 3
    delivers (1, 0) write x 5
    copy x 5
    answers done, place 0
    puts count 1 (take 0 1 1)
";

/// A read that is held between two deliveries of one event.
const HELD: &str = "processes 2
registers x
front local-write
call 0 write x 1
call 1 write x 2
call 0 read x
take 1 0 0
";

const HELD_TRACE: &str = "0 call 0 write x 1
    clock 1
    answers done, place 0
    holds (1, 0): p1 was not heard past it
    puts data 0: cast (1, 0) write x 1 (take 0 1 0)
1 call 1 write x 2
    clock 1
    answers done, place 0
    holds (1, 1): p0 was not heard past it
    puts data 0: cast (1, 1) write x 2 (take 1 0 0)
2 call 0 read x
    clock 1
    holds (1, 0): p1 was not heard past it
3 take 1 0 0
    takes data 0: cast (1, 1) write x 2
    clock 2
    delivers (1, 0) write x 1
    copy x 1
    delivers (1, 1) write x 2
    copy x 2
    answers value 1, place 1
    puts count 1 (take 0 1 1)
    puts data 1: acknowledgement (2, 0) (take 0 1 2)
";

/// A frame that is put again, and one that is taken twice.
const AGAIN: &str = "processes 2
registers x
front local-read
call 0 swap x 7
tick 0
take 0 1 1
take 0 1 0
";

const AGAIN_TRACE: &str = "0 call 0 swap x 7
    clock 1
    holds (1, 0): p1 was not heard past it
    puts data 0: cast (1, 0) swap x 7 (take 0 1 0)
1 tick 0
    clock 1
    holds (1, 0): p1 was not heard past it
    puts data 0: cast (1, 0) swap x 7 (take 0 1 1)
2 take 0 1 1
    takes data 0: cast (1, 0) swap x 7
    clock 2
    delivers (1, 0) swap x 7
    copy x 7
    puts count 1 (take 1 0 0)
    puts data 0: acknowledgement (2, 1) (take 1 0 1)
3 take 0 1 0
    takes data 0: cast (1, 0) swap x 7
    drops it: number 1 is expected
    clock 2
    puts count 1 (take 1 0 2)
";

const WORK: &str = "front = \"local-write\"
registers = [\"x\", \"yz\"]
scripts = [[\"write x 5\", \"swap yz 6\", \"read x\"], [\"read yz\", \"write x 7\"], []]
seed = 3
loss = 20
repeat = 20
budget = 60
";

const TRACES: [Row; 4] = [
    (WRITE, (0, WRITE_TRACE, "")),
    (HELD, (0, HELD_TRACE, "")),
    (AGAIN, (0, AGAIN_TRACE, "")),
    ("processes 1\nregisters x\nfront linear\n", (0, "", "")),
];

const TRACE: Task = Task::Show {
    showing: Showing::Trace,
};

const DRAW: Task = Task::Show {
    showing: Showing::Draw,
};

pub(crate) const DATA: Task = Task::Show {
    showing: Showing::Data,
};

/// A workload whose every play calls the write, which is answered at once, among ticks that no answer needs.
const LONE: &str = "front = \"linear\"
registers = [\"x\"]
scripts = [[\"write x 5\"]]
";

const LONE_TRACE: &str = "short form of a play: events that no answer needs are left out
0 call 0 write x 5
    clock 1
    delivers (1, 0) write x 5
    copy x 5
    answers done, place 0
";

/// What is shown of a schedule has no title.
const SHORT_TRACES: [Row; 2] = [(LONE, (0, LONE_TRACE, "")), (WRITE, (0, WRITE_TRACE, ""))];

#[test]
fn a_play_is_traced_in_short(rt: HostRuntime) {
    let task = Task::ShowShort {
        showing: Showing::Trace,
    };
    demand(&rt, task, SHORT_TRACES.as_slice());
}

/// Whether what is shown of a text in short says so.
fn says_short(alloc: Global, showing: Showing, text: &str) -> bool {
    let form = Form::Short;
    let (status, output, errors) = shown_in(alloc, View { showing, form }, text.as_bytes());
    let shown = str::from_utf8(output.as_slice()).unwrap_or("");
    status == 0 && errors.is_empty() && shown.contains(SHORT_FORM)
}

#[test]
fn a_picture_of_a_play_says_that_it_is_short(rt: HostRuntime) {
    for showing in [Showing::Draw, Showing::Page] {
        assert!(rt; says_short(rt.alloc(), showing, LONE), "{showing:?}");
        assert!(rt; !says_short(rt.alloc(), showing, WRITE), "{showing:?}");
    }
}

#[test]
fn traces_are_those_worked_by_hand(rt: HostRuntime) {
    demand(&rt, TRACE, TRACES.as_slice());
}

const EARLY: &str = "processes 2\nregisters x\nfront linear\ntake 0 1 0\n";

/// Texts that can't be shown so, and the fault of each.
const REFUSED: [(Task, &str, &str); 6] = [
    (TRACE, "", "line 1: end\n"),
    (DRAW, "processes 0\n", "line 1: range\n"),
    (TRACE, EARLY, "event 0: no frame\n"),
    (DRAW, EARLY, "event 0: no frame\n"),
    (Task::Schedule, EARLY, "toml\n"),
    (Task::OnePlay, EARLY, "toml\n"),
];

#[test]
fn bad_input_is_told_in_one_line(rt: HostRuntime) {
    for (task, text, fault) in &REFUSED {
        assert!(rt; tells(rt.alloc(), *task, text, (1, "", fault)), "{text}");
    }
}

/// Adds a schedule with `count` ticks.
fn add_ticks(text: &mut String, count: u32) -> Result<(), AllocError> {
    text.push_str("processes 1\nregisters x\nfront linear\n")?;
    for _ in 0..count {
        text.push_str("tick 0\n")?;
    }
    Ok(())
}

/// A schedule with `count` ticks. Empty where there is no memory for it.
fn ticks(alloc: Global, count: u32) -> String {
    let mut text = String::new(alloc);
    if add_ticks(&mut text, count).is_err() {
        text.clear();
    }
    text
}

/// Whether a schedule with `count` ticks is drawn.
fn is_drawn(alloc: Global, count: u32) -> bool {
    let text = ticks(alloc, count);
    let (status, output, errors) = shown(alloc, Showing::Draw, text.as_bytes());
    status == 0 && errors.is_empty() && output.as_slice().starts_with(b"<svg ")
}

/// A write that nobody heard of, and what its drawing says in words.
const LOST: &str = "processes 2\nregisters x\nfront linear\ncall 0 write x 5\n";

const LOST_IN_WORDS: &str = "<title>Space-time diagram: linear, registers x</title>
<desc>
p0 #0, from event 0 on, not answered: write x 5.
Never taken: take 0 1 0: data 0: cast (1, 0) write x 5.
</desc>
";

#[test]
fn a_drawing_says_in_words_what_it_shows(rt: HostRuntime) {
    let (status, output, errors) = shown(rt.alloc(), Showing::Draw, LOST.as_bytes());
    let drawing = str::from_utf8(output.as_slice()).unwrap_or("");
    assert_eq!(rt; (status, errors.is_empty()), (0, true));
    assert!(rt; drawing.contains(LOST_IN_WORDS), "{drawing}");
}

/// The width of a drawing, as its element and as its coordinates say it.
fn widths(alloc: Global, showing: Showing) -> Option<(u64, u64)> {
    let (_, output, _) = shown(alloc, showing, LOST.as_bytes());
    let drawing = str::from_utf8(output.as_slice()).ok()?;
    let (_, rest) = drawing.split_once(" width=\"")?;
    let (width, rest) = rest.split_once("\"")?;
    let (_, rest) = rest.split_once("viewBox=\"0 0 ")?;
    let (inside, _) = rest.split_once(" ")?;
    Some((width.parse::<u64>().ok()?, inside.parse::<u64>().ok()?))
}

#[test]
fn a_large_drawing_is_twice_as_large(rt: HostRuntime) {
    let usual = widths(rt.alloc(), Showing::Draw);
    let large = widths(rt.alloc(), Showing::DrawLarge);
    assert!(rt;
        matches!((usual, large), (Some((width, inside)), Some((wide, same)))
        if inside == width && same == width && width.checked_mul(2) == Some(wide))
    );
}

const TOO_MANY: &str =
    "too many events to draw: a page has room for 2000, and trace for all; schedule --short and --fair make fewer\n";

/// Whether a schedule with `count` ticks has too many events to be shown.
fn has_too_many(alloc: Global, showing: Showing, count: u32) -> bool {
    let text = ticks(alloc, count);
    tells(
        alloc,
        Task::Show { showing },
        text.as_str(),
        (1, "", TOO_MANY),
    )
}

#[test]
fn a_drawing_has_at_most_400_events(rt: HostRuntime) {
    assert!(rt; is_drawn(rt.alloc(), 400));
    assert!(rt; has_too_many(rt.alloc(), Showing::Draw, 401));
}

/// Whether a schedule with `count` ticks is shown whole.
fn is_told(alloc: Global, showing: Showing, count: u32) -> bool {
    let text = ticks(alloc, count);
    let (status, output, errors) = shown(alloc, showing, text.as_bytes());
    status == 0 && errors.is_empty() && !output.is_empty()
}

#[test]
fn a_page_has_at_most_2000_events(rt: HostRuntime) {
    for showing in [Showing::Data, Showing::Page] {
        assert!(rt; is_told(rt.alloc(), showing, 2_000));
        assert!(rt; has_too_many(rt.alloc(), showing, 2_001));
    }
}

/// Whether the run of a schedule has this report.
pub(crate) fn replays_to(alloc: Global, schedule: &[u8], report: &[u8]) -> bool {
    let (mut output, mut errors) = (Vec::new(alloc), Vec::new(alloc));
    let mut reader = schedule;
    let global = alloc;
    let command = Command::Replay;
    let replay = OverText { command, global };
    let status = run_command(replay, alloc, &mut reader, &mut output, &mut errors);
    status == 0 && errors.is_empty() && output.as_slice() == report
}

/// Whether the schedule of a play replays to the report of the play.
fn replays_to_the_play(alloc: Global, player: Player) -> bool
    requires { IsSeed (seed_of player) }
{
    let (status, schedule, mut errors) = scheduled(alloc, player, WORK.as_bytes());
    let (mut reader, mut report) = (WORK.as_bytes(), Vec::new(alloc));
    let fair = player == Player::Fair;
    let command = Command::Play { fair };
    let global = alloc;
    let play = OverText { command, global };
    let played = run_command(play, alloc, &mut reader, &mut report, &mut errors);
    let ended = status == 0 && played == 0 && errors.is_empty() && !report.is_empty();
    ended && replays_to(alloc, schedule.as_slice(), report.as_slice())
}

#[test]
fn the_schedule_of_a_play_replays_to_the_report_of_the_play(rt: HostRuntime) {
    assert!(rt; replays_to_the_play(rt.alloc(), Player::Fair));
    assert!(rt; replays_to_the_play(rt.alloc(), Player::Seeded { seed: None }));
}

/// Whether what is shown of a workload is what is shown of the schedule of its play.
fn is_shown_alike(alloc: Global, showing: Showing) -> bool {
    let player = Player::Seeded { seed: None };
    let (_, text, _) = scheduled(alloc, player, WORK.as_bytes());
    let (status, of_play, errors) = shown(alloc, showing, text.as_slice());
    let (same, of_work, more) = shown(alloc, showing, WORK.as_bytes());
    let ended = status == 0 && same == 0 && errors.is_empty() && more.is_empty();
    ended && !of_play.is_empty() && of_play.as_slice() == of_work.as_slice()
}

#[test]
fn a_workload_is_shown_as_its_play(rt: HostRuntime) {
    for showing in [Showing::Trace, Showing::Draw, Showing::Data, Showing::Rest] {
        assert!(rt; is_shown_alike(rt.alloc(), showing), "{showing:?}");
    }
}
