//! Reports of chapters in a row, worked by hand: which are one story, and with which report they go wrong.
use crate::given::{Given, Task, answer_of, tells};
use crate::story_texts::{
    BEFORE, BEGUN, CALLED, FIRST, NOTHING, OF_TWO, ONLY_Y, OTHER_COUNT, OTHER_FRONT, OTHER_NAMES,
    OTHER_VALUE, OTHER_WRITE, OUT_OF_ORDER, OUTSIDE, SECOND, THIRD, ZEROED,
};
use reg_commands::run_command;
use reg_heap::{Trial, refusals};
use reg_verify::Story;
use std::alloc::{AllocError, Allocator, Global};
use std::test::Fail;

/// Reports, and the line that is to be given for them one behind another.
type Row = (&'static [&'static str], &'static str);

/// Those that are one story.
const STORIES: &[Row] = &[
    (&[FIRST], "one story of 1 chapters\n"),
    (&[FIRST, SECOND], "one story of 2 chapters\n"),
    (&[FIRST, SECOND, THIRD], "one story of 3 chapters\n"),
    (&[FIRST, BEGUN], "one story of 2 chapters\n"),
    (&[FIRST, NOTHING], "one story of 2 chapters\n"),
    (&[ZEROED, ONLY_Y], "one story of 2 chapters\n"),
    (&[NOTHING, NOTHING, FIRST], "one story of 3 chapters\n"),
    (&[OF_TWO, CALLED], "one story of 2 chapters\n"),
];

/// Those that aren't opened with what the one before ended with.
const UNOPENED: &[Row] = &[
    (
        &[FIRST, OTHER_VALUE],
        "report 1: p0 #0 should be write x 7, with which the chapter before ended\n",
    ),
    (
        &[FIRST, OTHER_WRITE],
        "report 1: p0 #1 should be write y 6, with which the chapter before ended\n",
    ),
    (
        &[FIRST, SECOND, SECOND],
        "report 2: p0 #0 should be write x 8, with which the chapter before ended\n",
    ),
    (
        &[FIRST, BEGUN, BEGUN],
        "report 1: p0 #1 should be write y 6, with which the chapter before ended\n",
    ),
    (
        &[FIRST, NOTHING, NOTHING],
        "report 1: p0 #0 should be write x 7, with which the chapter before ended\n",
    ),
    (
        &[OF_TWO, BEFORE],
        "report 1: p0 #0 should be number 0 of the order\n",
    ),
    (
        &[OF_TWO, CALLED, CALLED],
        "report 1: p0 #0 should be number 0 of the order\n",
    ),
];

/// Those that are of another cluster, or that `check` doesn't accept.
const OTHERS: &[Row] = &[
    (&[FIRST, OTHER_FRONT], "report 1: another front end\n"),
    (
        &[FIRST, OTHER_COUNT],
        "report 1: another number of processes\n",
    ),
    (&[FIRST, OTHER_NAMES], "report 1: other registers\n"),
    (&[OUT_OF_ORDER, SECOND], "report 0: serial no: own order\n"),
    (&[FIRST, OUT_OF_ORDER], "report 1: serial no: own order\n"),
    (&[FIRST, OUTSIDE], "report 1: points no: outside at 0\n"),
];

/// Texts that aren't reports.
const UNREAD: &[Row] = &[
    (&[""], "line 1: end\n"),
    (&["no report\n"], "line 1: form\n"),
    (&[FIRST, "no report\n"], "line 23: end\n"),
    (&[FIRST, "awreg report 2\nback linear\n"], "line 24: form\n"),
    (&[FIRST, "awreg report 2\n", SECOND], "line 24: end\n"),
];

/// The texts one behind another.
fn joined(alloc: Global, texts: &[&str]) -> Result<String, AllocError> {
    let mut whole = String::new(alloc);
    for text in texts {
        whole.push_str(text)?;
    }
    Ok(whole)
}

/// Whether this is given for the texts one behind another.
fn is_given(alloc: Global, texts: &[&str], given: Given<'_>) -> Result<bool, AllocError> {
    let text = joined(alloc, texts)?;
    Ok(tells(alloc, Task::Story, text.as_str(), given))
}

#[test]
fn chapters_that_go_on_are_one_story(rt: HostRuntime) -> Result<(), AllocError> {
    for (texts, line) in STORIES {
        assert!(rt; is_given(rt.alloc(), texts, (0, *line, ""))?, "{line}");
    }
    Ok(())
}

#[test]
fn the_write_that_is_missing_is_told(rt: HostRuntime) -> Result<(), AllocError> {
    for (texts, line) in UNOPENED {
        assert!(rt; is_given(rt.alloc(), texts, (1, *line, ""))?, "{line}");
    }
    Ok(())
}

#[test]
fn other_clusters_and_reports_that_are_refused_are_told(rt: HostRuntime) -> Result<(), AllocError> {
    for (texts, line) in OTHERS {
        assert!(rt; is_given(rt.alloc(), texts, (1, *line, ""))?, "{line}");
    }
    Ok(())
}

#[test]
fn the_line_is_told_where_reports_end(rt: HostRuntime) -> Result<(), AllocError> {
    for (texts, line) in UNREAD {
        assert!(rt; is_given(rt.alloc(), texts, (1, "", *line))?, "{line}");
    }
    Ok(())
}

/// A story, judged.
#[derive(Clone, Copy)]
struct Judged;

impl Trial for Judged {
    fn answer<A: Allocator + Copy>(&self, alloc: A, ample: Global) -> Result<Option<String>, Fail> {
        let text = joined(ample, &[FIRST, BEGUN])?;
        let mut reader = text.as_bytes();
        let (mut output, mut errors) = (Vec::new(ample), Vec::new(ample));
        run_command(Story, alloc, &mut reader, &mut output, &mut errors);
        Ok(answer_of(ample, output, errors.as_slice()))
    }
}

#[test]
fn want_of_memory_is_told_of_a_story(rt: HostRuntime) -> Result<(), Fail> {
    assert!(rt; refusals(&Judged, rt.alloc())? > 3);
    Ok(())
}
