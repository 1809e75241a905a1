//! What a text is meant as that is no workload.
use crate::lines_at::{bytes_of, kept_at};
use crate::saying::Notes;
use crate::scanning::token_of;
use std::alloc::Allocator;

/// The words with which lines of a schedule begin.
const OF_A_SCHEDULE: &[&str] = &["processes", "registers", "front", "call", "take", "tick"];

const OF_A_REPORT: &[&str] = &["awreg"];

/// Puts what a text is, if it begins like one of another command, or its first word begins a line of a schedule or of a
/// report, or is written like one.
pub(crate) fn put_hint<A: Allocator + Copy>(notes: &mut Notes<'_, A>, text: &[u8]) {
    let line = bytes_of(kept_at(text, 0));
    let word = token_of(line);
    let hint = if text.starts_with(b"{") {
        "a history in lines of JSON is judged by awshow judge\n"
    } else if !line.contains(&b'=') && notes.near(word, OF_A_SCHEDULE).is_some() {
        "a schedule begins with processes and a number, as in processes 2\n"
    } else if notes.near(word, OF_A_REPORT).is_some() {
        "a report begins with awreg report 2\n"
    } else {
        ""
    };
    notes.put(hint);
}
