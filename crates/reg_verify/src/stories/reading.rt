//! Reports in a row, as one text.
ghost use Rattle.std.specs.Prelude.{◌≡◌, ◌≤◌, ◌<◌, ◌-◌, ◌^◌, ◌∷◌, [], List, ℕ, IfOk, IfErr, drop, take, length};
ghost use Rattle.std.specs.Prelude.{slice_index};
ghost use Rattle.std.specs.Str.{IsCharBoundary};
ghost use Rattle.reg_history.specs.Reports.{Contents};
ghost use Rattle.reg_verify.specs.StoryTexts.{IsUnreadText, SpellsReports, line_feeds as line_feeds_of, parts_of};
ghost use Rattle.reg_verify.specs.StoryParts.{begins_behind, IsReadAs, IsUnreadPart};

use reg_history::{ReadFault, Report, read_report};
use std::alloc::Allocator;

/// Whether a report begins behind this place of a text.
fn begins_report(text: &[u8], place: usize) -> bool
    requires { place < length text.now }
    ensures { result ≡ begins_behind text.now place }
{
    text[place] == b'\n' && text[place + 1..].starts_with(b"awreg report ")
}

/// Where the first report of a text ends: at the first line after its own that begins as a report does, or at the end.
fn end_of_report(text: &[u8]) -> usize
    ensures within { result ≤ length text.now }
    ensures first { (rest : List (List ℕ)) × (parts_of text.now ≡ take result text.now ∷ rest) }
    ensures last { result ≡ length text.now → parts_of text.now ≡ text.now ∷ [] }
    ensures more { result < length text.now
        → (0 < result) × (slice_index text.now (result - 1) ≡ 10)
        × (parts_of text.now ≡ take result text.now ∷ parts_of (drop result text.now)) }
{
    for place in 0..text.len() {
        if begins_report(text, place) {
            return place + 1;
        }
    }
    text.len()
}

/// How many line feeds a text has.
fn line_feeds(text: &[u8]) -> u64
    ensures counted { result ≡ line_feeds_of text.now }
    ensures few { result ≤ length text.now }
{
    let mut count = 0;
    for at in 0..text.len() {
        if text[at] == b'\n' {
            count += 1;
        }
    }
    count
}

/// The report that a part of a text is, behind these bytes of it.
fn read_behind<A: Allocator + Copy>(
    alloc: A,
    before: &[u8],
    part: &str,
) -> Result<Report<A>, ReadFault>
    requires { length before.now < 2 ^ 63 }
    ensures read { IfOk result (λ r. IsReadAs part.now r) }
    ensures why { IfErr result (λ f. IsUnreadPart before.now part.now f) }
{
    match read_report(alloc, part) {
        Ok(report) => Ok(report),
        Err(ReadFault::Line { line, why }) => Err(ReadFault::Line {
            line: line_feeds(before) + line,
            why,
        }),
        Err(ReadFault::OutOfMemory) => Err(ReadFault::OutOfMemory),
    }
}

/// Where the report ends that begins at this place of a text.
fn end_behind(text: &str, from: usize) -> usize
    requires within { from ≤ length text.now }
    ensures after { from ≤ result }
    ensures within { result ≤ length text.now }
    ensures boundary { IsCharBoundary text.now result }
    ensures first { (rest : List (List ℕ))
        × (parts_of (drop from text.now) ≡ take (result - from) (drop from text.now) ∷ rest) }
    ensures last { result ≡ length text.now → parts_of (drop from text.now) ≡ drop from text.now ∷ [] }
    ensures more { result < length text.now
        → (from < result)
        × (parts_of (drop from text.now)
        ≡ take (result - from) (drop from text.now) ∷ parts_of (drop result text.now)) }
{
    let rest = &text.as_bytes()[from..];
    from + end_of_report(rest)
}

/// The reports that a text is, one behind another.
///
/// # Errors
///
/// `Line` names the first line of the text that may not follow those before it, and what is wrong with it;
/// `OutOfMemory` says that what was read could not be kept.
pub fn read_reports<A: Allocator + Copy>(
    alloc: A,
    text: &str,
) -> Result<Vec<Report<A>, A>, ReadFault>
    ensures read { IfOk result (λ v. SpellsReports text.now v.items) }
    ensures whole { IfOk result (λ v. (others : List Contents) → SpellsReports text.now others → others ≡ v.items) }
    ensures some { IfOk result (λ v. 0 < length v.items) }
    ensures why { IfErr result (λ f. IsUnreadText text.now f) }
{
    let mut reports = Vec::new(alloc);
    let mut from = 0;
    loop {
        let end = end_behind(text, from);
        let report = match read_behind(alloc, &text.as_bytes()[..from], &text[from..end]) {
            Ok(report) => report,
            Err(fault) => return Err(fault),
        };
        if reports.push(report).is_err() {
            return Err(ReadFault::OutOfMemory);
        }
        if end == text.len() {
            return Ok(reports);
        }
        from = end;
    }
}
