//! The counted parts of a report.
ghost use Rattle.std.specs.Prelude.{◌≡◌, ◌<◌, ◌≤◌, length, ℕ, List, [], ◌∷◌, ◌++◌, None, Ok, IfOk, IfErr, OnOk};
ghost use Rattle.std.specs.Prelude.{MatchResult, codes, Option, option_map, string_bytes, true};
ghost use Rattle.std.specs.Fmt.{decimal};
ghost use Rattle.reg_base.specs.Names.{names_fault};
ghost use Rattle.reg_base.specs.declared.memory.OpId.{OpId};
ghost use Rattle.reg_checkers.specs.declared.entries.Entry.{Entry};
ghost use Rattle.reg_checkers.specs.declared.entries.Point.{Point};
ghost use Rattle.reg_history.specs.EntryLines.{entry_text};
ghost use Rattle.reg_history.specs.Reports.{is_front as is_front_of};
ghost use Rattle.reg_history.specs.IdLines.{id_text, IdFits, point_text, PointFits};
ghost use Rattle.reg_text.specs.Reading.{GoesOn, IsBlock};
ghost use Rattle.reg_history.specs.LineForms.{Follows, HasIdForm, IsBadLine, IsCounted};
ghost use Rattle.reg_history.specs.Refusals.{IsNoCount, IsNoFront, IsNoNextEntry, IsNoVersion, IsWrongCounted};
ghost use Rattle.reg_history.specs.Refusals.{IsWrongHead, IsWrongLists, IsWrongTail};
ghost use Rattle.reg_history.specs.Stops.{IsFailure, IsFirst, IsFurther, IsWrongEnd, IsWrongPoints};
ghost use Rattle.reg_history.specs.declared.report_faults.ReadWhy.{ReadWhy as Why};
ghost use Rattle.reg_history.specs.Reports.{tail_lines, PointsFit, head_lines};
ghost use Rattle.reg_history.specs.declared.versions.Version.{Version};
ghost use Rattle.reg_history.specs.Versions.{most_processes, most_registers, version_line};

use crate::blocks::{read_block, read_entries};
use crate::name_lines::read_registers;
use crate::report_faults::{ReadFault, ReadWhy, at_line};
use crate::report_limits::{LONGEST_FRONT, MOST_ENTRIES, MOST_IDS};
use crate::versions::Version;
use reg_base::{Names, OpId, Shape};
use reg_checkers::{History, Point};
use reg_text::{
    Lines, are_front_letters, expect_line, numeral_within, owned, read_count, skip, why_number,
};
use std::alloc::Allocator;

/// Whether the word can name a front end: 1 to 16 letters a to z or hyphens.
pub fn is_front(word: &[u8]) -> bool
    ensures { result ≡ is_front_of word.now }
{
    !word.is_empty() && word.len() <= LONGEST_FRONT && are_front_letters(word)
}

/// The word of the line of the front end.
fn read_front<A: Allocator + Copy>(alloc: A, lines: &mut Lines<'_>) -> Result<String<A>, ReadFault>
    ensures read { IfOk result
        (λ s. (lines.old.left ≡ (codes "front " ++ string_bytes s) ∷ lines.new.left)
        × (is_front_of (string_bytes s) ≡ true)) }
    ensures whole { (front : List ℕ) (rest : List (List ℕ)) → is_front_of front ≡ true
        → lines.old.left ≡ (codes "front " ++ front) ∷ rest
        → MatchResult result (λ s. (string_bytes s ≡ front) × (lines.new.left ≡ rest))
        (λ f. f ≡ ReadFault.OutOfMemory) }
    ensures stopped { IfErr result (IsFailure (IsFirst IsNoFront) lines.old) }
    ensures on { OnOk result (GoesOn lines.old lines.new) }
{
    let Some(line) = lines.next() else {
        return Err(at_line(lines, ReadWhy::End));
    };
    let Some(word) = skip(line, b"front ") else {
        return Err(at_line(lines, ReadWhy::Form));
    };
    if !is_front(word) {
        return Err(at_line(lines, ReadWhy::Form));
    }
    match owned(alloc, word) {
        Ok(Some(front)) => Ok(front),
        Ok(None) => Err(at_line(lines, ReadWhy::Form)),
        Err(_) => Err(ReadFault::OutOfMemory),
    }
}

/// The version that the first line names.
fn read_version(lines: &mut Lines<'_>) -> Result<Version, ReadFault>
    ensures read { IfOk result (λ version. lines.old.left ≡ version_line version ∷ lines.new.left) }
    ensures whole { (version : Version) (rest : List (List ℕ)) → lines.old.left ≡ version_line version ∷ rest
        → MatchResult result (λ v. (v ≡ version) × (lines.new.left ≡ rest)) (λ _. ⊥) }
    ensures stopped { IfErr result (IsFailure (IsFirst IsNoVersion) lines.old) }
    ensures on { OnOk result (GoesOn lines.old lines.new) }
{
    let Some(line) = lines.next() else {
        return Err(at_line(lines, ReadWhy::End));
    };
    match Version::of_line(line) {
        Some(version) => Ok(version),
        None => Err(at_line(lines, ReadWhy::Form)),
    }
}

/// The number of processes.
fn read_processes(lines: &mut Lines<'_>, version: Version) -> Result<u32, ReadFault>
    ensures read { IfOk result
        (λ n. (lines.old.left ≡ (codes "processes " ++ decimal n) ∷ lines.new.left) × (0 < n)
        × (n ≤ most_processes version)) }
    ensures whole { (n : ℕ) (rest : List (List ℕ)) → 0 < n → n ≤ most_processes version
        → lines.old.left ≡ (codes "processes " ++ decimal n) ∷ rest
        → MatchResult result (λ m. (m ≡ n) × (lines.new.left ≡ rest)) (λ _. ⊥) }
    ensures stopped { IfErr result
        (IsFailure (IsFirst (IsNoCount (codes "processes ") 1 (most_processes version))) lines.old) }
    ensures on { OnOk result (GoesOn lines.old lines.new) }
{
    let processes = read_count(lines, b"processes ", version.most_processes() as u64)?;
    if processes == 0 {
        return Err(at_line(lines, ReadWhy::Range));
    }
    Ok(processes as u32)
}

/// The first lines of a report.
pub fn read_head<A: Allocator + Copy>(
    alloc: A,
    lines: &mut Lines<'_>,
) -> Result<(Version, String<A>, u32, Names<A>), ReadFault>
    ensures read { IfOk result
        (λ h. (lines.old.left ≡ head_lines h.0 (string_bytes h.1) h.2 h.3 lines.new.left)
        × (is_front_of (string_bytes h.1) ≡ true) × (0 < h.2) × (h.2 ≤ most_processes h.0) × (names_fault h.3 ≡ None)
        × (length h.3 ≤ most_registers h.0)) }
    ensures whole { (version : Version) (front : List ℕ) (processes : ℕ) (names : List (List ℕ)) (rest : List (List ℕ))
        → is_front_of front ≡ true → 0 < processes → processes ≤ most_processes version → names_fault names ≡ None
        → length names ≤ most_registers version
        → lines.old.left ≡ head_lines version front processes names rest
        → MatchResult result
        (λ h. (h.0 ≡ version) × (string_bytes h.1 ≡ front) × (h.2 ≡ processes) × (h.3 ≡ names)
        × (lines.new.left ≡ rest))
        (λ f. f ≡ ReadFault.OutOfMemory) }
    ensures stopped { IfErr result (IsFailure (IsWrongHead) lines.old) }
    ensures on { OnOk result (GoesOn lines.old lines.new) }
{
    let version = read_version(lines)?;
    let front = read_front(alloc, lines)?;
    let processes = read_processes(lines, version)?;
    let names = read_registers(alloc, lines, version)?;
    Ok((version, front, processes, names))
}

/// The history of a report.
pub fn read_history<A: Allocator + Copy>(
    alloc: A,
    lines: &mut Lines<'_>,
    shape: Shape,
    names: &Names<A>,
    version: Version,
) -> Result<History<A>, ReadFault>
    requires { names_fault names.now ≡ None }
    ensures shape { IfOk result (λ h. h.shape ≡ shape) }
    ensures read { IfOk result
        (λ h. IsCounted (codes "history ") (entry_text names.now) (Follows version names.now shape) MOST_ENTRIES
        lines.old.left lines.new.left h.entries) }
    ensures whole { (ys : List Entry) (rest : List (List ℕ))
        → IsCounted (codes "history ") (entry_text names.now) (Follows version names.now shape) MOST_ENTRIES
        lines.old.left rest ys
        → MatchResult result (λ h. (h.entries ≡ ys) × (lines.new.left ≡ rest)) (λ f. f ≡ ReadFault.OutOfMemory) }
    ensures stopped { IfErr result
        (IsFailure (IsWrongCounted (codes "history ") 0 MOST_ENTRIES (entry_text names.now)
        (Follows version names.now shape) (IsNoNextEntry version names.now shape))
        lines.old) }
    ensures on { OnOk result (GoesOn lines.old lines.new) }
{
    let count = read_count(lines, b"history ", MOST_ENTRIES as u64)?;
    let Ok(mut history) = History::new(alloc, shape) else {
        return Err(ReadFault::OutOfMemory);
    };
    read_entries(lines, names, &mut history, count as u32, version)?;
    Ok(history)
}

/// The order of a report.
fn read_order<A: Allocator + Copy>(
    alloc: A,
    lines: &mut Lines<'_>,
    version: Version,
) -> Result<Vec<OpId, A>, ReadFault>
    ensures read { IfOk result
        (λ v. IsCounted (codes "order ") id_text (λ _ x. IdFits version x) MOST_IDS lines.old.left lines.new.left
        v.items) }
    ensures whole { (ys : List OpId) (rest : List (List ℕ))
        → IsCounted (codes "order ") id_text (λ _ x. IdFits version x) MOST_IDS lines.old.left rest ys
        → MatchResult result (λ v. (v.items ≡ ys) × (lines.new.left ≡ rest)) (λ f. f ≡ ReadFault.OutOfMemory) }
    ensures stopped { IfErr result
        (IsFailure (IsWrongCounted (codes "order ") 0 MOST_IDS id_text (λ _ id. IdFits version id)
        (λ _. IsBadLine id_text (IdFits version) HasIdForm)) lines.old) }
    ensures on { OnOk result (GoesOn lines.old lines.new) }
{
    let count = read_count(lines, b"order ", MOST_IDS as u64)?;
    read_block(alloc, lines, count as u32, version)
}

/// Checks that no line is left.
fn expect_none(lines: &mut Lines<'_>) -> Result<(), ReadFault>
    ensures read { OnOk result (lines.old.left ≡ []) }
    ensures whole { lines.old.left ≡ [] → result ≡ Ok tt }
    ensures stopped { IfErr result (IsFailure (IsFurther) lines.old) }
{
    match lines.next() {
        Some(_) => Err(at_line(lines, ReadWhy::End)),
        None => Ok(()),
    }
}

/// The last line, with none after it.
fn read_end(lines: &mut Lines<'_>) -> Result<(), ReadFault>
    ensures read { OnOk result (lines.old.left ≡ codes "end" ∷ []) }
    ensures whole { lines.old.left ≡ codes "end" ∷ [] → result ≡ Ok tt }
    ensures stopped { IfErr result (IsFailure (IsWrongEnd) lines.old) }
{
    expect_line(lines, b"end")?;
    expect_none(lines)
}

/// How many points a line announces.
fn points_count(lines: &Lines<'_>, line: &[u8]) -> Result<u32, ReadFault>
    ensures read { IfOk result (λ n. (line.now ≡ codes "points " ++ decimal n) × (n ≤ MOST_IDS)) }
    ensures whole { (n : ℕ) → n ≤ MOST_IDS → line.now ≡ codes "points " ++ decimal n → result ≡ Ok n }
    ensures none { IfErr result
        (λ f. (why : Why) × (f ≡ ReadFault.Line lines.now.number why)
        × IsNoCount (codes "points ") 0 MOST_IDS line.now why) }
{
    let Some(digits) = skip(line, b"points ") else {
        return Err(at_line(lines, ReadWhy::Form));
    };
    match numeral_within(digits, MOST_IDS as u64) {
        Some(count) => Ok(count as u32),
        None => Err(at_line(lines, ReadWhy::from(why_number(digits)))),
    }
}

/// As many points as the count says, and the last line.
fn read_points<A: Allocator + Copy>(
    alloc: A,
    lines: &mut Lines<'_>,
    count: u32,
    version: Version,
) -> Result<Vec<Point, A>, ReadFault>
    ensures read { IfOk result
        (λ v. IsBlock point_text (λ _ p. PointFits version p) count lines.old.left (codes "end" ∷ []) v.items) }
    ensures whole { (ys : List Point)
        → IsBlock point_text (λ _ p. PointFits version p) count lines.old.left (codes "end" ∷ []) ys
        → MatchResult result (λ v. v.items ≡ ys) (λ f. f ≡ ReadFault.OutOfMemory) }
    ensures stopped { IfErr result (IsFailure (IsWrongPoints version count) lines.old) }
{
    let points = read_block(alloc, lines, count, version)?;
    read_end(lines)?;
    Ok(points)
}

/// The points of a report, if it has any, and its last line.
fn read_tail<A: Allocator + Copy>(
    alloc: A,
    lines: &mut Lines<'_>,
    version: Version,
) -> Result<Option<Vec<Point, A>>, ReadFault>
    ensures read { IfOk result
        (λ o. let points = option_map (λ v. v.items) o in (lines.old.left ≡ tail_lines points)
        × PointsFit version points) }
    ensures whole { (points : Option (List Point)) → PointsFit version points → lines.old.left ≡ tail_lines points
        → MatchResult result (λ o. option_map (λ v. v.items) o ≡ points) (λ f. f ≡ ReadFault.OutOfMemory) }
    ensures stopped { IfErr result (IsFailure (IsWrongTail version) lines.old) }
{
    let Some(line) = lines.next() else {
        return Err(at_line(lines, ReadWhy::End));
    };
    if line == b"end".as_slice() {
        expect_none(lines)?;
        return Ok(None);
    }
    let count = points_count(lines, line)?;
    let points = read_points(alloc, lines, count, version)?;
    Ok(Some(points))
}

/// The lists of a report, its order and its points, if it has any; and its last line, after which none is left.
pub fn read_lists<A: Allocator + Copy>(
    alloc: A,
    lines: &mut Lines<'_>,
    version: Version,
) -> Result<(Vec<OpId, A>, Option<Vec<Point, A>>), ReadFault>
    ensures read { IfOk result
        (λ p. let points = option_map (λ v. v.items) p.1 in (mid : List (List ℕ))
        × IsCounted (codes "order ") id_text (λ _ x. IdFits version x) MOST_IDS lines.old.left mid p.0.items
        × (mid ≡ tail_lines points) × PointsFit version points) }
    ensures whole { (order : List OpId) (points : Option (List Point))
        → IsCounted (codes "order ") id_text (λ _ x. IdFits version x) MOST_IDS lines.old.left (tail_lines points) order
        → PointsFit version points
        → MatchResult result (λ p. (p.0.items ≡ order) × (option_map (λ v. v.items) p.1 ≡ points))
        (λ f. f ≡ ReadFault.OutOfMemory) }
    ensures stopped { IfErr result (IsFailure (IsWrongLists version) lines.old) }
{
    let order = read_order(alloc, lines, version)?;
    let points = read_tail(alloc, lines, version)?;
    Ok((order, points))
}
