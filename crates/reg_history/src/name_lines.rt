//! Readers of the registers of a report.
ghost use Rattle.std.specs.Prelude.{◌≡◌, ◌≢◌, ◌<◌, ◌≤◌, ◌+◌, ◌^◌, ◌⊎◌, ◌++◌, ℕ, List, length, true, None, Some, IfOk};
ghost use Rattle.std.specs.Prelude.{IfErr, OnOk, IfNone, IfSome, MatchResult, MatchOption, string_bytes, if◌then◌else◌};
ghost use Rattle.reg_base.specs.Names.{is_name as is_name_of, names_fault, texts};
ghost use Rattle.reg_text.specs.Reading.{GoesOn, IsBlock};
ghost use Rattle.reg_text.specs.Forms.{is_word as is_word_of};
ghost use Rattle.reg_history.specs.declared.versions.Version.{Version};
ghost use Rattle.reg_history.specs.declared.versions.Version.TheVariants.{One, Two};
ghost use Rattle.reg_history.specs.Refusals.{IsNewName, IsNoNewName, IsWrongItem, IsWrongNames};
ghost use Rattle.reg_history.specs.Stops.{IsFailure, IsWrongName};
ghost use Rattle.reg_base.specs.declared.limits.TheConstants.{MOST_REGISTERS};
ghost use Rattle.reg_history.specs.Versions.{most_registers};
ghost use Rattle.reg_history.specs.Reports.{registers_lines};

use crate::report_faults::{ReadFault, ReadWhy, at_line};
use crate::report_limits::OLDER_REGISTERS;
use crate::versions::Version;
use reg_base::limits::MOST_REGISTERS;
use reg_base::{Names, NamesFault, is_name};
use reg_text::{Lines, is_word, owned, read_count, read_names};
use std::alloc::{AllocError, Allocator};

/// The name that is the whole of a line. None where the line is no name, and then `why_name` says why.
fn name_of_line<A: Allocator + Copy>(alloc: A, line: &[u8]) -> Result<Option<String<A>>, AllocError>
    ensures { IfOk result
        (λ o. MatchOption o (is_name_of line.now ≢ true)
        (λ s. (string_bytes s ≡ line.now) × (is_name_of line.now ≡ true))) }
{
    match owned(alloc, line)? {
        Some(name) => {
            let is_spelt = is_name(name.as_str());
            if is_spelt { Ok(Some(name)) } else { Ok(None) }
        }
        None => Ok(None),
    }
}

/// Why a line is no name.
fn why_name(line: &[u8]) -> ReadWhy
    ensures { result ≡ (if is_word_of line.now then ReadWhy.Name else ReadWhy.Form) }
{
    if is_word(line) {
        ReadWhy::Name
    } else {
        ReadWhy::Form
    }
}

/// The well spelt names of lines, and why the reading stopped before the last of them.
#[derive(Drop)]
struct Spelt<A: Allocator + Copy> {
    names: Vec<String<A>, A>,
    stop: Option<ReadFault>,
}

/// The names of as many lines as the count says, whether or not they differ.
fn read_spelt<A: Allocator + Copy>(alloc: A, lines: &mut Lines<'_>, count: u32) -> Spelt<A>
    ensures read { IfNone result.stop (IsBlock (λ n. n)
        (λ _ n. is_name_of n ≡ true) count lines.old.left lines.new.left (texts result.names.items)) }
    ensures whole { (ys rest : List (List ℕ))
        → IsBlock (λ n. n) (λ _ n. is_name_of n ≡ true) count lines.old.left rest ys
        → MatchOption result.stop ((texts result.names.items ≡ ys) × (lines.new.left ≡ rest))
        (λ f. f ≡ ReadFault.OutOfMemory) }
    ensures wrong { IfSome result.stop
        (λ f. (f ≡ ReadFault.OutOfMemory) ⊎ IsWrongName count lines.old (texts result.names.items) f) }
    ensures on { IfNone result.stop (GoesOn lines.old lines.new) }
{
    let mut names = Vec::new(alloc);
    for _place in 0..count {
        let Some(line) = lines.next() else {
            let stop = Some(at_line(lines, ReadWhy::End));
            return Spelt { names, stop };
        };
        let name = match name_of_line(alloc, line) {
            Ok(Some(name)) => name,
            Ok(None) => {
                let stop = Some(at_line(lines, why_name(line)));
                return Spelt { names, stop };
            }
            Err(_) => {
                let stop = Some(ReadFault::OutOfMemory);
                return Spelt { names, stop };
            }
        };
        if names.push(name).is_err() {
            let stop = Some(ReadFault::OutOfMemory);
            return Spelt { names, stop };
        }
    }
    Spelt { names, stop: None }
}

/// The fault of the first name that stands earlier too, by the number of the line before the first name; and else the
/// other fault.
fn first_fault(fault: NamesFault, before: u64, other: ReadFault) -> ReadFault
    ensures same { (place : ℕ) → fault ≡ NamesFault.SameName place
        → (number : ℕ) × (result ≡ ReadFault.Line number ReadWhy.Name)
        × (before + place + 1 < 2 ^ 64 → number ≡ before + place + 1) }
    ensures other { ((place : ℕ) → fault ≢ NamesFault.SameName place) → result ≡ other }
{
    match fault {
        NamesFault::SameName { place } => ReadFault::Line {
            line: before.saturating_add(place as u64).saturating_add(1),
            why: ReadWhy::Name,
        },
        _ => other,
    }
}

/// The first fault of names whose reading stopped: one of the names that were read stands earlier too, or else the
/// fault that the reading stopped for.
fn stopped_at<A: Allocator + Copy>(
    names: Vec<String<A>, A>,
    before: u64,
    stop: ReadFault,
) -> ReadFault
    ensures memory { stop ≡ ReadFault.OutOfMemory → result ≡ ReadFault.OutOfMemory }
    ensures same { (place : ℕ) → stop ≢ ReadFault.OutOfMemory
        → names_fault (texts names.items) ≡ Some (NamesFault.SameName place)
        → (number : ℕ) × (result ≡ ReadFault.Line number ReadWhy.Name)
        × (before + place + 1 < 2 ^ 64 → number ≡ before + place + 1) }
    ensures other { ((place : ℕ) → ¬ (names_fault (texts names.items) ≡ Some (NamesFault.SameName place)))
        → result ≡ stop }
{
    if stop == ReadFault::OutOfMemory {
        return stop;
    }
    match Names::new(names) {
        Ok(_) => stop,
        Err(fault) => first_fault(fault, before, stop),
    }
}

/// As many names as the count says, each on a line of its own. The first line that is wrong is named: also that of a
/// name that stands earlier too, where a later line is misspelt or not there.
fn read_listed<A: Allocator + Copy>(
    alloc: A,
    lines: &mut Lines<'_>,
    count: u32,
) -> Result<Names<A>, ReadFault>
    ensures read { IfOk result
        (λ n. (lines.old.left ≡ n ++ lines.new.left) × (length n ≡ count) × (names_fault n ≡ None)) }
    ensures whole { (ns rest : List (List ℕ)) → names_fault ns ≡ None → length ns ≡ count → lines.old.left ≡ ns ++ rest
        → MatchResult result (λ n. (n ≡ ns) × (lines.new.left ≡ rest)) (λ f. f ≡ ReadFault.OutOfMemory) }
    ensures stopped { 0 < count → count ≤ MOST_REGISTERS
        → IfErr result (IsFailure (IsWrongItem (λ n. n) IsNewName IsNoNewName count) lines.old) }
    ensures on { OnOk result (GoesOn lines.old lines.new) }
{
    let before = lines.number();
    let Spelt { names, stop } = read_spelt(alloc, lines, count);
    match stop {
        None => match Names::new(names) {
            Ok(names) => Ok(names),
            Err(fault) => {
                let other = at_line(lines, ReadWhy::Range);
                Err(first_fault(fault, before, other))
            }
        },
        Some(stop) => Err(stopped_at(names, before, stop)),
    }
}

/// The names of version 1: all on one line.
fn read_older_registers<A: Allocator + Copy>(
    alloc: A,
    lines: &mut Lines<'_>,
) -> Result<Names<A>, ReadFault>
    ensures read { IfOk result
        (λ n. (lines.old.left ≡ registers_lines One n lines.new.left) × (names_fault n ≡ None)
        × (length n ≤ most_registers One)) }
    ensures whole { (names rest : List (List ℕ)) → names_fault names ≡ None → length names ≤ most_registers One
        → lines.old.left ≡ registers_lines One names rest
        → MatchResult result (λ n. (n ≡ names) × (lines.new.left ≡ rest)) (λ f. f ≡ ReadFault.OutOfMemory) }
    ensures stopped { IfErr result (IsFailure (IsWrongNames One) lines.old) }
    ensures on { OnOk result (GoesOn lines.old lines.new) }
{
    let names = read_names(alloc, lines, OLDER_REGISTERS)?;
    Ok(names)
}

/// The names of later versions: their count, and a line for each.
fn read_newer_registers<A: Allocator + Copy>(
    alloc: A,
    lines: &mut Lines<'_>,
) -> Result<Names<A>, ReadFault>
    ensures read { IfOk result
        (λ n. (lines.old.left ≡ registers_lines Two n lines.new.left) × (names_fault n ≡ None)
        × (length n ≤ most_registers Two)) }
    ensures whole { (names rest : List (List ℕ)) → names_fault names ≡ None → length names ≤ most_registers Two
        → lines.old.left ≡ registers_lines Two names rest
        → MatchResult result (λ n. (n ≡ names) × (lines.new.left ≡ rest)) (λ f. f ≡ ReadFault.OutOfMemory) }
    ensures stopped { IfErr result (IsFailure (IsWrongNames Two) lines.old) }
    ensures on { OnOk result (GoesOn lines.old lines.new) }
{
    let count = read_count(lines, b"registers ", MOST_REGISTERS as u64)?;
    if count == 0 {
        return Err(at_line(lines, ReadWhy::Range));
    }
    read_listed(alloc, lines, count as u32)
}

/// The names of the registers.
pub fn read_registers<A: Allocator + Copy>(
    alloc: A,
    lines: &mut Lines<'_>,
    version: Version,
) -> Result<Names<A>, ReadFault>
    ensures read { IfOk result
        (λ n. (lines.old.left ≡ registers_lines version n lines.new.left) × (names_fault n ≡ None)
        × (length n ≤ most_registers version)) }
    ensures whole { (names rest : List (List ℕ)) → names_fault names ≡ None → length names ≤ most_registers version
        → lines.old.left ≡ registers_lines version names rest
        → MatchResult result (λ n. (n ≡ names) × (lines.new.left ≡ rest)) (λ f. f ≡ ReadFault.OutOfMemory) }
    ensures stopped { IfErr result (IsFailure (IsWrongNames version) lines.old) }
    ensures on { OnOk result (GoesOn lines.old lines.new) }
{
    match version {
        Version::One => read_older_registers(alloc, lines),
        Version::Two => read_newer_registers(alloc, lines),
        Version::Three => read_newer_registers(alloc, lines),
    }
}
