//! As many lines as a count announces.
ghost use Rattle.std.specs.Prelude.{◌≡◌, ℕ, List, [], ◌∷◌, Option, None, Ok, IfOk, IfErr, OnOk, MatchResult};
ghost use Rattle.reg_base.specs.Names.{names_fault};
ghost use Rattle.reg_checkers.specs.declared.entries.Entry.{Entry};
ghost use Rattle.reg_history.specs.declared.report_faults.ReadWhy.{ReadWhy as Why};
ghost use Rattle.reg_history.specs.LineForms.{Follows, IsBadLine};
ghost use Rattle.reg_history.specs.Refusals.{IsNoNextEntry, IsWrongItem, IsWrongNext};
ghost use Rattle.reg_history.specs.Stops.{IsFailure};
ghost use Rattle.reg_history.specs.EntryLines.{entry_text};
ghost use Rattle.reg_text.specs.Reading.{GoesOn, IsBlock, IsNext};
ghost use Rattle.reg_text.specs.Lines.{IsAsked};

use crate::entry_lines::{read_entry, why_entry};
use crate::items::{Listed, why_unlisted};
use crate::report_faults::{ReadFault, ReadWhy, at_line};
use crate::versions::Version;
use reg_base::Names;
use reg_checkers::{History, HistoryFault};
use reg_text::Lines;
use std::alloc::Allocator;

/// The item of the next line.
fn read_item<T: Listed>(lines: &mut Lines<'_>, version: Version) -> Result<T, ReadFault>
    ensures read { IfOk result (λ x. T.Fits version x × (lines.old.left ≡ T.line_of x ∷ lines.new.left)) }
    ensures whole { (x : T) (rest : List (List ℕ)) → T.Fits version x → lines.old.left ≡ T.line_of x ∷ rest
        → result ≡ Ok x }
    ensures why { IfErr result
        (λ f. (why : Why) × (next : Option (List ℕ)) × (f ≡ ReadFault.Line lines.new.number why)
        × IsNext lines.old.left next × IsWrongNext (IsBadLine T.line_of (T.Fits version) T.HasForm) next why) }
    ensures asked { IsAsked lines.old lines.new }
{
    let Some(line) = lines.next() else {
        return Err(at_line(lines, ReadWhy::End));
    };
    match T::read(line, version) {
        Some(item) => Ok(item),
        None => Err(at_line(lines, why_unlisted::<T>(line))),
    }
}

/// As many items as the count says.
pub fn read_block<T: Listed, A: Allocator + Copy>(
    alloc: A,
    lines: &mut Lines<'_>,
    count: u32,
    version: Version,
) -> Result<Vec<T, A>, ReadFault>
    ensures read { IfOk result
        (λ v. IsBlock T.line_of (λ _ x. T.Fits version x) count lines.old.left lines.new.left v.items) }
    ensures whole { (ys : List T) (rest : List (List ℕ))
        → IsBlock T.line_of (λ _ x. T.Fits version x) count lines.old.left rest ys
        → MatchResult result (λ v. (v.items ≡ ys) × (lines.new.left ≡ rest)) (λ f. f ≡ ReadFault.OutOfMemory) }
    ensures stopped { IfErr result
        (IsFailure (IsWrongItem T.line_of (λ _ x. T.Fits version x)
        (λ _. IsBadLine T.line_of (T.Fits version) T.HasForm) count) lines.old) }
    ensures on { OnOk result (GoesOn lines.old lines.new) }
{
    let mut items = Vec::new(alloc);
    for _place in 0..count {
        let item = read_item(lines, version)?;
        if items.push(item).is_err() {
            return Err(ReadFault::OutOfMemory);
        }
    }
    Ok(items)
}

/// As many entries as the count says, added to a history that has none.
pub fn read_entries<A: Allocator + Copy>(
    lines: &mut Lines<'_>,
    names: &Names<A>,
    history: &mut History<A>,
    count: u32,
    version: Version,
) -> Result<(), ReadFault>
    requires spelt { names_fault names.now ≡ None }
    requires empty { history.old.entries ≡ [] }
    ensures read { OnOk result
        (IsBlock (entry_text names.now) (Follows version names.now history.old.shape) count lines.old.left
        lines.new.left history.new.entries) }
    ensures shape { OnOk result (history.new.shape ≡ history.old.shape) }
    ensures whole { (ys : List Entry) (rest : List (List ℕ))
        → IsBlock (entry_text names.now) (Follows version names.now history.old.shape) count lines.old.left rest ys
        → MatchResult result (λ _. (history.new.entries ≡ ys) × (lines.new.left ≡ rest))
        (λ f. f ≡ ReadFault.OutOfMemory) }
    ensures stopped { IfErr result
        (IsFailure (IsWrongItem (entry_text names.now) (Follows version names.now history.old.shape)
        (IsNoNextEntry version names.now history.old.shape) count)
        lines.old) }
    ensures on { OnOk result (GoesOn lines.old lines.new) }
{
    for _place in 0..count {
        let Some(line) = lines.next() else {
            return Err(at_line(lines, ReadWhy::End));
        };
        let Some(entry) = read_entry(line, names, version) else {
            return Err(at_line(lines, why_entry(line, names, version)));
        };
        match history.push(entry) {
            Ok(()) => {}
            Err(HistoryFault::OutOfPlace) => return Err(at_line(lines, ReadWhy::Place)),
            Err(HistoryFault::OutOfMemory) => return Err(ReadFault::OutOfMemory),
        }
    }
    Ok(())
}
