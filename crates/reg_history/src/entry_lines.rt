//! Readers of the lines of a history.
ghost use Rattle.std.specs.Prelude.{◌≡◌, ◌↔◌, ◌⊎◌, ◌++◌, ℕ, List, true, codes, None, Some, IfSome, IsSome, IsSomeAnd};
ghost use Rattle.std.specs.Prelude.{IsTrue};
ghost use Rattle.reg_base.specs.Names.{names_fault};
ghost use Rattle.reg_base.specs.declared.memory.Answer.{Answer};
ghost use Rattle.reg_checkers.specs.declared.entries.Entry.{Entry};
ghost use Rattle.reg_text.specs.declared.faults.Why.{Why as AnyWhy};
ghost use Rattle.reg_history.specs.EntryLines.{AnswerFits, columns_text, ColumnsFit, entry_text, EntryFits};
ghost use Rattle.reg_base.specs.declared.memory.Op.{Op as AnyOp};
ghost use Rattle.reg_text.specs.Ops.{answer_text, op_text, OpFits};
ghost use Rattle.reg_history.specs.LineForms.{AreWithin, HasAnswerForm, HasCallForm, HasColumns, HasEntryForm};
ghost use Rattle.reg_history.specs.LineForms.{HasTailForm, IsTailWhy};
ghost use Rattle.reg_history.specs.Versions.{compares, may_answer, may_call};
ghost use Rattle.reg_history.specs.ReadFaults.{why_of};
ghost use Rattle.reg_text.specs.Forms.{is_numeral as is_numeral_of, IsOpWhy};

use crate::column_forms::columns_form;
use crate::report_faults::ReadWhy;
use crate::versions::Version;
use reg_base::limits::{LAST_EVENT, MOST_OPERATIONS};
use reg_base::{Answer, Names, Op, OpId};
use reg_checkers::Entry;
use reg_text::{Why, is_numeral, left_field, numeral, op_form, read_op, right_field, skip, within};
use std::alloc::Allocator;

/// The operation that is the whole of the text, where a report of this version may have it.
fn read_call<A: Allocator + Copy>(text: &[u8], names: &Names<A>, version: Version) -> Option<Op>
    requires { names_fault names.now ≡ None }
    ensures read { IfSome result
        (λ op. (text.now ≡ op_text names.now op) × OpFits names.now op × (may_call version op ≡ true)) }
    ensures whole { (op : AnyOp) → OpFits names.now op → may_call version op ≡ true → text.now ≡ op_text names.now op
        → result ≡ Some op }
{
    let op = read_op(text, names)?;
    if version.may_call(op) { Some(op) } else { None }
}

/// The answer that is the whole of the bytes, where a report of this version may have it.
fn read_answer(bytes: &[u8], version: Version) -> Option<Answer>
    ensures read { IfSome result (λ x. (bytes.now ≡ answer_text x) × AnswerFits x × (may_answer version x ≡ true)) }
    ensures whole { (x : Answer) → AnswerFits x → may_answer version x ≡ true → bytes.now ≡ answer_text x
        → result ≡ Some x }
{
    let answer = spelled_answer(bytes)?;
    if version.may_answer(answer) {
        Some(answer)
    } else {
        None
    }
}

/// The answer that is the whole of the bytes.
fn spelled_answer(bytes: &[u8]) -> Option<Answer>
    ensures read { IfSome result (λ x. (bytes.now ≡ answer_text x) × AnswerFits x) }
    ensures whole { (x : Answer) → AnswerFits x → bytes.now ≡ answer_text x → result ≡ Some x }
{
    if bytes == b"done".as_slice() {
        return Some(Answer::Done);
    }
    if bytes == b"unequal".as_slice() {
        return Some(Answer::Unequal);
    }
    let digits = skip(bytes, b"value ")?;
    let number = numeral(digits)?;
    Some(Answer::Value(number))
}

fn are_within(version: Version, at: u64, process: u64, number: u64) -> bool
    ensures { IsTrue result ↔ ColumnsFit version at process number }
{
    at <= LAST_EVENT as u64
        && process <= version.last_process() as u64
        && number < MOST_OPERATIONS as u64
}

/// The columns of a line, and the rest.
fn read_columns(line: &[u8], version: Version) -> Option<(u32, u8, u32, &[u8])>
    ensures read { IfSome result (λ p. (line.now ≡ columns_text p.0 p.1 p.2 p.3.now) × ColumnsFit version p.0 p.1 p.2) }
    ensures whole { (at process number : ℕ) (rest : List ℕ) → ColumnsFit version at process number
        → line.now ≡ columns_text at process number rest
        → IsSomeAnd result (λ p. (p.0 ≡ at) × (p.1 ≡ process) × (p.2 ≡ number) × (p.3.now ≡ rest)) }
{
    let (at, after) = right_field(line, 8, b"  p")?;
    let (process, others) = left_field(after, 3, b"  #")?;
    let (number, rest) = left_field(others, 6, b"  ")?;
    if !are_within(version, at, process, number) {
        return None;
    }
    Some((at as u32, process as u8, number as u32, rest))
}

/// The entry of a line. None where the line is no entry's, and then `why_entry` says why.
pub fn read_entry<A: Allocator + Copy>(
    line: &[u8],
    names: &Names<A>,
    version: Version,
) -> Option<Entry>
    requires { names_fault names.now ≡ None }
    ensures read { IfSome result (λ e. (line.now ≡ entry_text names.now e) × EntryFits version names.now e) }
    ensures whole { (e : Entry) → EntryFits version names.now e → line.now ≡ entry_text names.now e → result ≡ Some e }
{
    let (at, process, number, rest) = read_columns(line, version)?;
    let id = OpId { process, number };
    if let Some(text) = skip(rest, b"call    ") {
        let op = read_call(text, names, version)?;
        return Some(Entry::Called { at, id, op });
    }
    let text = skip(rest, b"answer  ")?;
    let answer = read_answer(text, version)?;
    Some(Entry::Answered { at, id, answer })
}

/// Whether the bytes have the form of an answer of this version, in a line that was not read. `read_answer` doesn't
/// tell: it takes no numeral that is out of range, while a line that has its form is refused for its range.
fn answer_form(text: &[u8], version: Version) -> Option<Why>
    ensures read { IfSome result (λ why. HasAnswerForm version text.now × (why ≡ Why.Range)) }
    ensures whole { HasAnswerForm version text.now → IsSome result }
{
    if text == b"done".as_slice() {
        return Some(Why::Range);
    }
    if text == b"unequal".as_slice() {
        return if version.compares() {
            Some(Why::Range)
        } else {
            None
        };
    }
    let digits = skip(text, b"value ")?;
    if is_numeral(digits) {
        Some(Why::Range)
    } else {
        None
    }
}

/// Why a text is not read as an operation of this version. None where it has the form of none.
fn call_form<A: Allocator + Copy>(text: &[u8], names: &Names<A>, version: Version) -> Option<Why>
    ensures read { IfSome result (λ why. HasCallForm version text.now × IsOpWhy names.now text.now why
        × ((why ≡ Why.Range) ⊎ (why ≡ Why.Name))) }
    ensures whole { HasCallForm version text.now → IsSome result }
{
    if version.compares() {
        return op_form(text, names);
    }
    match skip(text, b"cas ") {
        Some(_) => None,
        None => op_form(text, names),
    }
}

/// Why what stands after the columns is not read. None where its form is not kept.
fn tail_form<A: Allocator + Copy>(rest: &[u8], names: &Names<A>, version: Version) -> Option<Why>
    ensures read { IfSome result (λ why. HasTailForm version rest.now × IsTailWhy names.now rest.now why
        × ((why ≡ Why.Range) ⊎ (why ≡ Why.Name))) }
    ensures whole { HasTailForm version rest.now → IsSome result }
{
    match skip(rest, b"call    ") {
        Some(text) => call_form(text, names, version),
        None => answer_form(skip(rest, b"answer  ")?, version),
    }
}

/// Whether the numerals of the columns are of numbers within the limits.
fn columns_fit(version: Version, at: &[u8], process: &[u8], number: &[u8]) -> bool
    ensures { IsTrue result ↔ AreWithin version at.now process.now number.now }
{
    within(at, LAST_EVENT as u64)
        && within(process, version.last_process() as u64)
        && within(number, MOST_OPERATIONS as u64 - 1)
}

/// Why the line of an entry is not read. None where its form is not kept.
fn entry_form<A: Allocator + Copy>(line: &[u8], names: &Names<A>, version: Version) -> Option<Why>
    ensures read { IfSome result (λ why. HasEntryForm version line.now × ((why ≡ Why.Range) ⊎ (why ≡ Why.Name))) }
    ensures whole { HasEntryForm version line.now → IsSome result }
    ensures beyond { (at process number rest : List ℕ) → HasColumns line.now at process number rest
        → ¬ (AreWithin version at process number) → IfSome result (λ why. why ≡ Why.Range) }
    ensures within { (at process number rest : List ℕ) → HasColumns line.now at process number rest
        → AreWithin version at process number → IfSome result (IsTailWhy names.now rest) }
{
    let (at, process, number, rest) = columns_form(line)?;
    let why = tail_form(rest, names, version)?;
    if columns_fit(version, at, process, number) {
        Some(why)
    } else {
        Some(Why::Range)
    }
}

/// Why a line is no entry: its form is not kept, or a number of its columns is beyond its limit, or what stands after
/// them tells.
pub fn why_entry<A: Allocator + Copy>(line: &[u8], names: &Names<A>, version: Version) -> ReadWhy
    ensures form { (¬ (HasEntryForm version line.now)) → result ≡ ReadWhy.Form }
    ensures beyond { (at process number rest : List ℕ) → HasColumns line.now at process number rest
        → HasTailForm version rest → ¬ (AreWithin version at process number) → result ≡ ReadWhy.Range }
    ensures within { (at process number rest : List ℕ) → HasColumns line.now at process number rest
        → HasTailForm version rest → AreWithin version at process number
        → (why : AnyWhy) × IsTailWhy names.now rest why × (result ≡ why_of why) }
{
    match entry_form(line, names, version) {
        Some(why) => ReadWhy::from(why),
        None => ReadWhy::Form,
    }
}
