//! What is wrong with a line that no reader took: whether it has its form, whatever the limits and the names.
ghost use Rattle.std.specs.Prelude.{◌≡◌, ◌↔◌, ◌<◌, ◌≤◌, ◌^◌, ℕ, List, ◌⊎◌, length, IsTrue, IsSome, IfSome, IsSomeAnd};
ghost use Rattle.std.specs.Prelude.{Some, None, slice_get, if◌then◌else◌};
ghost use Rattle.std.specs.Fmt.{decimal};
ghost use Rattle.std.specs.Char.{is_ascii_digit};
ghost use Rattle.std.specs.List.{list_all};
ghost use Rattle.reg_text.specs.Columns.{to_left};
ghost use Rattle.reg_text.specs.Parts.{Lacks};
ghost use Rattle.reg_text.specs.Forms.{is_numeral as is_numeral_of, is_word as is_word_of, is_word_byte, IsReadForm};
ghost use Rattle.reg_text.specs.Forms.{IsWriteForm, IsSwapForm, IsCasForm, HasOpForm};
ghost use Rattle.reg_text.specs.Reading.{IsValuedForm, IsComparedForm};

use crate::faults::Why;
use crate::fields::{cut_at, is_blank, skip};
use crate::numbers::numeral_within;
use reg_base::Names;
use std::alloc::Allocator;

fn are_digits(bytes: &[u8]) -> bool
    ensures { result ≡ list_all is_ascii_digit bytes.now }
{
    bytes.iter().all(|b| b.is_ascii_digit())
}

/// Whether the bytes are a numeral: `0`, or one or more digits that do not begin with 0. It can be of any length.
pub fn is_numeral(bytes: &[u8]) -> bool
    ensures { result ≡ is_numeral_of bytes.now }
{
    match bytes {
        [] => false,
        [first, ..] => {
            if *first == b'0' {
                bytes.len() == 1
            } else {
                are_digits(bytes)
            }
        }
    }
}

fn are_word_bytes(bytes: &[u8]) -> bool
    ensures { result ≡ list_all is_word_byte bytes.now }
{
    bytes.iter().all(|b| b.is_ascii() && *b != b' ')
}

/// Whether the bytes are a word: one or more ASCII bytes, none of them a space.
pub fn is_word(bytes: &[u8]) -> bool
    ensures { result ≡ is_word_of bytes.now }
{
    !bytes.is_empty() && are_word_bytes(bytes)
}

/// None exactly where the form is not kept, as `good` says.
pub fn form(good: bool) -> Option<()>
    ensures { IsSome result ↔ IsTrue good }
{
    if good { Some(()) } else { None }
}

/// Why bytes are no number within a limit, where they are none: Range for a numeral, Form for anything else.
pub fn why_number(bytes: &[u8]) -> Why
    ensures form { result ≡ (if is_numeral_of bytes.now then Why.Range else Why.Form) }
    ensures number { (n : ℕ) → n < 2 ^ 64 → bytes.now ≡ decimal n → result ≡ Why.Range }
{
    if is_numeral(bytes) {
        Why::Range
    } else {
        Why::Form
    }
}

/// The bytes without the spaces at their end. Where a space stands elsewhere too, all bytes.
pub fn in_front(bytes: &[u8]) -> &[u8]
    ensures front { (front : List ℕ) → Lacks 32 front → bytes.now ≡ to_left (length bytes.now) front
        → result.now ≡ front }
    ensures only { (result.now ≡ bytes.now)
        ⊎ (Lacks 32 result.now × (bytes.now ≡ to_left (length bytes.now) result.now)) }
{
    match cut_at(bytes, b' ') {
        Some((front, after)) => { if is_blank(after) { front } else { bytes } }
        None => bytes,
    }
}

/// Whether the bytes spell a number up to the limit in decimal, with no sign and no needless zero.
pub fn within(bytes: &[u8], limit: u64) -> bool
    ensures { IsTrue result ↔ ((n : ℕ) × ((n ≤ limit) × (bytes.now ≡ decimal n))) }
{
    numeral_within(bytes, limit).is_some()
}

/// Why the text is no register and value: Name where the register is not known, else Range. None where its form is
/// not kept.
fn valued_form<A: Allocator + Copy>(text: &[u8], names: &Names<A>) -> Option<Why>
    ensures form { IfSome result
        (λ why. ((name : List ℕ) × ((digits : List ℕ) × IsValuedForm text.now name digits))
        × ((why ≡ Why.Range) ⊎ (why ≡ Why.Name))) }
    ensures whole { (name digits : List ℕ) → IsValuedForm text.now name digits → IsSome result }
    ensures known { (name digits : List ℕ) (i : ℕ) → IsValuedForm text.now name digits
        → slice_get names.now i ≡ Some name → result ≡ Some Why.Range }
    ensures unknown { (name digits : List ℕ) → IsValuedForm text.now name digits
        → ((i : ℕ) → ¬ (slice_get names.now i ≡ Some name)) → result ≡ Some Why.Name }
{
    let (name, digits) = cut_at(text, b' ')?;
    if !is_word(name) {
        return None;
    }
    if !is_numeral(digits) {
        return None;
    }
    match names.find(name) {
        Some(_) => Some(Why::Range),
        None => Some(Why::Name),
    }
}

/// The word and the two numerals that the text is. None where it is none of these.
fn compared_parts(text: &[u8]) -> Option<(&[u8], &[u8], &[u8])>
    ensures read { IfSome result (λ p. IsComparedForm text.now p.0.now p.1.now p.2.now) }
    ensures whole { (name expected digits : List ℕ) → IsComparedForm text.now name expected digits
        → IsSomeAnd result (λ p. (p.0.now ≡ name) × (p.1.now ≡ expected) × (p.2.now ≡ digits)) }
{
    let (name, values) = cut_at(text, b' ')?;
    let (expected, digits) = cut_at(values, b' ')?;
    if !is_word(name) {
        return None;
    }
    if !is_numeral(expected) {
        return None;
    }
    if !is_numeral(digits) {
        return None;
    }
    Some((name, expected, digits))
}

/// Why the text is no register and two values: Name where the register is not known, else Range. None where its form is
/// not kept.
fn compared_form<A: Allocator + Copy>(text: &[u8], names: &Names<A>) -> Option<Why>
    ensures form { IfSome result
        (λ why. ((name expected digits : List ℕ) × IsComparedForm text.now name expected digits)
        × ((why ≡ Why.Range) ⊎ (why ≡ Why.Name))) }
    ensures whole { (name expected digits : List ℕ) → IsComparedForm text.now name expected digits → IsSome result }
    ensures known { (name expected digits : List ℕ) (i : ℕ) → IsComparedForm text.now name expected digits
        → slice_get names.now i ≡ Some name → result ≡ Some Why.Range }
    ensures unknown { (name expected digits : List ℕ) → IsComparedForm text.now name expected digits
        → ((i : ℕ) → ¬ (slice_get names.now i ≡ Some name)) → result ≡ Some Why.Name }
{
    let (name, _, _) = compared_parts(text)?;
    match names.find(name) {
        Some(_) => Some(Why::Range),
        None => Some(Why::Name),
    }
}

/// Why a text is no operation, where it is none: for a read Name, since its register is not known; for another
/// operation Name where its register is not known, else Range. None where the text has the form of no operation.
pub fn op_form<A: Allocator + Copy>(text: &[u8], names: &Names<A>) -> Option<Why>
    ensures form { IfSome result (λ why. HasOpForm text.now × ((why ≡ Why.Range) ⊎ (why ≡ Why.Name))) }
    ensures whole { HasOpForm text.now → IsSome result }
    ensures read { (name : List ℕ) → IsReadForm text.now name → result ≡ Some Why.Name }
    ensures known { (name digits : List ℕ) (i : ℕ) → IsWriteForm text.now name digits
        → slice_get names.now i ≡ Some name → result ≡ Some Why.Range }
    ensures unknown { (name digits : List ℕ) → IsWriteForm text.now name digits
        → ((i : ℕ) → ¬ (slice_get names.now i ≡ Some name)) → result ≡ Some Why.Name }
    ensures known_swap { (name digits : List ℕ) (i : ℕ) → IsSwapForm text.now name digits
        → slice_get names.now i ≡ Some name → result ≡ Some Why.Range }
    ensures unknown_swap { (name digits : List ℕ) → IsSwapForm text.now name digits
        → ((i : ℕ) → ¬ (slice_get names.now i ≡ Some name)) → result ≡ Some Why.Name }
    ensures known_cas { (name expected digits : List ℕ) (i : ℕ) → IsCasForm text.now name expected digits
        → slice_get names.now i ≡ Some name → result ≡ Some Why.Range }
    ensures unknown_cas { (name expected digits : List ℕ) → IsCasForm text.now name expected digits
        → ((i : ℕ) → ¬ (slice_get names.now i ≡ Some name)) → result ≡ Some Why.Name }
{
    if let Some(name) = skip(text, b"read ") {
        if !is_word(name) {
            return None;
        }
        return Some(Why::Name);
    }
    if let Some(rest) = skip(text, b"write ") {
        return valued_form(rest, names);
    }
    if let Some(rest) = skip(text, b"swap ") {
        return valued_form(rest, names);
    }
    compared_form(skip(text, b"cas ")?, names)
}
