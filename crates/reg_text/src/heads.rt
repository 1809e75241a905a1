//! Lines that are wanted as they are, and lines with one number or word.
ghost use Rattle.std.specs.Prelude.{◌≡◌, ◌≢◌, ◌<◌, ◌≤◌, ℕ, List, [], ◌∷◌, ◌++◌, Ok, Err, None, Some, true, false, IfOk};
ghost use Rattle.std.specs.Prelude.{IfErr, OnOk, MatchResult, MatchOption, string_bytes};
ghost use Rattle.std.specs.Fmt.{decimal};
ghost use Rattle.std.specs.Str.{IsUtf8};
ghost use Rattle.std.specs.List.{list_all};
ghost use Rattle.reg_text.specs.Lines.{IsAsked};
ghost use Rattle.reg_text.specs.declared.faults.Why.{Why as AnyWhy};
ghost use Rattle.reg_text.specs.Forms.{is_numeral};
ghost use Rattle.reg_text.specs.Words.{is_front_letter};

use crate::cursor::Lines;
use crate::faults::{TextFault, Why};
use crate::fields::skip;
use crate::forms::why_number;
use crate::numbers::numeral_within;
use std::alloc::{AllocError, Allocator};
use std::str;

/// Asks for the next line, which has to be this text.
///
/// # Errors
///
/// A fault of this line: End where the text ends before it, and Form where it is another one.
pub fn expect_line(lines: &mut Lines<'_>, text: &[u8]) -> Result<(), TextFault>
    ensures read { OnOk result (lines.old.left ≡ text.now ∷ lines.new.left) }
    ensures whole { (rest : List (List ℕ)) → lines.old.left ≡ text.now ∷ rest
        → MatchResult result (λ _. lines.new.left ≡ rest) (λ _. ⊥) }
    ensures end { lines.old.left ≡ [] → result ≡ Err (TextFault.Line lines.new.number Why.End) }
    ensures form { (line : List ℕ) (rest : List (List ℕ)) → lines.old.left ≡ line ∷ rest → line ≢ text.now
        → result ≡ Err (TextFault.Line lines.new.number Why.Form) }
    ensures fault { IfErr result (λ f. (why : AnyWhy) × (f ≡ TextFault.Line lines.new.number why)) }
    ensures asked { IsAsked lines.old lines.new }
{
    match lines.next() {
        Some(line) => {
            if line == text {
                Ok(())
            } else {
                Err(lines.fault(Why::Form))
            }
        }
        None => Err(lines.fault(Why::End)),
    }
}

/// Asks for the next line, which has to be the mark and a number up to the limit, and gives the number.
///
/// # Errors
///
/// A fault of this line: End where the text ends before it, Range where the mark and a numeral beyond the limit stand
/// there, and Form for anything else.
pub fn read_count(lines: &mut Lines<'_>, mark: &[u8], limit: u64) -> Result<u64, TextFault>
    ensures read { IfOk result (λ n. (lines.old.left ≡ (mark.now ++ decimal n) ∷ lines.new.left) × (n ≤ limit)) }
    ensures whole { (n : ℕ) (rest : List (List ℕ)) → n ≤ limit → lines.old.left ≡ (mark.now ++ decimal n) ∷ rest
        → MatchResult result (λ m. (m ≡ n) × (lines.new.left ≡ rest)) (λ _. ⊥) }
    ensures end { lines.old.left ≡ [] → result ≡ Err (TextFault.Line lines.new.number Why.End) }
    ensures range { (digits : List ℕ) (rest : List (List ℕ)) → is_numeral digits ≡ true
        → lines.old.left ≡ (mark.now ++ digits) ∷ rest
        → IfErr result (λ f. f ≡ TextFault.Line lines.new.number Why.Range) }
    ensures form { (line : List ℕ) (rest : List (List ℕ)) → lines.old.left ≡ line ∷ rest
        → ((digits : List ℕ) → line ≡ mark.now ++ digits → is_numeral digits ≡ false)
        → result ≡ Err (TextFault.Line lines.new.number Why.Form) }
    ensures fault { IfErr result (λ f. (why : AnyWhy) × (f ≡ TextFault.Line lines.new.number why)) }
    ensures asked { IsAsked lines.old lines.new }
{
    let Some(line) = lines.next() else {
        return Err(lines.fault(Why::End));
    };
    let Some(digits) = skip(line, mark) else {
        return Err(lines.fault(Why::Form));
    };
    let Some(number) = numeral_within(digits, limit) else {
        return Err(lines.fault(why_number(digits)));
    };
    Ok(number)
}

/// A copy of the bytes as a text, None where they are not UTF-8.
///
/// # Errors
///
/// There was no memory for the copy.
pub fn owned<A: Allocator + Copy>(alloc: A, word: &[u8]) -> Result<Option<String<A>>, AllocError>
    ensures { IfOk result (λ o. MatchOption o (¬ IsUtf8 word.now) (λ s. string_bytes s ≡ word.now)) }
{
    match str::from_utf8(word) {
        Ok(text) => Ok(Some(String::from_str(alloc, text)?)),
        Err(_) => Ok(None),
    }
}

fn is_letter(b: u8) -> bool
    ensures { result ≡ is_front_letter b }
{
    b.is_ascii_lowercase() || b == b'-'
}

/// Whether all bytes, if there are any, are letters a to z or hyphens.
pub fn are_front_letters(word: &[u8]) -> bool
    ensures { result ≡ list_all is_front_letter word.now }
{
    word.iter().all(|b| is_letter(*b))
}
