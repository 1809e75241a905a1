//! The names of a line.
ghost use Rattle.std.specs.Prelude.{◌≡◌, ◌<◌, ◌≤◌, ℕ, List, [], ◌∷◌, ◌⊎◌, ◌++◌, Ok, Err, None, Some, IfOk, IfErr};
ghost use Rattle.std.specs.Prelude.{IfSome, IsSomeAnd, MatchResult, codes, length, true};
ghost use Rattle.reg_base.specs.Names.{names_fault, texts};
ghost use Rattle.std.specs.List.{list_all};
ghost use Rattle.reg_text.specs.declared.faults.Why.{Why as AnyWhy};
ghost use Rattle.reg_text.specs.Lines.{IsAsked};
ghost use Rattle.reg_text.specs.Parts.{Lacks};
ghost use Rattle.reg_text.specs.Forms.{is_word as is_word_of};
ghost use Rattle.reg_text.specs.Words.{names_text, AreWords, HasWords, IsNamesWhy};
ghost use Rattle.reg_text.specs.Reading.{Starts};
ghost use Rattle.reg_text.specs.WordsFaults.{IsWordsWhy};

use crate::cursor::Lines;
use crate::faults::{TextFault, Why};
use crate::fields::{cut_at, skip};
use crate::forms::is_word;
use crate::heads::owned;
use reg_base::Names;
use std::alloc::Allocator;

/// Why words are refused.
#[derive(Clone, Copy, Debug, PartialEq, Eq)]
pub enum WordsFault {
    /// What is wrong with them.
    Why(Why),
    /// There was no memory to keep them.
    OutOfMemory,
}

/// The word after a space, up to the next space or the end, and the rest. None where the text doesn't begin with a
/// space.
pub fn next_word(text: &[u8]) -> Option<(&[u8], &[u8])>
    ensures read { IfSome result (λ p. text.now ≡ 32 ∷ (p.0.now ++ p.1.now)) }
    ensures word { IfSome result (λ p. Lacks 32 p.0.now × Starts 32 p.1.now) }
    ensures whole { (word after : List ℕ) → Lacks 32 word → Starts 32 after → text.now ≡ 32 ∷ (word ++ after)
        → IsSomeAnd result (λ p. (p.0.now ≡ word) × (p.1.now ≡ after)) }
{
    let rest = skip(text, b" ")?;
    match cut_at(rest, b' ') {
        Some((word, _)) => Some((word, &rest[word.len()..])),
        None => Some((rest, b"".as_slice())),
    }
}

/// Why there may be no more words after these: Range where they are names that differ, and else Name.
fn why_more<A: Allocator + Copy>(words: Vec<String<A>, A>) -> Why
    ensures { ((result ≡ Why.Range) × (names_fault (texts words.items) ≡ None))
        ⊎ ((result ≡ Why.Name) × ¬ (names_fault (texts words.items) ≡ None)) }
{
    match Names::new(words) {
        Ok(_) => Why::Range,
        Err(_) => Why::Name,
    }
}

/// The words, each after a space, and no more than the limit. Where there are more, the first that is wrong from left
/// to right decides: Name for one within the limit, and else Range.
pub fn read_words<A: Allocator + Copy>(
    alloc: A,
    text: &[u8],
    limit: u32,
) -> Result<Vec<String<A>, A>, WordsFault>
    ensures read { IfOk result (λ v. (text.now ≡ names_text (texts v.items)) × (length (texts v.items) ≤ limit)) }
    ensures whole { (ns : List (List ℕ)) → names_fault ns ≡ None → length ns ≤ limit → text.now ≡ names_text ns
        → MatchResult result (λ v. texts v.items ≡ ns) (λ f. f ≡ WordsFault.OutOfMemory) }
    ensures words { (ws : List (List ℕ)) → list_all is_word_of ws ≡ true → text.now ≡ names_text ws
        → MatchResult result (λ v. texts v.items ≡ ws) (λ f. (f ≡ WordsFault.OutOfMemory) ⊎ IsWordsWhy limit ws f) }
{
    let mut words = Vec::new(alloc);
    let mut rest = text;
    for _turn in 0..limit {
        if rest.is_empty() {
            return Ok(words);
        }
        let Some((word, after)) = next_word(rest) else {
            return Err(WordsFault::Why(Why::Form));
        };
        let name = match owned(alloc, word) {
            Ok(Some(name)) => name,
            Ok(None) => return Err(WordsFault::Why(Why::Form)),
            Err(_) => return Err(WordsFault::OutOfMemory),
        };
        if words.push(name).is_err() {
            return Err(WordsFault::OutOfMemory);
        }
        rest = after;
    }
    if rest.is_empty() {
        return Ok(words);
    }
    Err(WordsFault::Why(why_more(words)))
}

/// Form where the words do not have it, and else the fault that is given.
fn why_names(text: &[u8], why: Why) -> Why
    ensures form { (result ≡ Why.Form) ⊎ ((result ≡ why) × HasWords text.now) }
    ensures words { (ws : List (List ℕ)) → AreWords ws → text.now ≡ names_text ws → result ≡ why }
{
    let mut rest = text;
    if rest.is_empty() {
        return Why::Form;
    }
    for _turn in 0..text.len() {
        if rest.is_empty() {
            return why;
        }
        match next_word(rest) {
            Some((word, after)) => {
                if !is_word(word) {
                    return Why::Form;
                }
                rest = after;
            }
            None => return Why::Form,
        }
    }
    why
}

/// Asks for the next line, which has to be `registers` and the names, each after a space and no more than the limit,
/// and gives the names.
///
/// # Errors
///
/// A fault of this line: End where the text ends before it; Form where it isn't `registers` and one word or more, each
/// after a space; Name where the words up to the limit are refused as names; Range where these are names, and there
/// are more. `OutOfMemory` where there was no memory for the names.
pub fn read_names<A: Allocator + Copy>(
    alloc: A,
    lines: &mut Lines<'_>,
    limit: u32,
) -> Result<Names<A>, TextFault>
    ensures read { IfOk result
        (λ n. (lines.old.left ≡ (codes "registers" ++ names_text n) ∷ lines.new.left) × (names_fault n ≡ None)) }
    ensures few { IfOk result (λ n. length n ≤ limit) }
    ensures whole { (ns : List (List ℕ)) (rest : List (List ℕ)) → names_fault ns ≡ None → length ns ≤ limit
        → lines.old.left ≡ (codes "registers" ++ names_text ns) ∷ rest
        → MatchResult result (λ n. (n ≡ ns) × (lines.new.left ≡ rest)) (λ f. f ≡ TextFault.OutOfMemory) }
    ensures words { (ws : List (List ℕ)) (rest : List (List ℕ)) → AreWords ws
        → lines.old.left ≡ (codes "registers" ++ names_text ws) ∷ rest
        → IfErr result
        (λ f. (f ≡ TextFault.OutOfMemory)
        ⊎ ((why : AnyWhy) × IsNamesWhy limit ws why × (f ≡ TextFault.Line lines.new.number why))) }
    ensures form { (line : List ℕ) (rest : List (List ℕ)) → lines.old.left ≡ line ∷ rest
        → ((text : List ℕ) → HasWords text → ¬ (line ≡ codes "registers" ++ text))
        → IfErr result (λ f. (f ≡ TextFault.OutOfMemory) ⊎ (f ≡ TextFault.Line lines.new.number Why.Form)) }
    ensures end { lines.old.left ≡ [] → result ≡ Err (TextFault.Line lines.new.number Why.End) }
    ensures fault { IfErr result
        (λ f. (f ≡ TextFault.OutOfMemory) ⊎ ((why : AnyWhy) × (f ≡ TextFault.Line lines.new.number why))) }
    ensures asked { IsAsked lines.old lines.new }
{
    let Some(line) = lines.next() else {
        return Err(lines.fault(Why::End));
    };
    let Some(text) = skip(line, b"registers") else {
        return Err(lines.fault(Why::Form));
    };
    match read_words(alloc, text, limit) {
        Ok(words) => match Names::new(words) {
            Ok(names) => Ok(names),
            Err(_) => Err(lines.fault(why_names(text, Why::Name))),
        },
        Err(WordsFault::Why(why)) => Err(lines.fault(why_names(text, why))),
        Err(WordsFault::OutOfMemory) => Err(TextFault::OutOfMemory),
    }
}
