//! The first word of a line that doesn't fit, and what may stand in its place.
ghost use Rattle.std.specs.Prelude.{◌≡◌, ◌≤◌, ◌↔◌, ℕ, List, ◌∷◌, ◌++◌, length, Some, IfSome, IsTrue, IsSome};
ghost use Rattle.reg_text.specs.Parts.{Lacks};
ghost use Rattle.reg_text.specs.Reading.{Starts};
ghost use Rattle.reg_text.specs.Words.{names_text};
ghost use Rattle.reg_inputs.specs.Misfits.{IsEventWord, IsOperationWord, IsWanted, IsNumber, IsRegister, AreApart};
ghost use Rattle.reg_inputs.specs.Misfits.{why_of};
ghost use Rattle.reg_inputs.specs.Arguments.{TakesArguments, IsPlain, Stops};

use reg_base::Names;
use reg_text::{Why, cut_at, is_numeral, is_word, skip, within};
use std::alloc::Allocator;

/// By what the words of a line are judged.
#[derive(Clone, Copy, Debug, PartialEq, Eq)]
pub enum Rule {
    /// By their form: a number is any numeral, and the name of a register any word.
    Form,
    /// By their limits: a number is within its range, and a name is that of a register.
    Limits,
}

/// What may stand at a place of a line.
#[derive(Clone, Copy, Debug, PartialEq, Eq)]
pub enum Wanted {
    /// `call`, `take` or `tick`.
    Event,
    /// `read`, `write`, `swap` or `cas`.
    Operation,
    /// A process, as a number from 0 to 255.
    Process,
    /// The place of a frame on its wire, as a number of 32 bits.
    Frame,
    /// A value, as a number of 64 bits.
    Value,
    /// The name of a register.
    Register,
    /// The end of the line.
    End,
}

/// The first word of a line that doesn't fit. Each single space parts two words, so that a word may be empty.
#[derive(Clone, Copy, Debug, PartialEq, Eq)]
pub struct Misfit {
    /// How many words stand before it, all of which fit. A line that ends too early has no more.
    pub word: usize,
    /// What may stand in its place.
    pub wanted: Wanted,
    /// By what it was judged. Only a line that has the form of its kind is judged by the limits.
    pub rule: Rule,
}

impl Misfit {
    /// Why the line is refused.
    pub fn why(self) -> Why
        ensures { result ≡ why_of self.rule self.wanted }
    {
        match (self.rule, self.wanted) {
            (Rule::Form, _) => Why::Form,
            (Rule::Limits, Wanted::Process | Wanted::Frame | Wanted::Value) => Why::Range,
            (Rule::Limits, _) => Why::Name,
        }
    }
}

/// The first word, up to the first space or the end, and the rest from that space on.
pub(crate) fn first_word(text: &[u8]) -> (&[u8], &[u8])
    ensures parts { text.now ≡ result.0.now ++ result.1.now }
    ensures word { Lacks 32 result.0.now × Starts 32 result.1.now }
{
    match cut_at(text, b' ') {
        Some((word, _)) => (word, &text[word.len()..]),
        None => (text, b"".as_slice()),
    }
}

/// The word behind the space with which the text begins, and the rest from the next one on. None where it begins with
/// no space.
pub(crate) fn next_word(text: &[u8]) -> Option<(&[u8], &[u8])>
    ensures read { IfSome result (λ p. (text.now ≡ 32 ∷ (p.0.now ++ p.1.now)) × Lacks 32 p.0.now × Starts 32 p.1.now) }
    ensures whole { (rest : List ℕ) → text.now ≡ 32 ∷ rest → IsSome result }
{
    let rest = skip(text, b" ")?;
    Some(first_word(rest))
}

fn is_number(word: &[u8], most: u64, rule: Rule) -> bool
    ensures { IsTrue result ↔ IsNumber rule most word.now }
{
    match rule {
        Rule::Form => is_numeral(word),
        Rule::Limits => within(word, most),
    }
}

fn is_register<A: Allocator + Copy>(word: &[u8], names: &Names<A>, rule: Rule) -> bool
    ensures { IsTrue result ↔ IsRegister rule names.now word.now }
{
    match rule {
        Rule::Form => is_word(word),
        Rule::Limits => match names.find(word) {
            Some(_) => true,
            None => false,
        },
    }
}

fn is_event(word: &[u8]) -> bool
    ensures { IsTrue result ↔ IsEventWord word.now }
{
    word == b"call".as_slice() || word == b"take".as_slice() || word == b"tick".as_slice()
}

fn is_operation(word: &[u8]) -> bool
    ensures { IsTrue result ↔ IsOperationWord word.now }
{
    match arguments_of(word) {
        Some(_) => true,
        None => false,
    }
}

/// What stands behind the word of an operation. None where it is of no operation.
pub(crate) fn arguments_of(operation: &[u8]) -> Option<&'static [Wanted]>
    ensures read { IfSome result (λ arguments. TakesArguments operation.now arguments.now) }
    ensures whole { IsOperationWord operation.now → IsSome result }
{
    match operation {
        b"read" => Some(&[Wanted::Register]),
        b"write" | b"swap" => Some(&[Wanted::Register, Wanted::Value]),
        b"cas" => Some(&[Wanted::Register, Wanted::Value, Wanted::Value]),
        _ => None,
    }
}

/// Whether a word may stand where this is wanted.
pub(crate) fn fits<A: Allocator + Copy>(
    word: &[u8],
    wanted: Wanted,
    names: &Names<A>,
    rule: Rule,
) -> bool
    ensures { IsTrue result ↔ IsWanted rule names.now wanted (Some word.now) }
{
    match wanted {
        Wanted::Event => is_event(word),
        Wanted::Operation => is_operation(word),
        Wanted::Process => is_number(word, 255, rule),
        Wanted::Frame => is_number(word, 4_294_967_295, rule),
        Wanted::Value => is_number(word, u64::MAX, rule),
        Wanted::Register => is_register(word, names, rule),
        Wanted::End => false,
    }
}

/// The first word behind those before the text that isn't what is wanted in its place.
pub(crate) fn arguments_misfit<A: Allocator + Copy>(
    text: &[u8],
    before: usize,
    arguments: &[Wanted],
    names: &Names<A>,
    rule: Rule,
) -> Option<Misfit>
    requires few { (before ≤ 3) × (length arguments.now ≤ 3) }
    requires plain { IsPlain arguments.now }
    requires starts { Starts 32 text.now }
    ensures { (words : List (List ℕ)) → AreApart words → text.now ≡ names_text words
        → Stops before rule names.now arguments.now words result }
{
    let mut rest = text;
    let mut word = before;
    for argument in arguments {
        match next_word(rest) {
            Some((it, later)) if fits(it, *argument, names, rule) => rest = later,
            _ => {
                return Some(Misfit {
                    word,
                    wanted: *argument,
                    rule,
                });
            }
        }
        word += 1;
    }
    if rest.is_empty() {
        return None;
    }
    Some(Misfit {
        word,
        wanted: Wanted::End,
        rule,
    })
}
