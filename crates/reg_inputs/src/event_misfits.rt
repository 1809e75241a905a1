//! The first word of an event's line, or of an operation, that doesn't fit.
ghost use Rattle.std.specs.Prelude.{◌≡◌, ◌≤◌, ℕ, List, None, IfSome};
ghost use Rattle.reg_base.specs.Names.{names_fault};
ghost use Rattle.reg_text.specs.Reading.{Starts};
ghost use Rattle.reg_text.specs.Words.{names_text};
ghost use Rattle.reg_inputs.specs.declared.misfits.Rule.TheVariants.{Form, Limits};
ghost use Rattle.reg_inputs.specs.LineForms.{IsLineWhy};
ghost use Rattle.reg_inputs.specs.Misfits.{AreApart, AreWordsOf, IsOpBy, IsEventBy, TellsMisfit, why_of};
ghost use Rattle.reg_inputs.specs.Arguments.{AreOpWords, AreCallWords, AreEventWords, TellsWords, IsOpWordsWhy};
ghost use Rattle.reg_inputs.specs.Arguments.{IsCallWordsWhy, IsEventWordsWhy};

use crate::misfits::{
    Misfit, Rule, Wanted, arguments_misfit, arguments_of, first_word, fits, next_word,
};
use reg_base::Names;
use reg_text::skip;
use std::alloc::Allocator;

/// The first word of a text, with so many words before it, that doesn't fit as those of an operation.
fn op_misfit_by<A: Allocator + Copy>(
    text: &[u8],
    before: usize,
    names: &Names<A>,
    rule: Rule,
) -> Option<Misfit>
    requires few { before ≤ 2 }
    requires named { names_fault names.now ≡ None }
    ensures told { (words : List (List ℕ)) → AreWordsOf text.now words
        → TellsWords (AreOpWords rule names.now) before rule names.now words result }
    ensures why { (words : List (List ℕ)) → AreWordsOf text.now words → rule ≡ Limits → AreOpWords Form names.now words
        → IfSome result (λ m. IsOpWordsWhy names.now words (why_of Limits m.wanted)) }
{
    let (word, rest) = first_word(text);
    match arguments_of(word) {
        Some(arguments) => arguments_misfit(rest, before + 1, arguments, names, rule),
        None => Some(Misfit {
            word: before,
            wanted: Wanted::Operation,
            rule,
        }),
    }
}

/// The first word that doesn't fit behind the first of a call.
fn call_misfit<A: Allocator + Copy>(text: &[u8], names: &Names<A>, rule: Rule) -> Option<Misfit>
    requires named { names_fault names.now ≡ None }
    requires starts { Starts 32 text.now }
    ensures told { (words : List (List ℕ)) → AreApart words → text.now ≡ names_text words
        → TellsWords (AreCallWords rule names.now) 1 rule names.now words result }
    ensures why { (words : List (List ℕ)) → AreApart words → text.now ≡ names_text words → rule ≡ Limits
        → AreCallWords Form names.now words
        → IfSome result (λ m. IsCallWordsWhy names.now words (why_of Limits m.wanted)) }
{
    let Some((process, rest)) = next_word(text) else {
        return Some(Misfit {
            word: 1,
            wanted: Wanted::Process,
            rule,
        });
    };
    if !fits(process, Wanted::Process, names, rule) {
        return Some(Misfit {
            word: 1,
            wanted: Wanted::Process,
            rule,
        });
    }
    match skip(rest, b" ") {
        Some(op) => op_misfit_by(op, 2, names, rule),
        None => Some(Misfit {
            word: 2,
            wanted: Wanted::Operation,
            rule,
        }),
    }
}

/// The first word of a line that doesn't fit as those of an event's.
pub(crate) fn event_misfit_by<A: Allocator + Copy>(
    line: &[u8],
    names: &Names<A>,
    rule: Rule,
) -> Option<Misfit>
    requires named { names_fault names.now ≡ None }
    ensures told { (words : List (List ℕ)) → AreWordsOf line.now words
        → TellsWords (AreEventWords rule names.now) 0 rule names.now words result }
    ensures why { (words : List (List ℕ)) → AreWordsOf line.now words → rule ≡ Limits
        → AreEventWords Form names.now words
        → IfSome result (λ m. IsEventWordsWhy names.now words (why_of Limits m.wanted)) }
{
    let (word, rest) = first_word(line);
    if word == b"call".as_slice() {
        return call_misfit(rest, names, rule);
    }
    if word == b"take".as_slice() {
        let arguments = [Wanted::Process, Wanted::Process, Wanted::Frame];
        return arguments_misfit(rest, 1, &arguments, names, rule);
    }
    if word == b"tick".as_slice() {
        return arguments_misfit(rest, 1, &[Wanted::Process], names, rule);
    }
    Some(Misfit {
        word: 0,
        wanted: Wanted::Event,
        rule,
    })
}

/// The first word of a text that doesn't fit as those of an operation. None where it is one.
pub fn op_misfit<A: Allocator + Copy>(text: &[u8], names: &Names<A>) -> Option<Misfit>
    requires { names_fault names.now ≡ None }
    ensures is { result ≡ None → IsOpBy names.now Limits text.now }
    ensures misfit { IfSome result (TellsMisfit (IsOpBy names.now) names.now text.now) }
{
    match op_misfit_by(text, 0, names, Rule::Form) {
        Some(misfit) => Some(misfit),
        None => op_misfit_by(text, 0, names, Rule::Limits),
    }
}

/// The first word of a line that doesn't fit as those of an event's. None where it is one.
pub(crate) fn event_misfit<A: Allocator + Copy>(line: &[u8], names: &Names<A>) -> Option<Misfit>
    requires { names_fault names.now ≡ None }
    ensures is { result ≡ None → IsEventBy names.now Limits line.now }
    ensures misfit { IfSome result (TellsMisfit (IsEventBy names.now) names.now line.now) }
    ensures why { IfSome result (λ m. IsLineWhy names.now line.now (why_of m.rule m.wanted)) }
{
    match event_misfit_by(line, names, Rule::Form) {
        Some(misfit) => Some(misfit),
        None => event_misfit_by(line, names, Rule::Limits),
    }
}
