//! The head lines that schedules and records have in common, and their readers.
ghost use Rattle.std.specs.Prelude.{◌≡◌, ◌<◌, ◌≤◌, ℕ, List, [], ◌∷◌, ◌++◌, codes, true, false, Err, IfOk, IfErr};
ghost use Rattle.std.specs.Prelude.{MatchResult, if◌then◌else◌};
ghost use Rattle.std.specs.Fmt.{decimal};
ghost use Rattle.reg_front.specs.declared.named.Front.{Front as AnyFront};
ghost use Rattle.reg_front.specs.Table.{front_name};
ghost use Rattle.reg_text.specs.Lines.{IsAsked};
ghost use Rattle.reg_text.specs.Forms.{is_numeral};
ghost use Rattle.reg_text.specs.declared.faults.Why.{Why as AnyWhy};
ghost use Rattle.reg_inputs.specs.LineForms.{is_front_form};

use reg_base::limits::MOST_PROCESSES;
use reg_front::Front;
use reg_text::{Lines, TextFault, Why, are_front_letters, read_count, skip};
use std::str;

/// Another word of letters and hyphens is a name that is not known.
fn why_front(word: &[u8]) -> Why
    ensures { result ≡ (if is_front_form word.now then Why.Name else Why.Form) }
{
    if !word.is_empty() && are_front_letters(word) {
        Why::Name
    } else {
        Why::Form
    }
}

/// The front end that the next line names: `front` and its name, as in `front linear`.
///
/// # Errors
///
/// `Line` names the line: `Name` says that a word of letters and hyphens is the name of no front end, `Form` that the
/// line names no front end, `End` that no line is left.
pub fn read_front(lines: &mut Lines<'_>) -> Result<Front, TextFault>
    ensures read { IfOk result (λ f. lines.old.left ≡ (codes "front " ++ front_name f) ∷ lines.new.left) }
    ensures whole { (f : AnyFront) (rest : List (List ℕ)) → lines.old.left ≡ (codes "front " ++ front_name f) ∷ rest
        → MatchResult result (λ g. (g ≡ f) × (lines.new.left ≡ rest)) (λ _. ⊥) }
    ensures end { lines.old.left ≡ [] → result ≡ Err (TextFault.Line lines.new.number Why.End) }
    ensures name { (word : List ℕ) (rest : List (List ℕ)) → is_front_form word ≡ true
        → lines.old.left ≡ (codes "front " ++ word) ∷ rest
        → IfErr result (λ f. f ≡ TextFault.Line lines.new.number Why.Name) }
    ensures form { (line : List ℕ) (rest : List (List ℕ)) → lines.old.left ≡ line ∷ rest
        → ((word : List ℕ) → line ≡ codes "front " ++ word → is_front_form word ≡ false)
        → result ≡ Err (TextFault.Line lines.new.number Why.Form) }
    ensures fault { IfErr result (λ f. (why : AnyWhy) × (f ≡ TextFault.Line lines.new.number why)) }
    ensures asked { IsAsked lines.old lines.new }
{
    let Some(line) = lines.next() else {
        return Err(lines.fault(Why::End));
    };
    let Some(word) = skip(line, b"front ") else {
        return Err(lines.fault(Why::Form));
    };
    match str::from_utf8(word) {
        Ok(name) => match Front::from_name(name) {
            Some(front) => Ok(front),
            None => Err(lines.fault(why_front(word))),
        },
        Err(_) => Err(lines.fault(Why::Form)),
    }
}

/// The number of processes that the next line tells: `processes` and a number from 1 to `MOST_PROCESSES`.
///
/// # Errors
///
/// `Line` names the line: `Range` says that the number is out of range, `Form` that the line has no number of
/// processes, `End` that there is no line left.
pub fn read_processes(lines: &mut Lines<'_>) -> Result<u32, TextFault>
    ensures read { IfOk result
        (λ n. (lines.old.left ≡ (codes "processes " ++ decimal n) ∷ lines.new.left) × (0 < n) × (n ≤ MOST_PROCESSES)) }
    ensures whole { (n : ℕ) (rest : List (List ℕ)) → 0 < n → n ≤ MOST_PROCESSES
        → lines.old.left ≡ (codes "processes " ++ decimal n) ∷ rest
        → MatchResult result (λ m. (m ≡ n) × (lines.new.left ≡ rest)) (λ _. ⊥) }
    ensures end { lines.old.left ≡ [] → result ≡ Err (TextFault.Line lines.new.number Why.End) }
    ensures range { (digits : List ℕ) (rest : List (List ℕ)) → is_numeral digits ≡ true
        → lines.old.left ≡ (codes "processes " ++ digits) ∷ rest
        → IfErr result (λ f. f ≡ TextFault.Line lines.new.number Why.Range) }
    ensures form { (line : List ℕ) (rest : List (List ℕ)) → lines.old.left ≡ line ∷ rest
        → ((digits : List ℕ) → line ≡ codes "processes " ++ digits → is_numeral digits ≡ false)
        → result ≡ Err (TextFault.Line lines.new.number Why.Form) }
    ensures fault { IfErr result (λ f. (why : AnyWhy) × (f ≡ TextFault.Line lines.new.number why)) }
    ensures asked { IsAsked lines.old lines.new }
{
    let processes = read_count(lines, b"processes ", MOST_PROCESSES as u64)?;
    if processes == 0 {
        return Err(lines.fault(Why::Range));
    }
    Ok(processes as u32)
}
