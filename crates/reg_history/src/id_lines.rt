//! The lines of an order and of points.
ghost use Rattle.std.specs.Prelude.{◌≡◌, ◌<◌, ℕ, List, ◌∷◌, ◌++◌, codes, true, IfSome, IsSome, IsSomeAnd};
ghost use Rattle.std.specs.Fmt.{decimal};
ghost use Rattle.reg_text.specs.Forms.{is_numeral as is_numeral_of};
ghost use Rattle.reg_history.specs.Versions.{most_processes};
ghost use Rattle.reg_history.specs.LineForms.{IsIdForm, HasIdForm, IsPointForm, HasPointForm};

use crate::items::Listed;
use crate::versions::Version;
use reg_base::OpId;
use reg_base::limits::{LAST_EVENT, MOST_OPERATIONS};
use reg_checkers::Point;
use reg_text::{cut_at, field_within, form, is_numeral, numeral_within, skip};

/// The numeral of the process of a line, and what stands after the sign of the number.
fn process_form(line: &[u8]) -> Option<(&[u8], &[u8])>
    ensures read { IfSome result
        (λ p. (is_numeral_of p.0.now ≡ true) × (line.now ≡ codes "p" ++ (p.0.now ++ 32 ∷ (codes "#" ++ p.1.now)))) }
    ensures whole { (process rest : List ℕ) → is_numeral_of process ≡ true
        → line.now ≡ codes "p" ++ (process ++ 32 ∷ (codes "#" ++ rest))
        → IsSomeAnd result (λ p. (p.0.now ≡ process) × (p.1.now ≡ rest)) }
{
    let text = skip(line, b"p")?;
    let (process, after) = cut_at(text, b' ')?;
    let rest = skip(after, b"#")?;
    if !is_numeral(process) {
        return None;
    }
    Some((process, rest))
}

fn id_form(line: &[u8]) -> Option<()>
    ensures read { IsSome result → HasIdForm line.now }
    ensures whole { (process number : List ℕ) → IsIdForm line.now process number → IsSome result }
{
    let (_, digits) = process_form(line)?;
    form(is_numeral(digits))
}

fn point_form(line: &[u8]) -> Option<()>
    ensures read { IsSome result → HasPointForm line.now }
    ensures whole { (process number at : List ℕ) → IsPointForm line.now process number at → IsSome result }
{
    let (_, rest) = process_form(line)?;
    let (number, last) = cut_at(rest, b' ')?;
    let event = skip(last, b"at ")?;
    if !is_numeral(number) {
        return None;
    }
    form(is_numeral(event))
}

/// The process of a line, within the limit, and what stands after the sign of the number.
fn read_process(line: &[u8], version: Version) -> Option<(u8, &[u8])>
    ensures read { IfSome result
        (λ p. (p.0 < most_processes version) × (line.now ≡ codes "p" ++ (decimal p.0 ++ 32 ∷ (codes "#" ++ p.1.now)))) }
    ensures whole { (process : ℕ) (rest : List ℕ) → process < most_processes version
        → line.now ≡ codes "p" ++ (decimal process ++ 32 ∷ (codes "#" ++ rest))
        → IsSomeAnd result (λ p. (p.0 ≡ process) × (p.1.now ≡ rest)) }
{
    let text = skip(line, b"p")?;
    let (process, after) = field_within(text, version.last_process() as u64, b' ')?;
    let rest = skip(after, b"#")?;
    Some((process as u8, rest))
}

impl Listed for OpId {
    ghost use Rattle.reg_history.specs.IdLines.{id_text, IdFits};
    ghost use Rattle.reg_history.specs.LineForms.{HasIdForm};

    ghost line_of = { id_text };

    ghost Fits = { IdFits };

    ghost HasForm = { HasIdForm };

    fn read(line: &[u8], version: Version) -> Option<OpId> {
        let (process, digits) = read_process(line, version)?;
        let number = numeral_within(digits, MOST_OPERATIONS as u64 - 1)?;
        Some(OpId {
            process,
            number: number as u32,
        })
    }

    fn has_form(line: &[u8]) -> bool {
        id_form(line).is_some()
    }

    fn fits(self, version: Version) -> bool {
        self.process <= version.last_process() && self.number < MOST_OPERATIONS
    }
}

impl Listed for Point {
    ghost use Rattle.reg_history.specs.IdLines.{point_text, PointFits};
    ghost use Rattle.reg_history.specs.LineForms.{HasPointForm};

    ghost line_of = { point_text };

    ghost Fits = { PointFits };

    ghost HasForm = { HasPointForm };

    fn read(line: &[u8], version: Version) -> Option<Point> {
        let (process, rest) = read_process(line, version)?;
        let (number, last) = field_within(rest, MOST_OPERATIONS as u64 - 1, b' ')?;
        let event = skip(last, b"at ")?;
        let at = numeral_within(event, LAST_EVENT as u64)?;
        Some(Point {
            id: OpId {
                process,
                number: number as u32,
            },
            at: at as u32,
        })
    }

    fn has_form(line: &[u8]) -> bool {
        point_form(line).is_some()
    }

    fn fits(self, version: Version) -> bool {
        self.id.fits(version) && self.at <= LAST_EVENT
    }
}
