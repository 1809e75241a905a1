//! The columns of the line of an entry by their form, whatever the limits.
ghost use Rattle.std.specs.Prelude.{◌≡◌, ◌++◌, ℕ, List, length, true, IfSome, IsSomeAnd};
ghost use Rattle.reg_text.specs.Columns.{to_left, to_right};
ghost use Rattle.reg_text.specs.Forms.{is_numeral as is_numeral_of};
ghost use Rattle.reg_history.specs.LineForms.{FitsColumn, HasColumns};

use reg_text::{cut, in_front, is_numeral, skip, spaces_before};

/// What stands after the spaces at the start.
fn behind(bytes: &[u8]) -> &[u8]
    ensures only { bytes.now ≡ to_right (length bytes.now) result.now }
    ensures whole { (digits : List ℕ) → is_numeral_of digits ≡ true → bytes.now ≡ to_right (length bytes.now) digits
        → result.now ≡ digits }
{
    let start = spaces_before(bytes);
    &bytes[start..]
}

/// A numeral at the right of its column, a mark, and the rest.
fn right_numeral<'a>(bytes: &'a [u8], places: usize, mark: &[u8]) -> Option<(&'a [u8], &'a [u8])>
    ensures read { IfSome result (λ p. FitsColumn places p.0.now
        × (bytes.now ≡ to_right places p.0.now ++ (mark.now ++ p.1.now))) }
    ensures whole { (digits rest : List ℕ) → FitsColumn places digits
        → bytes.now ≡ to_right places digits ++ (mark.now ++ rest)
        → IsSomeAnd result (λ p. (p.0.now ≡ digits) × (p.1.now ≡ rest)) }
{
    let (column, after) = cut(bytes, places)?;
    let digits = behind(column);
    if !is_numeral(digits) {
        return None;
    }
    let rest = skip(after, mark)?;
    Some((digits, rest))
}

/// A numeral at the left of its column, a mark, and the rest.
fn left_numeral<'a>(bytes: &'a [u8], places: usize, mark: &[u8]) -> Option<(&'a [u8], &'a [u8])>
    ensures read { IfSome result (λ p. FitsColumn places p.0.now
        × (bytes.now ≡ to_left places p.0.now ++ (mark.now ++ p.1.now))) }
    ensures whole { (digits rest : List ℕ) → FitsColumn places digits
        → bytes.now ≡ to_left places digits ++ (mark.now ++ rest)
        → IsSomeAnd result (λ p. (p.0.now ≡ digits) × (p.1.now ≡ rest)) }
{
    let (column, after) = cut(bytes, places)?;
    let digits = in_front(column);
    if !is_numeral(digits) {
        return None;
    }
    let rest = skip(after, mark)?;
    Some((digits, rest))
}

/// The numerals of the columns of a line, and the rest.
pub fn columns_form(line: &[u8]) -> Option<(&[u8], &[u8], &[u8], &[u8])>
    ensures read { IfSome result (λ p. HasColumns line.now p.0.now p.1.now p.2.now p.3.now) }
    ensures whole { (at process number rest : List ℕ) → HasColumns line.now at process number rest
        → IsSomeAnd result (λ p. (p.0.now ≡ at) × (p.1.now ≡ process) × (p.2.now ≡ number) × (p.3.now ≡ rest)) }
{
    let (at, after) = right_numeral(line, 8, b"  p")?;
    let (process, others) = left_numeral(after, 3, b"  #")?;
    let (number, rest) = left_numeral(others, 6, b"  ")?;
    Some((at, process, number, rest))
}
