//! Numbers within a limit.
ghost use Rattle.std.specs.Prelude.{◌≡◌, ◌<◌, ◌≤◌, ◌^◌, ℕ, List, ◌∷◌, ◌++◌, None, Some, IfSome, IsSomeAnd};
ghost use Rattle.std.specs.Fmt.{decimal};

use crate::fields::{cut_at, digit, numeral};

/// The number that the bytes spell in decimal, with no sign and no needless zero. None where they spell none up to the
/// limit.
#[inline]
pub fn numeral_within(bytes: &[u8], limit: u64) -> Option<u64>
    ensures read { IfSome result (λ n. (bytes.now ≡ decimal n) × (n ≤ limit)) }
    ensures whole { (n : ℕ) → n ≤ limit → bytes.now ≡ decimal n → result ≡ Some n }
{
    let number = numeral(bytes)?;
    if number <= limit { Some(number) } else { None }
}

/// A number, a mark, and the rest. One digit, which most numbers are, is read with its mark.
#[inline]
fn field(bytes: &[u8], mark: u8) -> Option<(u64, &[u8])>
    requires { mark < 48 }
    ensures read { IfSome result (λ p. (bytes.now ≡ decimal p.0 ++ mark ∷ p.1.now) × (p.0 < 2 ^ 64)) }
    ensures whole { (n : ℕ) (rest : List ℕ) → n < 2 ^ 64 → bytes.now ≡ decimal n ++ mark ∷ rest
        → IsSomeAnd result (λ p. (p.0 ≡ n) × (p.1.now ≡ rest)) }
{
    if let [first, second, rest @ ..] = bytes {
        if *second == mark {
            let number = digit(*first)?;
            return Some((number, rest));
        }
    }
    let (digits, rest) = cut_at(bytes, mark)?;
    let number = numeral(digits)?;
    Some((number, rest))
}

/// The number before the first mark, and what stands after it. The mark is a byte below the digits. None where no
/// number up to the limit stands there, in decimal, with no sign and no needless zero.
#[inline]
pub fn field_within(bytes: &[u8], limit: u64, mark: u8) -> Option<(u64, &[u8])>
    requires { mark < 48 }
    ensures read { IfSome result (λ p. (bytes.now ≡ decimal p.0 ++ mark ∷ p.1.now) × (p.0 ≤ limit)) }
    ensures whole { (n : ℕ) (rest : List ℕ) → n ≤ limit → bytes.now ≡ decimal n ++ mark ∷ rest
        → IsSomeAnd result (λ p. (p.0 ≡ n) × (p.1.now ≡ rest)) }
{
    let (number, rest) = field(bytes, mark)?;
    if number <= limit {
        Some((number, rest))
    } else {
        None
    }
}
