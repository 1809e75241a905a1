//! Exact readers of the parts of a line.
#![tactic(auto)]

ghost use Rattle.std.specs.Prelude.{◌≡◌, ◌==◌, ◌<◌, ◌≤◌, ◌^◌, ℕ, List, ◌++◌, length, Some, IfSome, IsSomeAnd, IsTrue};
ghost use Rattle.std.specs.Prelude.{◌↔◌, not, MatchOption, ◌∷◌, []};
ghost use Rattle.std.specs.Fmt.{decimal};
ghost use Rattle.std.specs.List.{prefix_len, list_all, position_from};
ghost use Rattle.reg_text.specs.Plain.{IsPlain};
ghost use Rattle.reg_text.specs.Columns.{to_right, to_left};
ghost use Rattle.reg_text.specs.Parts.{Lacks};

use std::str;

/// A numeral of no more digits than this fits into 64 bits.
const SHORT: usize = 19;

#[inline]
fn is_plain(bytes: &[u8]) -> bool
    ensures { IsTrue result ↔ IsPlain bytes.now }
{
    if bytes.is_empty() {
        return false;
    }
    let first = bytes[0];
    first != b'+' && (first != b'0' || bytes.len() == 1)
}

fn parsed(bytes: &[u8]) -> Option<u64>
    requires { IsPlain bytes.now }
    ensures read { IfSome result (λ n. (bytes.now ≡ decimal n) × (n < 2 ^ 64)) }
    ensures whole { (n : ℕ) → n < 2 ^ 64 → bytes.now ≡ decimal n → result ≡ Some n }
{
    match str::from_utf8(bytes) {
        Ok(text) => match text.parse::<u64>() {
            Ok(number) => Some(number),
            Err(_) => None,
        },
        Err(_) => None,
    }
}

/// The number that the bytes spell as a numeral, where they are so few that it fits into 64 bits.
#[inline]
fn parsed_short(bytes: &[u8]) -> Option<u64>
    requires plain { IsPlain bytes.now }
    requires short { length bytes.now ≤ SHORT }
    ensures read { IfSome result (λ n. (bytes.now ≡ decimal n) × (n < 2 ^ 64)) }
    ensures whole { (n : ℕ) → n < 2 ^ 64 → bytes.now ≡ decimal n → result ≡ Some n }
{
    let mut value = 0u64;
    for byte in bytes {
        if !byte.is_ascii_digit() {
            return None;
        }
        value = value * 10 + (*byte - b'0') as u64;
    }
    Some(value)
}

/// The number that one digit stands for.
#[inline]
pub(crate) fn digit(byte: u8) -> Option<u64>
    ensures read { IfSome result (λ n. (byte ∷ [] ≡ decimal n) × (n < 2 ^ 64)) }
    ensures whole { (n : ℕ) → n < 2 ^ 64 → byte ∷ [] ≡ decimal n → result ≡ Some n }
{
    if byte.is_ascii_digit() {
        Some((byte - b'0') as u64)
    } else {
        None
    }
}

/// The number of 64 bits that the bytes spell in decimal, with no sign and no needless zero. None for other bytes.
#[inline]
pub fn numeral(bytes: &[u8]) -> Option<u64>
    ensures read { IfSome result (λ n. (bytes.now ≡ decimal n) × (n < 2 ^ 64)) }
    ensures whole { (n : ℕ) → n < 2 ^ 64 → bytes.now ≡ decimal n → result ≡ Some n }
{
    if let [byte] = bytes {
        return digit(*byte);
    }
    if !is_plain(bytes) {
        return None;
    }
    if bytes.len() <= SHORT {
        parsed_short(bytes)
    } else {
        parsed(bytes)
    }
}

/// How many spaces stand at the start.
pub fn spaces_before(bytes: &[u8]) -> usize
    ensures count { result ≡ prefix_len (λ b. b == 32) bytes.now }
    ensures within { result ≤ length bytes.now }
{
    bytes.iter().take_while(|b| **b == b' ').count()
}

/// The number of 64 bits at the right of its column, which the bytes are. All before it is spaces. None for other
/// bytes.
pub fn right_column(bytes: &[u8]) -> Option<u64>
    ensures read { IfSome result (λ n. (bytes.now ≡ to_right (length bytes.now) (decimal n)) × (n < 2 ^ 64)) }
    ensures whole { (n : ℕ) → n < 2 ^ 64 → bytes.now ≡ to_right (length bytes.now) (decimal n) → result ≡ Some n }
{
    let start = spaces_before(bytes);
    numeral(&bytes[start..])
}

fn digits_before(bytes: &[u8]) -> usize
    ensures count { result ≡ prefix_len (λ b. not (b == 32)) bytes.now }
    ensures within { result ≤ length bytes.now }
{
    bytes.iter().take_while(|b| **b != b' ').count()
}

/// Whether all bytes are spaces.
pub fn is_blank(bytes: &[u8]) -> bool
    ensures { result ≡ list_all (λ b. b == 32) bytes.now }
{
    bytes.iter().all(|b| *b == b' ')
}

/// The number of 64 bits at the left of its column, which the bytes are. All after it is spaces. None for other bytes.
pub fn left_column(bytes: &[u8]) -> Option<u64>
    ensures read { IfSome result (λ n. (bytes.now ≡ to_left (length bytes.now) (decimal n)) × (n < 2 ^ 64)) }
    ensures whole { (n : ℕ) → n < 2 ^ 64 → bytes.now ≡ to_left (length bytes.now) (decimal n) → result ≡ Some n }
{
    let end = digits_before(bytes);
    if is_blank(&bytes[end..]) {
        numeral(&bytes[..end])
    } else {
        None
    }
}

/// The first `places` bytes, and the rest. None where there are fewer.
pub fn cut(bytes: &[u8], places: usize) -> Option<(&[u8], &[u8])>
    ensures read { IfSome result (λ p. (bytes.now ≡ p.0.now ++ p.1.now) × (length p.0.now ≡ places)) }
    ensures whole { (front rest : List ℕ) → bytes.now ≡ front ++ rest → length front ≡ places
        → IsSomeAnd result (λ p. (p.0.now ≡ front) × (p.1.now ≡ rest)) }
{
    bytes.split_at_checked(places)
}

/// What stands after the mark, None where the bytes don't begin with it.
pub fn skip<'a>(bytes: &'a [u8], mark: &[u8]) -> Option<&'a [u8]>
    ensures read { IfSome result (λ r. bytes.now ≡ mark.now ++ r.now) }
    ensures whole { (rest : List ℕ) → bytes.now ≡ mark.now ++ rest → IsSomeAnd result (λ r. r.now ≡ rest) }
{
    bytes.strip_prefix(mark)
}

/// The number of 64 bits at the left of a column of `places` bytes, and what stands after the mark that follows. None
/// where the bytes don't begin so: a number wider than its column is refused.
pub fn left_field<'a>(bytes: &'a [u8], places: usize, mark: &[u8]) -> Option<(u64, &'a [u8])>
    ensures read { IfSome result
        (λ p. (bytes.now ≡ to_left places (decimal p.0) ++ (mark.now ++ p.1.now)) × (p.0 < 2 ^ 64)) }
    ensures fits { IfSome result (λ p. length (decimal p.0) ≤ places) }
    ensures whole { (n : ℕ) (rest : List ℕ) → n < 2 ^ 64 → length (decimal n) ≤ places
        → bytes.now ≡ to_left places (decimal n) ++ (mark.now ++ rest)
        → IsSomeAnd result (λ p. (p.0 ≡ n) × (p.1.now ≡ rest)) }
{
    let (digits, after) = cut(bytes, places)?;
    left_column(digits).zip(skip(after, mark))
}

/// The number of 64 bits at the right of a column of `places` bytes, and what stands after the mark that follows. None
/// where the bytes don't begin so: a number wider than its column is refused.
pub fn right_field<'a>(bytes: &'a [u8], places: usize, mark: &[u8]) -> Option<(u64, &'a [u8])>
    ensures read { IfSome result
        (λ p. (bytes.now ≡ to_right places (decimal p.0) ++ (mark.now ++ p.1.now)) × (p.0 < 2 ^ 64)) }
    ensures fits { IfSome result (λ p. length (decimal p.0) ≤ places) }
    ensures whole { (n : ℕ) (rest : List ℕ) → n < 2 ^ 64 → length (decimal n) ≤ places
        → bytes.now ≡ to_right places (decimal n) ++ (mark.now ++ rest)
        → IsSomeAnd result (λ p. (p.0 ≡ n) × (p.1.now ≡ rest)) }
{
    let (digits, after) = cut(bytes, places)?;
    right_column(digits).zip(skip(after, mark))
}

fn place_of(bytes: &[u8], mark: u8) -> Option<usize>
    ensures place { result ≡ position_from (λ b. b == mark) 0 bytes.now }
    ensures within { IfSome result (λ i. i < length bytes.now) }
{
    bytes.iter().position(|b| *b == mark)
}

/// What stands before the first mark, and what after it. None where there is no mark.
pub fn cut_at(bytes: &[u8], mark: u8) -> Option<(&[u8], &[u8])>
    ensures read { MatchOption result (Lacks mark bytes.now)
        (λ p. (bytes.now ≡ p.0.now ++ mark ∷ p.1.now) × Lacks mark p.0.now) }
    ensures whole { (front rest : List ℕ) → Lacks mark front → bytes.now ≡ front ++ mark ∷ rest
        → IsSomeAnd result (λ p. (p.0.now ≡ front) × (p.1.now ≡ rest)) }
{
    match place_of(bytes, mark) {
        Some(place) => Some((&bytes[..place], &bytes[place + 1..])),
        None => None,
    }
}
