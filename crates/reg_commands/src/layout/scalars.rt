//! Values without quotes and brackets: numbers, dates, and words.
use crate::layout::bytes::first;

/// A value without quotes and brackets.
#[derive(Clone, Copy, PartialEq, Eq)]
pub(crate) enum Scalar {
    Integer(i64),
    /// A number with a point or an exponent, a date, a time, or a word.
    Other,
}

/// The digit of numbers with this radix, of at most 16.
fn digit_of(byte: u8, radix: u64) -> Option<u64> {
    let digit = match byte {
        b'0'..=b'9' => byte - b'0',
        b'a'..=b'f' => byte - b'a' + 10,
        b'A'..=b'F' => byte - b'A' + 10,
        _ => return None,
    };
    if u64::from(digit) < radix {
        Some(u64::from(digit))
    } else {
        None
    }
}

/// The number that these digits say, which may have single underscores between them.
fn magnitude(digits: &[u8], radix: u64) -> Option<u64> {
    let mut number = 0u64;
    let mut is_behind_digit = false;
    for byte in digits {
        if *byte == b'_' && is_behind_digit {
            is_behind_digit = false;
            continue;
        }
        let digit = digit_of(*byte, radix)?;
        number = number.checked_mul(radix)?.checked_add(digit)?;
        is_behind_digit = true;
    }
    if is_behind_digit { Some(number) } else { None }
}

/// The number that these hexadecimal digits say.
pub(crate) fn hexadecimal(digits: &[u8]) -> Option<u64> {
    if digits.iter().all(|b| b.is_ascii_hexdigit()) {
        magnitude(digits, 16)
    } else {
        None
    }
}

/// Without the sign at the start, and whether it is a minus.
fn unsigned(word: &[u8]) -> (&[u8], bool) {
    match word.split_first() {
        Some((b'-', rest)) => (rest, true),
        Some((b'+', rest)) => (rest, false),
        _ => (word, false),
    }
}

/// The integer that a word is.
fn integer(word: &[u8]) -> Option<i64> {
    let prefixed = match word {
        [b'0', b'x', digits @ ..] => Some((digits, 16)),
        [b'0', b'o', digits @ ..] => Some((digits, 8)),
        [b'0', b'b', digits @ ..] => Some((digits, 2)),
        _ => None,
    };
    if let Some((digits, radix)) = prefixed {
        return i64::try_from(magnitude(digits, radix)?).ok();
    }
    let (digits, is_minus) = unsigned(word);
    if digits.len() > 1 && first(digits) == b'0' {
        return None;
    }
    let number = magnitude(digits, 10)?;
    if is_minus {
        0i64.checked_sub_unsigned(number)
    } else {
        i64::try_from(number).ok()
    }
}

/// How many digits stand at the start, with single underscores between them; None where there is none.
fn digits_at(word: &[u8]) -> Option<usize> {
    let count = word
        .iter()
        .take_while(|b| b.is_ascii_digit() || **b == b'_')
        .count();
    let digits = word.get(..count)?;
    let is_apart = digits.iter().any(|b| *b == b'_');
    if count == 0 || is_apart && first(digits) == b'_' || digits.last() == Some(&b'_') {
        return None;
    }
    Some(count)
}

/// Whether a word is a number with a point or an exponent, infinite, or none.
fn is_float(word: &[u8]) -> bool {
    let (rest, _) = unsigned(word);
    if rest == b"inf".as_slice() || rest == b"nan".as_slice() {
        return true;
    }
    let Some(whole) = digits_at(rest) else {
        return false;
    };
    let mut behind = rest.get(whole..).unwrap_or(&[]);
    if whole > 1 && first(rest) == b'0' {
        return false;
    }
    if let Some((b'.', fraction)) = behind.split_first() {
        match digits_at(fraction) {
            Some(count) => behind = fraction.get(count..).unwrap_or(&[]),
            None => return false,
        }
    }
    match behind.split_first() {
        // (an integer that is too large is none)
        None => whole < rest.len(),
        Some((b'e' | b'E', exponent)) => {
            let (digits, _) = unsigned(exponent);
            digits_at(digits) == Some(digits.len())
        }
        Some(_) => false,
    }
}

/// Whether all bytes are digits.
fn are_digits(bytes: &[u8]) -> bool {
    bytes.iter().all(|b| b.is_ascii_digit())
}

/// Whether a word begins as a date or a time does.
fn is_time(word: &[u8]) -> bool {
    match word {
        [y, e, a, r, b'-', m, n, b'-', d, f, ..] => are_digits(&[*y, *e, *a, *r, *m, *n, *d, *f]),
        [h, i, b':', m, n, ..] => are_digits(&[*h, *i, *m, *n]),
        _ => false,
    }
}

/// Whether it may stand in a word.
fn is_plain(byte: u8) -> bool {
    byte.is_ascii_alphanumeric() || matches!(byte, b'+' | b'-' | b'_' | b'.' | b':')
}

/// The value without quotes and brackets at the start, and what stands after it.
pub(crate) fn scalar_at(bytes: &[u8]) -> Option<(Scalar, &[u8])> {
    let count = bytes.iter().take_while(|b| is_plain(**b)).count();
    let word = bytes.get(..count)?;
    let rest = bytes.get(count..)?;
    if let Some(number) = integer(word) {
        return Some((Scalar::Integer(number), rest));
    }
    let is_word = word == b"true".as_slice() || word == b"false".as_slice();
    if is_word || is_float(word) || is_time(word) {
        Some((Scalar::Other, rest))
    } else {
        None
    }
}
