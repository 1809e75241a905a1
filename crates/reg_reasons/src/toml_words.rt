//! The words of a TOML document that stand in no quotes: numbers, dates, and true and false.
use crate::scanning::{Signs, after, front_of, run_of};
use std::str;
use toml_datetime::Datetime;
use toml_parser::ErrorKind;

/// The word at the start. The space between a date and a time is part of it.
pub fn word_of(bytes: &[u8]) -> &[u8] {
    let length = run_of(bytes, Signs::Word);
    let time = match after(bytes, length) {
        [b' ', b'0'..=b'9', time @ ..] => run_of(time, Signs::Word).saturating_add(2),
        _ => 0,
    };
    front_of(bytes, length.saturating_add(time))
}

/// Whether a word is meant as a date or a time.
pub fn is_time(word: &[u8]) -> bool {
    let digits = run_of(word, Signs::Digit);
    digits > 0 && matches!(after(word, digits), [b'-' | b':', ..])
}

/// Whether a number is below zero, its radix, and its digits.
pub fn parts_of_number(word: &[u8]) -> (bool, u32, &[u8]) {
    match word {
        [b'0', b'x', digits @ ..] => (false, 16, digits),
        [b'0', b'o', digits @ ..] => (false, 8, digits),
        [b'0', b'b', digits @ ..] => (false, 2, digits),
        [b'-', digits @ ..] => (true, 10, digits),
        [b'+', digits @ ..] => (false, 10, digits),
        _ => (false, 10, word),
    }
}

fn is_digit(byte: u8, is_hexadecimal: bool) -> bool {
    byte.is_ascii_digit() || is_hexadecimal && byte.is_ascii_hexdigit()
}

/// Whether each underscore stands between two digits: in a number of the radix 16 of those, and else of decimal ones.
fn underscores_fit(word: &[u8]) -> bool {
    let is_hexadecimal = word.starts_with(b"0x");
    let mut before = b' ';
    for byte in word {
        let misses_before = *byte == b'_' && !is_digit(before, is_hexadecimal);
        if misses_before || before == b'_' && !is_digit(*byte, is_hexadecimal) {
            return false;
        }
        before = *byte;
    }
    before != b'_'
}

/// The number that these digits say, with underscores between them. None past 64 bits, or where another sign stands.
pub fn magnitude(digits: &[u8], radix: u32) -> Option<u64> {
    let mut number = 0u64;
    for byte in digits {
        if *byte != b'_' {
            let digit = char::from(*byte).to_digit(16)?;
            if digit >= radix {
                return None;
            }
            number = number
                .checked_mul(u64::from(radix))?
                .checked_add(u64::from(digit))?;
        }
    }
    Some(number)
}

/// A whole number: whether it is below zero, and how far it is from it. None past 64 bits, or where it isn't whole.
pub fn integer_of(word: &[u8]) -> Option<(bool, u64)> {
    let (is_negative, radix, digits) = parts_of_number(word);
    Some((is_negative, magnitude(digits, radix)?))
}

/// Whether digits stand here, with underscores, and nothing else.
fn are_digits(bytes: &[u8]) -> bool {
    !bytes.is_empty() && run_of(bytes, Signs::NumberPart) == bytes.len()
}

/// Whether nothing stands here, or the exponent of a number.
fn is_exponent(bytes: &[u8]) -> bool {
    match bytes {
        [] => true,
        [b'e' | b'E', b'+' | b'-', digits @ ..] | [b'e' | b'E', digits @ ..] => are_digits(digits),
        _ => false,
    }
}

/// Whether a point with digits behind it, an exponent, or both stand here.
fn ends_float(bytes: &[u8]) -> bool {
    match bytes {
        [b'.', fraction @ ..] => {
            let digits = run_of(fraction, Signs::NumberPart);
            digits > 0 && is_exponent(after(fraction, digits))
        }
        _ => is_exponent(bytes),
    }
}

/// What is wrong with a number of the radix 10, after its sign.
fn fault_of_decimal(digits: &[u8], is_negative: bool) -> Option<ErrorKind> {
    let whole = run_of(digits, Signs::NumberPart);
    let most = i64::MAX as u64 + u64::from(is_negative);
    match magnitude(digits, 10) {
        _ if digits == b"inf".as_slice() || digits == b"nan".as_slice() => None,
        _ if whole == 0 || whole > 1 && digits.starts_with(b"0") => Some(ErrorKind::Value),
        _ if whole < digits.len() && ends_float(after(digits, whole)) => None,
        _ if whole < digits.len() => Some(ErrorKind::Value),
        Some(number) if number <= most => None,
        _ => Some(ErrorKind::Overflow),
    }
}

/// What is wrong with a number.
fn fault_of_number(word: &[u8]) -> Option<ErrorKind> {
    if !underscores_fit(word) {
        return Some(ErrorKind::Underscore);
    }
    let (is_negative, radix, digits) = parts_of_number(word);
    if radix == 10 {
        return fault_of_decimal(digits, is_negative);
    }
    match magnitude(digits, radix) {
        Some(number) if !digits.is_empty() && number <= i64::MAX as u64 => None,
        _ => Some(ErrorKind::Value),
    }
}

/// Whether a word is a date or a time.
fn says_time(word: &[u8]) -> bool {
    match str::from_utf8(word) {
        Ok(text) => text.parse::<Datetime>().is_ok(),
        Err(_) => false,
    }
}

/// What is wrong with a word, of which it isn't looked at whether a number with a point is too large.
pub fn fault_of_word(word: &[u8]) -> Option<ErrorKind> {
    match word {
        [] => Some(ErrorKind::Value),
        b"true" | b"false" => None,
        _ if !is_time(word) => fault_of_number(word),
        _ if says_time(word) => None,
        _ => Some(ErrorKind::Datetime),
    }
}
