//! What words of EDN are in JSON.
ghost use Rattle.std.specs.Prelude.{◌≡◌, ◌<◌, ◌/◌, ◌%◌, IfOk, OnOk};
ghost use Rattle.std.specs.List.{list_all};
ghost use Rattle.reg_observed.specs.EdnWords.{hex_digit, is_digit as is_decimal, is_integer as is_integer_word};
ghost use Rattle.reg_observed.specs.EdnWords.{is_natural as is_natural_word, json_byte, json_text, json_word};
ghost use Rattle.reg_observed.specs.EdnWords.{without_minus as without_minus_of};

use std::alloc::{AllocError, Global};

fn is_digit(byte: u8) -> bool
    ensures { result ≡ is_decimal byte }
{
    b'0' <= byte && byte <= b'9'
}

/// Whether the bytes are digits.
fn are_digits(word: &[u8]) -> bool
    ensures { result ≡ list_all is_decimal word.now }
{
    word.iter().all(|byte| is_digit(*byte))
}

/// Whether the bytes are digits, with no 0 before another.
fn is_natural(word: &[u8]) -> bool
    ensures { result ≡ is_natural_word word.now }
{
    if word.is_empty() {
        return false;
    }
    (word.len() == 1 || !word.starts_with(b"0")) && are_digits(word)
}

fn without_minus(word: &[u8]) -> &[u8]
    ensures { result.now ≡ without_minus_of word.now }
{
    if word.starts_with(b"-") {
        &word[1..]
    } else {
        word
    }
}

/// Whether the word is an integer as JSON has it.
fn is_integer(word: &[u8]) -> bool
    ensures { result ≡ is_integer_word word.now }
{
    is_natural(without_minus(word))
}

/// The text between quotes.
pub(crate) fn quoted(global: Global, text: &[u8]) -> Result<Vec<u8>, AllocError>
    ensures { IfOk result (λ v. v.items ≡ json_text text.now) }
{
    let mut json = Vec::new(global);
    json.push(b'"')?;
    json.extend_from_slice(text)?;
    json.push(b'"')?;
    Ok(json)
}

/// What a word is in JSON: a keyword is the string of its name, `nil` is null, and an integer is itself. All others are
/// no values of a history, and become false.
pub(crate) fn word_in_json(global: Global, word: &[u8]) -> Result<Vec<u8>, AllocError>
    ensures { IfOk result (λ v. v.items ≡ json_word word.now) }
{
    if word.starts_with(b":") {
        return quoted(global, &word[1..]);
    }
    if word == b"nil".as_slice() {
        return Vec::from_slice(global, b"null");
    }
    if is_integer(word) {
        return Vec::from_slice(global, word);
    }
    Vec::from_slice(global, b"false")
}

fn digit(number: u8) -> u8
    requires { number < 16 }
    ensures { result ≡ hex_digit number }
{
    if number < 10 {
        b'0' + number
    } else {
        b'a' + (number - 10)
    }
}

/// Adds a control character, as JSON has it in a string.
pub(crate) fn push_control(text: &mut Vec<u8>, byte: u8) -> Result<(), AllocError>
    ensures { OnOk result (text.new.items ≡ json_byte text.old.items byte) }
{
    text.extend_from_slice(b"\\u00")?;
    text.push(digit(byte / 16))?;
    text.push(digit(byte % 16))?;
    Ok(())
}
