//! Command lines, for the tests of their words.
use std::alloc::{AllocError, Global};
use std::process::Abort;

/// Adds the words of a text.
fn add_words(words: &mut Vec<String>, alloc: Global, text: &str) -> Result<(), AllocError> {
    for word in text.split_whitespace() {
        words.push(String::from_str(alloc, word)?)?;
    }
    Ok(())
}

/// The program's name, and the words of the line after it.
pub fn words_of(rt: &impl Abort, alloc: Global, program: &str, line: &str) -> Vec<String> {
    let mut words = Vec::new(alloc);
    let is_made = add_words(&mut words, alloc, program).is_ok()
        && add_words(&mut words, alloc, line).is_ok();
    assert!(rt; is_made, "memory");
    words
}
