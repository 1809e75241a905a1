//! The lines of a text, and what its comments say.
ghost use Rattle.std.specs.Prelude.{◌≡◌, ◌<◌, ◌∷◌, [], length, string_bytes, IfSome, MatchOption, OnOk};
ghost use Rattle.reg_text.specs.Lines.{lines_of, is_kept as is_kept_of};
ghost use Rattle.reg_trace.specs.Notes.{comment_of, spaced};

use std::alloc::{AllocError, Allocator};

/// The first line of a text, with no line feed, and the rest.
pub fn cut_line(text: &str) -> Option<(&str, &str)>
    ensures lines { MatchOption result (lines_of text.now ≡ []) (λ p. lines_of text.now ≡ p.0.now ∷ lines_of p.1.now) }
    ensures shorter { IfSome result (λ p. length p.1.now < length text.now) }
{
    if text.is_empty() {
        return None;
    }
    match text.split_once('\n') {
        Some((line, rest)) => Some((line, rest)),
        None => Some((text, "")),
    }
}

/// Whether a line is neither empty nor a comment.
pub fn is_kept(line: &str) -> bool
    ensures { result ≡ is_kept_of line.now }
{
    match line.as_bytes() {
        [] => false,
        [first, ..] => *first != b'#',
    }
}

/// What a comment says. Another line says nothing.
pub fn comment(line: &str) -> &str
    ensures { result.now ≡ comment_of line.now }
{
    match line.strip_prefix('#') {
        Some(words) => words.strip_prefix(' ').unwrap_or(words),
        None => "",
    }
}

/// Adds what a comment says to those before it.
pub fn add_comment<A: Allocator>(note: &mut String<A>, words: &str) -> Result<(), AllocError>
    ensures { OnOk result (string_bytes note.new ≡ spaced (string_bytes note.old) words.now) }
{
    if !note.is_empty() && !words.is_empty() {
        note.push(' ')?;
    }
    note.push_str(words)
}
