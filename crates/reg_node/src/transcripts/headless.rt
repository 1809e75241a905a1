//! What a crash leaves of a log before its head is whole.
ghost use Rattle.std.specs.Prelude.{◌≡◌, ◌==◌, ◌≤◌, ◌↔◌, ◌⊎◌, IfOk, IsTrue, length};
ghost use Rattle.std.specs.List.{list_all};
ghost use Rattle.reg_node.specs.Headless.{IsHeadless, IsPartAndZeros, IsShort, feeds as feeds_of};

use crate::transcripts::beginning::begin_first;
use crate::transcripts::logs::LogId;
use reg_text::skip;
use std::alloc::{AllocError, Allocator};

/// How many lines of a head stand behind those that are known before the log is begun.
const LAST_LINES: usize = 5;

fn feeds(bytes: &[u8]) -> usize
    ensures value { result ≡ feeds_of bytes.now }
    ensures within { result ≤ length bytes.now }
{
    bytes.iter().filter(|b| **b == b'\n').count()
}

fn are_zeros(bytes: &[u8]) -> bool
    ensures { result ≡ list_all (λ b. b == 0) bytes.now }
{
    bytes.iter().all(|b| *b == 0)
}

/// Whether the bytes are a first part of the text, and zeros.
fn is_part_and_zeros(bytes: &[u8], text: &[u8]) -> bool
    ensures { IsTrue result ↔ IsPartAndZeros bytes.now text.now }
{
    let (mut rest, mut left) = (bytes, text);
    while let Some((first, behind)) = rest.split_first() {
        let Some((wanted, after)) = left.split_first() else {
            return are_zeros(rest);
        };
        if first != wanted {
            return are_zeros(rest);
        }
        rest = behind;
        left = after;
    }
    true
}

/// Whether the bytes lack some of a head that begins with the text.
fn lacks_head(bytes: &[u8], text: &[u8]) -> bool
    ensures { IsTrue result ↔ (IsPartAndZeros bytes.now text.now ⊎ IsShort bytes.now text.now) }
{
    match skip(bytes, text) {
        Some(behind) => feeds(behind) < LAST_LINES,
        None => is_part_and_zeros(bytes, text),
    }
}

/// Whether the bytes are of a log that never began, and can be begun anew: a first part of the lines of this log up to
/// its chapter, with zeros behind it or none, or all of these lines with fewer than five lines behind them. A crash
/// before the head is whole leaves nothing else, if it leaves a first part of what was written and zeros. What was
/// drawn for the log, `begun`, is not looked at.
pub fn is_headless<A: Allocator + Copy>(
    alloc: A,
    bytes: &[u8],
    id: LogId,
) -> Result<bool, AllocError>
    ensures { IfOk result (λ b. IsTrue b ↔ IsHeadless id bytes.now) }
{
    let (text, _) = begin_first(alloc, id)?;
    Ok(lacks_head(bytes, &text))
}
