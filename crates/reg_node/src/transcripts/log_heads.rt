//! What the head of a log says, and the bytes of a log up to an entry, told without reading what stands behind.
ghost use Rattle.std.specs.Prelude.{◌≡◌, ◌≤◌, ◌⊎◌, ◌++◌, ℕ, List, length, IfErr, IfOk, MatchResult};
ghost use Rattle.reg_node.specs.LogHeads.{BeginsWith, BeginsWithNone, first_entries, head_of};
ghost use Rattle.reg_node.specs.LogTexts.{IsJournal, Journal, log_text};
ghost use Rattle.reg_node.specs.Seals.{AreLines, sealed};

use crate::transcripts::logs::{Log, LogFault, LogId, ReadLog, read_log};
use reg_base::{Names, Shape};
use reg_front::Front;
use reg_text::cut_at;
use std::alloc::{Allocator, Global};
use std::marker::Model;

/// How many lines a head has.
const HEAD_LINES: u64 = 9;

/// What the head of a log says: which log it is, and what its cluster is like.
#[derive(Drop)]
pub struct Head<A: Allocator + Copy = Global> {
    pub id: LogId,
    pub front: Front,
    pub shape: Shape,
    pub names: Names<A>,
}

impl<A: Allocator + Copy> Model for Head<A> {
    ghost use Rattle.reg_node.specs.LogTexts.{Journal, begun_with};

    ghost Value = { Journal };

    ghost view = { λ h. begun_with h.id h.front h.shape h.names };
}

/// What stands behind the first lines, so many; nothing where there are fewer.
fn behind_lines(bytes: &[u8], count: u64) -> &[u8]
    ensures part { (front : List ℕ) × (bytes.now ≡ front ++ result.now) }
    ensures whole { (c : ℕ) (lines : List (List ℕ)) (behind : List ℕ) → AreLines lines → length lines ≡ count
        → bytes.now ≡ sealed c lines ++ behind → result.now ≡ behind }
{
    let mut rest = bytes;
    for _line in 0..count {
        let Some((_, behind)) = cut_at(rest, b'\n') else {
            return &[];
        };
        rest = behind;
    }
    rest
}

/// The head of the log that the bytes begin with, and its first entries, so many, where it has as many.
pub fn first_part(bytes: &[u8], entries: u64) -> &[u8]
    ensures part { (behind : List ℕ) × (bytes.now ≡ result.now ++ behind) }
    ensures whole { (j : Journal) → IsJournal j → BeginsWith bytes.now j → entries ≤ length j.entries
        → result.now ≡ log_text (first_entries j entries) }
{
    let rest = behind_lines(behind_lines(bytes, HEAD_LINES), entries);
    &bytes[..bytes.len() - rest.len()]
}

/// What the head of the log says that the bytes begin with. Its entries aren't read.
///
/// # Errors
///
/// But for `OutOfMemory` the bytes begin with the head of no log.
pub fn read_head<A: Allocator + Copy>(alloc: A, bytes: &[u8]) -> Result<Head<A>, LogFault>
    ensures read { IfOk result (λ h. BeginsWith bytes.now h × IsJournal h) }
    ensures whole { (j : Journal) → IsJournal j → BeginsWith bytes.now j
        → MatchResult result (λ h. h ≡ head_of j) (λ f. f ≡ LogFault.OutOfMemory) }
    ensures fault { IfErr result (λ f. (f ≡ LogFault.OutOfMemory) ⊎ BeginsWithNone bytes.now) }
{
    let log = match read_log(alloc, first_part(bytes, 0), 0) {
        Ok(ReadLog { log, .. }) => log,
        Err(fault) => return Err(fault),
    };
    let Log {
        id,
        front,
        shape,
        names,
        ..
    } = log;
    Ok(Head {
        id,
        front,
        shape,
        names,
    })
}
