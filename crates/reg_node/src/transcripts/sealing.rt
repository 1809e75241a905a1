//! Lines behind their seals.
ghost use Rattle.std.specs.Prelude.{◌≡◌, ◌<◌, ◌↔◌, ℕ, List, ◌∷◌, ◌++◌, [], length, IfOk, IfSome, IsSomeAnd, IsTrue};
ghost use Rattle.std.specs.Prelude.{OnOk};
ghost use Rattle.reg_text.specs.Parts.{Lacks};
ghost use Rattle.reg_node.specs.Seals.{IsSealed, crc_behind, seal_text, sealed_line};
ghost use Rattle.reg_node.specs.Unsealing.{IsUnsealed};

use crate::transcripts::seals::{FIRST_CRC, digits, over};
use reg_text::{cut, cut_at, skip};
use std::alloc::{AllocError, Allocator};

/// Whether the bytes are the seal of a register.
fn is_seal(bytes: &[u8], crc: u32) -> bool
    ensures { IsTrue result ↔ bytes.now ≡ seal_text crc }
{
    bytes == digits(crc).as_slice()
}

/// The first line of the bytes, if it stands whole behind its seal; the register behind it; and the bytes after it.
fn next_sealed(crc: u32, bytes: &[u8]) -> Option<(&[u8], u32, &[u8])>
    ensures read { IfSome result (λ p. (bytes.now ≡ sealed_line crc p.0.now ++ p.2.now) × Lacks 10 p.0.now) }
    ensures crc { IfSome result (λ p. p.1 ≡ crc_behind crc p.0.now) }
    ensures shorter { IfSome result (λ p. length p.2.now < length bytes.now) }
    ensures whole { (line rest : List ℕ) → Lacks 10 line → bytes.now ≡ sealed_line crc line ++ rest
        → IsSomeAnd result (λ p. (p.0.now ≡ line) × (p.2.now ≡ rest)) }
{
    let (front, rest) = cut_at(bytes, b'\n')?;
    let (seal, behind) = cut(front, 8)?;
    let line = skip(behind, b" ")?;
    let own = over(crc, line);
    if is_seal(seal, own) {
        Some((line, over(own, b"\n"), rest))
    } else {
        None
    }
}

/// What stands whole at the start of a log.
#[derive(Drop)]
pub(crate) struct Unsealed<A: Allocator + Copy> {
    /// Its lines without their seals, each with its line feed.
    pub(crate) text: Vec<u8, A>,
    /// The register behind them.
    pub(crate) crc: u32,
    /// How many bytes they are, with their seals.
    pub(crate) whole: usize,
}

/// The lines that stand whole behind their seals, up to the first that doesn't.
pub(crate) fn unseal<A: Allocator + Copy>(alloc: A, bytes: &[u8]) -> Result<Unsealed<A>, AllocError>
    ensures { IfOk result (λ u. IsUnsealed bytes.now u.text.items u.crc u.whole) }
{
    let mut text = Vec::new(alloc);
    let mut crc = FIRST_CRC;
    let mut rest = bytes;
    while let Some((line, behind, after)) = next_sealed(crc, rest) {
        text.extend_from_slice(line)?;
        text.push(b'\n')?;
        crc = behind;
        rest = after;
    }
    let whole = bytes.len() - rest.len();
    Ok(Unsealed { text, crc, whole })
}

fn put_sealed<A: Allocator + Copy>(
    text: &mut Vec<u8, A>,
    crc: u32,
    line: &[u8],
) -> Result<u32, AllocError>
    ensures crc { IfOk result (λ c. c ≡ crc_behind crc line.now) }
    ensures added { OnOk result (text.new.items ≡ text.old.items ++ sealed_line crc line.now) }
{
    let own = over(crc, line);
    text.extend_from_slice(digits(own).as_slice())?;
    text.push(b' ')?;
    text.extend_from_slice(line)?;
    text.push(b'\n')?;
    Ok(over(own, b"\n"))
}

/// A line behind its seal, added to a text, and the register behind it.
pub(crate) fn seal<A: Allocator + Copy>(
    text: &mut Vec<u8, A>,
    crc: u32,
    line: &[u8],
) -> Result<u32, AllocError>
    ensures crc { IfOk result (λ c. c ≡ crc_behind crc line.now) }
    ensures added { OnOk result (text.new.items ≡ text.old.items ++ sealed_line crc line.now) }
    ensures grows { (lines : List (List ℕ)) → IsSealed text.old.items crc lines
        → IfOk result (λ c. IsSealed text.new.items c (lines ++ line.now ∷ [])) }
{
    let behind = put_sealed(text, crc, line)?;
    Ok(behind)
}
