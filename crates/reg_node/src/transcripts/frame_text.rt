//! Frames as text: their bytes in hexadecimal.
ghost use Rattle.std.specs.Prelude.{◌≡◌, ◌≤◌, ◌↔◌, ◌*◌, Some, IfSome, IsTrue, length};
ghost use Rattle.hex.specs.Hex.{encode_lower};
ghost use Rattle.reg_frames.specs.declared.bodies.Frame.{Frame as AnyFrame};
ghost use Rattle.reg_frames.specs.Spelling.{Fits, spelling};
ghost use Rattle.reg_node.specs.RecordLines.{frame_text};

use hex::{FromHex, encode_to_slice};
use reg_frames::{Frame, decode};

/// Whether the M digits are those of the bytes, in lower case.
fn are_digits_of<const M: usize>(text: &[u8], bytes: &[u8]) -> bool
    requires digits { M ≡ 2 * length bytes.now }
    requires few { M ≤ 80 }
    ensures { IsTrue result ↔ text.now ≡ encode_lower bytes.now }
{
    let mut digits = [0u8; M];
    match encode_to_slice(bytes, &mut digits) {
        Ok(()) => text == digits.as_slice(),
        Err(_) => false,
    }
}

/// The frame of the bytes, where the M digits are theirs.
fn spelled<const M: usize>(text: &[u8], bytes: &[u8]) -> Option<Frame>
    requires digits { M ≡ 2 * length bytes.now }
    requires few { M ≤ 80 }
    ensures read { IfSome result (λ f. Fits f × (text.now ≡ frame_text f)) }
    ensures whole { (f : AnyFrame) → Fits f → bytes.now ≡ spelling f → text.now ≡ frame_text f → result ≡ Some f }
{
    if !are_digits_of::<M>(text, bytes) {
        return None;
    }
    decode(bytes).ok()
}

/// The frame of N bytes that the text spells, each of them as two of the M digits.
fn frame_of<const N: usize, const M: usize>(text: &[u8]) -> Option<Frame>
    requires digits { M ≡ 2 * N }
    requires few { M ≤ 80 }
    ensures read { IfSome result (λ f. Fits f × (text.now ≡ frame_text f)) }
    ensures whole { (f : AnyFrame) → Fits f → length (spelling f) ≡ N → text.now ≡ frame_text f → result ≡ Some f }
{
    match <[u8; N] as FromHex>::from_hex(text) {
        Ok(bytes) => spelled::<M>(text, bytes.as_slice()),
        Err(_) => None,
    }
}

/// The frame that the text spells.
pub(crate) fn read_frame(text: &[u8]) -> Option<Frame>
    ensures read { IfSome result (λ f. Fits f × (text.now ≡ frame_text f)) }
    ensures whole { (f : AnyFrame) → Fits f → text.now ≡ frame_text f → result ≡ Some f }
{
    match text.len() {
        24 => frame_of::<12, 24>(text),
        42 => frame_of::<21, 42>(text),
        48 => frame_of::<24, 48>(text),
        64 => frame_of::<32, 64>(text),
        80 => frame_of::<40, 80>(text),
        _ => None,
    }
}
