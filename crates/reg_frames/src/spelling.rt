//! The bytes of a frame.
ghost use Rattle.std.specs.Prelude.{◌≡◌, ◌+◌, ◌∷◌, ◌++◌, length, OnOk, IfOk, MatchResult};
ghost use Rattle.std.specs.Int.{w16, w64, to_be_bytes};
ghost use Rattle.reg_frames.specs.Spelling.{op_bytes, body_bytes, payload, version_of as version_of_frame, spelling};
ghost use Rattle.reg_frames.specs.Spelling.{Spells, Refuses};

use crate::bodies::{Body, Frame};
use crate::faults::FrameFault;
use crate::layout::{
    ACK, ACK_SIZE, CAST, COMPARE_AND_SWAP, COMPARED_SIZE, COMPARING, DATA, GOT, GOT_SIZE, PLAIN,
    READ, READ_SIZE, SWAP, SWAPPING, VALUED_SIZE, VERSION_AT, WRITE,
};
use crate::reading::fits;
use reg_base::Op;
use std::alloc::{AllocError, Allocator};

/// How many bytes a frame has.
fn size_of(frame: Frame) -> usize
    ensures { result ≡ length (payload frame) + 3 }
{
    match frame {
        Frame::Got { count: _ } => GOT_SIZE,
        Frame::Numbered { number: _, body } => match body {
            Body::Ack { time: _ } => ACK_SIZE,
            Body::Cast { time: _, op } => match op {
                Op::Read { register: _ } => READ_SIZE,
                Op::Write {
                    register: _,
                    value: _,
                } => VALUED_SIZE,
                Op::Swap {
                    register: _,
                    value: _,
                } => VALUED_SIZE,
                Op::CompareAndSwap { .. } => COMPARED_SIZE,
            },
        },
    }
}

/// The cast of a swap has version 2, that of a compare-and-swap version 4, all else version 1.
fn version_of(frame: Frame) -> u8
    ensures { result ≡ version_of_frame frame }
{
    match frame {
        Frame::Got { count: _ } => PLAIN,
        Frame::Numbered { number: _, body } => match body {
            Body::Ack { time: _ } => PLAIN,
            Body::Cast { time: _, op } => match op {
                Op::Read { register: _ } => PLAIN,
                Op::Write {
                    register: _,
                    value: _,
                } => PLAIN,
                Op::Swap {
                    register: _,
                    value: _,
                } => SWAPPING,
                Op::CompareAndSwap { .. } => COMPARING,
            },
        },
    }
}

/// The byte of the operation, its register and its value.
fn put_valued<A: Allocator + Copy>(
    bytes: &mut Vec<u8, A>,
    kind: u8,
    register: u16,
    value: u64,
) -> Result<(), AllocError>
    ensures { OnOk result
        (bytes.new.items ≡ bytes.old.items ++ kind ∷ (to_be_bytes w16 register ++ to_be_bytes w64 value)) }
{
    bytes.push(kind)?;
    bytes.extend_from_slice(&register.to_be_bytes())?;
    bytes.extend_from_slice(&value.to_be_bytes())?;
    Ok(())
}

fn put_op<A: Allocator + Copy>(bytes: &mut Vec<u8, A>, op: Op) -> Result<(), AllocError>
    ensures { OnOk result (bytes.new.items ≡ bytes.old.items ++ op_bytes op) }
{
    match op {
        Op::Read { register } => {
            bytes.push(READ)?;
            bytes.extend_from_slice(&register.to_be_bytes())
        }
        Op::Write { register, value } => put_valued(bytes, WRITE, register, value),
        Op::Swap { register, value } => put_valued(bytes, SWAP, register, value),
        Op::CompareAndSwap {
            register,
            expected,
            value,
        } => {
            put_valued(bytes, COMPARE_AND_SWAP, register, expected)?;
            bytes.extend_from_slice(&value.to_be_bytes())
        }
    }
}

fn put_body<A: Allocator + Copy>(bytes: &mut Vec<u8, A>, body: Body) -> Result<(), AllocError>
    ensures { OnOk result (bytes.new.items ≡ bytes.old.items ++ body_bytes body) }
{
    match body {
        Body::Cast { time, op } => {
            bytes.push(CAST)?;
            bytes.extend_from_slice(&time.to_be_bytes())?;
            put_op(bytes, op)?;
        }
        Body::Ack { time } => {
            bytes.push(ACK)?;
            bytes.extend_from_slice(&time.to_be_bytes())?;
        }
    }
    Ok(())
}

fn put_payload<A: Allocator + Copy>(bytes: &mut Vec<u8, A>, frame: Frame) -> Result<(), AllocError>
    ensures { OnOk result (bytes.new.items ≡ bytes.old.items ++ payload frame) }
{
    match frame {
        Frame::Numbered { number, body } => {
            bytes.push(DATA)?;
            bytes.extend_from_slice(&number.to_be_bytes())?;
            put_body(bytes, body)?;
        }
        Frame::Got { count } => {
            bytes.push(GOT)?;
            bytes.extend_from_slice(&count.to_be_bytes())?;
        }
    }
    Ok(())
}

fn spell<A: Allocator + Copy>(alloc: A, frame: Frame) -> Result<Vec<u8, A>, AllocError>
    ensures { IfOk result (λ v. v.items ≡ spelling frame) }
{
    let size = size_of(frame);
    let mut bytes = Vec::new(alloc);
    bytes.reserve(size)?;
    bytes.extend_from_slice(&((size - VERSION_AT) as u16).to_be_bytes())?;
    bytes.push(version_of(frame))?;
    put_payload(&mut bytes, frame)?;
    Ok(bytes)
}

/// The bytes of a frame, of which there is one spelling. `Range` comes exactly where a field is out of its range, and
/// else only `OutOfMemory`.
pub fn encode<A: Allocator + Copy>(alloc: A, frame: &Frame) -> Result<Vec<u8, A>, FrameFault>
    ensures { MatchResult result (λ v. Spells frame.now v.items) (λ fault. Refuses frame.now fault) }
{
    let frame = *frame;
    if !fits(frame) {
        return Err(FrameFault::Range);
    }
    match spell(alloc, frame) {
        Ok(bytes) => Ok(bytes),
        Err(_) => Err(FrameFault::OutOfMemory),
    }
}
