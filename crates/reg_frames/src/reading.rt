//! Reading a frame from its bytes.
ghost use Rattle.std.specs.Prelude.{◌≡◌, ◌+◌, ◌≤◌, nat_lt, length, IfOk, Ok};
ghost use Rattle.reg_base.specs.Memory.{register_of};
ghost use Rattle.std.specs.Int.{w16, w64};
ghost use Rattle.reg_base.specs.declared.memory.Op.TheVariants.{Read, Write, Swap, CompareAndSwap};
ghost use Rattle.reg_frames.specs.declared.bodies.Body.TheVariants.{Ack};
ghost use Rattle.reg_frames.specs.declared.bodies.Frame.{Frame};
ghost use Rattle.reg_frames.specs.declared.bodies.Frame.TheVariants.{Numbered, Got};
ghost use Rattle.reg_frames.specs.Spelling.{Spells};
ghost use Rattle.reg_frames.specs.Reading.{number_at, cast_at, is_time, body_fits as is_body, frame_fits};
ghost use Rattle.reg_frames.specs.Reading.{in_range as in_range_of, sized as sized_of, cast_of, data_of, plain_of};
ghost use Rattle.reg_frames.specs.Reading.{swap_at, compare_and_swap_at, lone_cast_of, lone_data_of, lone_of, frame_of};
ghost use Rattle.reg_frames.specs.declared.layout.TheConstants.{NUMBER_AT, TIME_AT, REGISTER_AT, VALUE_AT};
ghost use Rattle.reg_frames.specs.declared.layout.TheConstants.{NEW_VALUE_AT, GOT_SIZE, ACK_SIZE, READ_SIZE};
ghost use Rattle.reg_frames.specs.declared.layout.TheConstants.{VALUED_SIZE, COMPARED_SIZE};
ghost use Rattle.reg_frames.specs.Narrow.{OpIsNarrow, BodyIsNarrow, IsNarrow};

use crate::bodies::{Body, Frame};
use crate::faults::FrameFault;
use crate::layout::{
    ACK, ACK_SIZE, BODY_AT, CAST, COMPARE_AND_SWAP, COMPARED_SIZE, COMPARING, DATA, GOT, GOT_SIZE,
    KIND_AT, LENGTH_AT, NEW_VALUE_AT, NUMBER_AT, OP_AT, PLAIN, READ, READ_SIZE, REGISTER_AT, SWAP,
    SWAPPING, TIME_AT, VALUE_AT, VALUED_SIZE, VERSION_AT, WRITE,
};
use reg_base::Op;
use reg_base::limits::{FRAME_NUMBERS, LAST_TIME, MOST_REGISTERS};

fn u16_at(bytes: &[u8], at: usize) -> u16
    requires { at + 2 ≤ length bytes.now }
    ensures { result ≡ number_at w16 at bytes.now }
{
    let field = &bytes[at..at + 2];
    u16::from_be_bytes([field[0], field[1]])
}

fn u64_at(bytes: &[u8], at: usize) -> u64
    requires { at + 8 ≤ length bytes.now }
    ensures { result ≡ number_at w64 at bytes.now }
{
    let field = &bytes[at..at + 8];
    u64::from_be_bytes([
        field[0], field[1], field[2], field[3], field[4], field[5], field[6], field[7],
    ])
}

fn op_fits(op: Op) -> bool
    ensures verdict { result ≡ nat_lt (register_of op) MOST_REGISTERS }
    ensures narrow { OpIsNarrow op }
{
    let _values = match op {
        Op::Read { register: _ } => (0, 0),
        Op::Write { register: _, value } => (0, value),
        Op::Swap { register: _, value } => (0, value),
        Op::CompareAndSwap {
            register: _,
            expected,
            value,
        } => (expected, value),
    };
    u32::from(op.register()) < MOST_REGISTERS
}

fn time_fits(time: u64) -> bool
    ensures { result ≡ is_time time }
{
    0 < time && time <= LAST_TIME
}

fn body_fits(body: Body) -> bool
    ensures verdict { result ≡ is_body body }
    ensures narrow { BodyIsNarrow body }
{
    match body {
        Body::Cast { time, op } => {
            let op_fits = op_fits(op);
            time_fits(time) && op_fits
        }
        Body::Ack { time } => time_fits(time),
    }
}

/// Whether the fields are in range.
pub fn fits(frame: Frame) -> bool
    ensures verdict { result ≡ frame_fits frame }
    ensures narrow { IsNarrow frame }
{
    match frame {
        Frame::Numbered { number, body } => {
            let body_fits = body_fits(body);
            number < FRAME_NUMBERS && body_fits
        }
        Frame::Got { count } => count <= FRAME_NUMBERS,
    }
}

fn in_range(frame: Frame) -> Result<Frame, FrameFault>
    ensures { result ≡ in_range_of frame }
{
    if fits(frame) {
        Ok(frame)
    } else {
        Err(FrameFault::Range)
    }
}

/// The cast of this operation, whose number and time stand in the bytes.
fn cast_with(bytes: &[u8], op: Op) -> Result<Frame, FrameFault>
    requires { REGISTER_AT ≤ length bytes.now }
    ensures { result ≡ in_range_of (cast_at bytes.now op) }
{
    let time = u64_at(bytes, TIME_AT);
    let number = u64_at(bytes, NUMBER_AT);
    in_range(Frame::Numbered {
        number,
        body: Body::Cast { time, op },
    })
}

fn read_cast(bytes: &[u8]) -> Result<Frame, FrameFault>
    requires { REGISTER_AT ≤ length bytes.now }
    ensures { result ≡ sized_of READ_SIZE bytes.now (cast_at bytes.now (Read (number_at w16 REGISTER_AT bytes.now))) }
{
    if bytes.len() != READ_SIZE {
        return Err(FrameFault::Size);
    }
    let register = u16_at(bytes, REGISTER_AT);
    cast_with(bytes, Op::Read { register })
}

fn write_cast(bytes: &[u8]) -> Result<Frame, FrameFault>
    requires { REGISTER_AT ≤ length bytes.now }
    ensures { result
        ≡ sized_of VALUED_SIZE bytes.now
        (cast_at bytes.now (Write (number_at w16 REGISTER_AT bytes.now) (number_at w64 VALUE_AT bytes.now))) }
{
    if bytes.len() != VALUED_SIZE {
        return Err(FrameFault::Size);
    }
    let register = u16_at(bytes, REGISTER_AT);
    let value = u64_at(bytes, VALUE_AT);
    cast_with(bytes, Op::Write { register, value })
}

fn cast(bytes: &[u8]) -> Result<Frame, FrameFault>
    ensures { result ≡ cast_of bytes.now }
{
    if bytes.len() < REGISTER_AT {
        return Err(FrameFault::Size);
    }
    if bytes[OP_AT] == READ {
        return read_cast(bytes);
    }
    if bytes[OP_AT] == WRITE {
        return write_cast(bytes);
    }
    Err(FrameFault::Op)
}

fn acknowledgement(bytes: &[u8]) -> Result<Frame, FrameFault>
    requires { TIME_AT ≤ length bytes.now }
    ensures { result
        ≡ sized_of ACK_SIZE bytes.now
        (Numbered (number_at w64 NUMBER_AT bytes.now) (Ack (number_at w64 TIME_AT bytes.now))) }
{
    if bytes.len() != ACK_SIZE {
        return Err(FrameFault::Size);
    }
    let time = u64_at(bytes, TIME_AT);
    let number = u64_at(bytes, NUMBER_AT);
    in_range(Frame::Numbered {
        number,
        body: Body::Ack { time },
    })
}

fn data_frame(bytes: &[u8]) -> Result<Frame, FrameFault>
    ensures { result ≡ data_of bytes.now }
{
    if bytes.len() < TIME_AT {
        return Err(FrameFault::Size);
    }
    if bytes[BODY_AT] == CAST {
        return cast(bytes);
    }
    if bytes[BODY_AT] == ACK {
        return acknowledgement(bytes);
    }
    Err(FrameFault::Body)
}

fn got(bytes: &[u8]) -> Result<Frame, FrameFault>
    requires { GOT_SIZE ≤ length bytes.now }
    ensures { result ≡ sized_of GOT_SIZE bytes.now (Got (number_at w64 NUMBER_AT bytes.now)) }
{
    if bytes.len() != GOT_SIZE {
        return Err(FrameFault::Size);
    }
    let count = u64_at(bytes, NUMBER_AT);
    in_range(Frame::Got { count })
}

fn plain(bytes: &[u8]) -> Result<Frame, FrameFault>
    requires { GOT_SIZE ≤ length bytes.now }
    ensures { result ≡ plain_of bytes.now }
{
    if bytes[KIND_AT] == DATA {
        return data_frame(bytes);
    }
    if bytes[KIND_AT] == GOT {
        return got(bytes);
    }
    Err(FrameFault::Kind)
}

fn swap_cast(bytes: &[u8]) -> Result<Frame, FrameFault>
    requires { REGISTER_AT ≤ length bytes.now }
    ensures { result ≡ swap_at bytes.now }
{
    if bytes.len() != VALUED_SIZE {
        return Err(FrameFault::Size);
    }
    let register = u16_at(bytes, REGISTER_AT);
    let value = u64_at(bytes, VALUE_AT);
    cast_with(bytes, Op::Swap { register, value })
}

fn compare_and_swap_cast(bytes: &[u8]) -> Result<Frame, FrameFault>
    requires { REGISTER_AT ≤ length bytes.now }
    ensures { result ≡ compare_and_swap_at bytes.now }
{
    if bytes.len() != COMPARED_SIZE {
        return Err(FrameFault::Size);
    }
    let op = Op::CompareAndSwap {
        register: u16_at(bytes, REGISTER_AT),
        expected: u64_at(bytes, VALUE_AT),
        value: u64_at(bytes, NEW_VALUE_AT),
    };
    cast_with(bytes, op)
}

/// The cast of the one operation that a version has, by its byte.
fn lone_cast(bytes: &[u8], kind: u8) -> Result<Frame, FrameFault>
    ensures { result ≡ lone_cast_of kind bytes.now }
{
    if bytes.len() < REGISTER_AT {
        return Err(FrameFault::Size);
    }
    if bytes[OP_AT] != kind {
        return Err(FrameFault::Op);
    }
    if kind == SWAP {
        swap_cast(bytes)
    } else {
        compare_and_swap_cast(bytes)
    }
}

fn lone_data_frame(bytes: &[u8], kind: u8) -> Result<Frame, FrameFault>
    ensures { result ≡ lone_data_of kind bytes.now }
{
    if bytes.len() < TIME_AT {
        return Err(FrameFault::Size);
    }
    if bytes[BODY_AT] == CAST {
        return lone_cast(bytes, kind);
    }
    Err(FrameFault::Body)
}

/// A frame of a version that has the casts of one operation alone.
fn lone(bytes: &[u8], kind: u8) -> Result<Frame, FrameFault>
    requires { GOT_SIZE ≤ length bytes.now }
    ensures { result ≡ lone_of kind bytes.now }
{
    if bytes[KIND_AT] == DATA {
        return lone_data_frame(bytes, kind);
    }
    Err(FrameFault::Kind)
}

fn frame(bytes: &[u8]) -> Result<Frame, FrameFault>
    ensures { result ≡ frame_of bytes.now }
{
    if bytes.len() < GOT_SIZE {
        return Err(FrameFault::Short);
    }
    if u16_at(bytes, LENGTH_AT) as usize != bytes.len() - 2 {
        return Err(FrameFault::Length);
    }
    if bytes[VERSION_AT] == PLAIN {
        return plain(bytes);
    }
    if bytes[VERSION_AT] == SWAPPING {
        return lone(bytes, SWAP);
    }
    if bytes[VERSION_AT] == COMPARING {
        return lone(bytes, COMPARE_AND_SWAP);
    }
    Err(FrameFault::Version)
}

/// The frame that the bytes spell, or else the first fault, in the order that `FrameFault` tells. It takes no memory.
pub fn decode(bytes: &[u8]) -> Result<Frame, FrameFault>
    // What is read is spelled so.
    ensures read { IfOk result (λ f. Spells f bytes.now) }
    // What is spelled so is read.
    ensures whole { (f : Frame) → Spells f bytes.now → result ≡ Ok f }
    // Which fault it is.
    ensures exact { result ≡ frame_of bytes.now }
{
    frame(bytes)
}
