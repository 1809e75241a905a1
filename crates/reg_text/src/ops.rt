//! Operations as text. A further kind of operation adds its case to each function here, and to `op_form`.
ghost use Rattle.std.specs.Prelude.{◌≡◌, ◌<◌, ◌^◌, ℕ, ◌∷◌, ◌++◌, None, Some, IfSome, length};
ghost use Rattle.std.specs.Fmt.{decimal};
ghost use Rattle.reg_base.specs.Names.{names_fault};
ghost use Rattle.reg_base.specs.declared.memory.Op.{Op};
ghost use Rattle.reg_text.specs.Ops.{answer_text, op_text, valued, compared, OpFits, op_line};
ghost use Rattle.reg_text.specs.Ops.{name_of as name_of_register};
ghost use Rattle.reg_text.specs.Writing.{Puts};

use crate::fields::{cut_at, numeral, skip};
use crate::writing::{Sink, put_number};
use itoa::write_digits;
use reg_base::{Answer, Names, Op};
use std::alloc::Allocator;
use std::fmt;
use std::io::Write;

/// The register and the value that the whole text spells. None where it doesn't spell a register of these names and a
/// value of 64 bits.
fn read_valued<A: Allocator + Copy>(text: &[u8], names: &Names<A>) -> Option<(u16, u64)>
    requires { names_fault names.now ≡ None }
    ensures read { IfSome result
        (λ p. (text.now ≡ valued names.now p.0 p.1) × (p.0 < length names.now) × (p.1 < 2 ^ 64)) }
    ensures whole { (register value : ℕ) → register < length names.now → value < 2 ^ 64
        → text.now ≡ valued names.now register value → result ≡ Some (register, value) }
{
    let (name, digits) = cut_at(text, b' ')?;
    names.find(name).zip(numeral(digits))
}

/// The register, the expected value and the value that the whole text spells. None where it doesn't spell a register of
/// these names and two values of 64 bits.
fn read_compared<A: Allocator + Copy>(text: &[u8], names: &Names<A>) -> Option<(u16, u64, u64)>
    requires { names_fault names.now ≡ None }
    ensures read { IfSome result
        (λ p. (text.now ≡ compared names.now p.0 p.1 p.2) × (p.0 < length names.now) × (p.1 < 2 ^ 64)
        × (p.2 < 2 ^ 64)) }
    ensures whole { (register expected value : ℕ) → register < length names.now → expected < 2 ^ 64 → value < 2 ^ 64
        → text.now ≡ compared names.now register expected value → result ≡ Some (register, expected, value) }
{
    let (name, values) = cut_at(text, b' ')?;
    let (expected, value) = cut_at(values, b' ')?;
    let register = names.find(name)?;
    let expected = numeral(expected)?;
    let value = numeral(value)?;
    Some((register, expected, value))
}

/// The operation that the whole text spells. None where it spells no operation with a register of these names and
/// values of 64 bits.
pub fn read_op<A: Allocator + Copy>(text: &[u8], names: &Names<A>) -> Option<Op>
    requires { names_fault names.now ≡ None }
    ensures read { IfSome result (λ op. (text.now ≡ op_text names.now op) × OpFits names.now op) }
    ensures whole { (op : Op) → OpFits names.now op → text.now ≡ op_text names.now op → result ≡ Some op }
{
    if let Some(name) = skip(text, b"read ") {
        let register = names.find(name)?;
        return Some(Op::Read { register });
    }
    if let Some(rest) = skip(text, b"write ") {
        let (register, value) = read_valued(rest, names)?;
        return Some(Op::Write { register, value });
    }
    if let Some(rest) = skip(text, b"swap ") {
        let (register, value) = read_valued(rest, names)?;
        return Some(Op::Swap { register, value });
    }
    let rest = skip(text, b"cas ")?;
    let (register, expected, value) = read_compared(rest, names)?;
    Some(Op::CompareAndSwap {
        register,
        expected,
        value,
    })
}

/// The name of a register, the empty text past the last.
pub fn name_at<A: Allocator + Copy>(names: &Names<A>, register: u16) -> &str
    ensures { result.now ≡ name_of_register names.now register }
{
    match names.name(register) {
        Some(name) => name,
        None => "",
    }
}

/// The name of the register that an operation names, the empty text past the last.
pub fn name_of_op<A: Allocator + Copy>(names: &Names<A>, op: Op) -> &str
    ensures { op_line result.now op ≡ op_text names.now op }
{
    match op {
        Op::Read { register } => name_at(names, register),
        Op::Write { register, .. } => name_at(names, register),
        Op::Swap { register, .. } => name_at(names, register),
        Op::CompareAndSwap { register, .. } => name_at(names, register),
    }
}

/// Puts a space and a number in decimal.
fn put_spaced<W: Write>(sink: &mut Sink<'_, W>, number: u64)
    ensures { Puts W.contents sink.old sink.new (32 ∷ decimal number) }
{
    // (the digits are written over the last of more spaces than they need: one piece goes to the sink)
    let mut spaced = [b' '; 21];
    let start = write_digits(number, &mut spaced, 21);
    sink.put(&spaced[start - 1..]);
}

fn put_valued<W: Write>(sink: &mut Sink<'_, W>, name: &str, value: u64)
    ensures { Puts W.contents sink.old sink.new (name.now ++ 32 ∷ decimal value) }
{
    sink.put(name.as_bytes());
    put_spaced(sink, value);
}

/// Puts the text of an operation, in which a register past the last has an empty name.
pub fn put_op<A: Allocator + Copy, W: Write>(sink: &mut Sink<'_, W>, names: &Names<A>, op: Op)
    ensures { Puts W.contents sink.old sink.new (op_text names.now op) }
{
    let name = name_of_op(names, op);
    match op {
        Op::Read { .. } => {
            sink.put(b"read ");
            sink.put(name.as_bytes());
        }
        Op::Write { value, .. } => {
            sink.put(b"write ");
            put_valued(sink, name, value);
        }
        Op::Swap { value, .. } => {
            sink.put(b"swap ");
            put_valued(sink, name, value);
        }
        Op::CompareAndSwap {
            expected,
            value,
            ..
        } => {
            sink.put(b"cas ");
            put_valued(sink, name, expected);
            put_spaced(sink, value);
        }
    }
}

/// Shows an operation on the register of this name.
#[derive(Clone, Copy)]
pub struct OpLine<'a> {
    /// The register's name.
    pub name: &'a str,
    /// The operation, whose register's number is not shown.
    pub op: Op,
}

impl fmt::Display for OpLine<'_> {
    ghost output = { λ l. Some (op_line l.name.now l.op) };

    fn fmt<W: fmt::Write>(&self, f: &mut fmt::Formatter<W>) -> fmt::Result {
        let name = self.name;
        match self.op {
            Op::Read { .. } => write!(f, "read {name}"),
            Op::Write { value, .. } => write!(f, "write {name} {value}"),
            Op::Swap { value, .. } => write!(f, "swap {name} {value}"),
            Op::CompareAndSwap {
                expected,
                value,
                ..
            } => write!(f, "cas {name} {expected} {value}"),
        }
    }
}

/// Puts an answer: `done`, `unequal`, or `value` and the value in decimal.
pub fn put_answer<W: Write>(sink: &mut Sink<'_, W>, answer: Answer)
    ensures { Puts W.contents sink.old sink.new (answer_text answer) }
{
    match answer {
        Answer::Done => sink.put(b"done"),
        Answer::Value(value) => put_number(sink, "value ", value),
        Answer::Unequal => sink.put(b"unequal"),
    }
}
