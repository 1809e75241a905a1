//! Events without the values of their operations, in eight bytes each.
ghost use Rattle.std.specs.Prelude.{◌≡◌, ◌+◌, ◌≤◌, ◌++◌, vec_len, vec_capacity};
ghost use Rattle.reg_world.specs.Outlines.{kind_of as kind_of_op, outline_of as outline_of_event, values_in, values_of};

use reg_base::Op;
use reg_process::Event;
use std::alloc::Allocator;

/// What an operation does, without its register and its values.
#[derive(Clone, Copy)]
pub(crate) enum Kind {
    Read,
    Write,
    Swap,
    CompareAndSwap,
}

/// An event without the values of its operation.
#[derive(Clone, Copy)]
pub(crate) enum Outline {
    Call {
        process: u8,
        kind: Kind,
        register: u16,
    },
    Take {
        from: u8,
        to: u8,
        number: u32,
    },
    Tick {
        process: u8,
    },
}

const _: () = prove!(size_of::<Outline>() == 8);

/// How many values an event has at most.
pub(crate) const MOST_VALUES: usize = 2;

/// What an operation does.
fn kind_of(op: &Op) -> Kind
    ensures { result ≡ kind_of_op op.now }
{
    match *op {
        Op::Read { .. } => Kind::Read,
        Op::Write { .. } => Kind::Write,
        Op::Swap { .. } => Kind::Swap,
        Op::CompareAndSwap { .. } => Kind::CompareAndSwap,
    }
}

/// The event without its values.
// (in line: it runs at each event, and does little more than a call costs)
#[inline(always)]
pub(crate) fn outline_of(event: &Event) -> Outline
    ensures { result ≡ outline_of_event event.now }
{
    match *event {
        Event::Call { process, op } => Outline::Call {
            process,
            kind: kind_of(&op),
            register: op.register(),
        },
        Event::Take { from, to, number } => Outline::Take { from, to, number },
        Event::Tick { process } => Outline::Tick { process },
    }
}

/// Adds the values of an operation.
fn push_values_in<A: Allocator + Copy>(values: &mut Vec<u64, A>, op: &Op)
    requires { vec_len values.old + MOST_VALUES ≤ vec_capacity values.old }
    ensures { values.new.items ≡ values.old.items ++ values_in op.now }
{
    match *op {
        Op::Read { .. } => {}
        Op::Write { register: _, value } => values.push_reserved(value),
        Op::Swap { register: _, value } => values.push_reserved(value),
        Op::CompareAndSwap {
            register: _,
            expected,
            value,
        } => {
            values.push_reserved(expected);
            values.push_reserved(value);
        }
    }
}

/// Adds the values of an event.
// (in line: it runs at each event, and few of them have values)
#[inline(always)]
pub(crate) fn push_values<A: Allocator + Copy>(values: &mut Vec<u64, A>, event: &Event)
    requires { vec_len values.old + MOST_VALUES ≤ vec_capacity values.old }
    ensures { values.new.items ≡ values.old.items ++ values_of event.now }
{
    match event {
        Event::Call { process: _, op } => push_values_in(values, op),
        Event::Take { .. } => {}
        Event::Tick { .. } => {}
    }
}
