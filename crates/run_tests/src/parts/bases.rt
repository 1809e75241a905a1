//! Shapes, clocks, registers and names, as worked by hand.
use crate::demands::{demand, demand_same};
use crate::values::{READ, WRITE_FIVE};
use reg_base::limits::{MOST_PROCESSES, MOST_REGISTERS};
use reg_base::{
    Answer, Clock, ClockFull, Names, NamesFault, Op, Registers, Shape, ShapeFault, Stamp,
};
use std::alloc::{AllocError, Global};

/// How many processes and registers are asked for, and why there is no such shape.
const SHAPES: &[(u32, u32, Option<ShapeFault>)] = &[
    (0, 0, Some(ShapeFault::NoProcess)),
    (65, 0, Some(ShapeFault::TooManyProcesses)),
    (64, 0, Some(ShapeFault::NoRegister)),
    (1, 4097, Some(ShapeFault::TooManyRegisters)),
    (MOST_PROCESSES, MOST_REGISTERS, None),
    (1, 1, None),
];

#[test]
fn shapes_within_the_limits(rt: HostRuntime) {
    for (processes, registers, fault) in SHAPES {
        let found = Shape::new(*processes, *registers).err();
        demand_same(&rt, &(processes, registers), &found, fault);
    }
}

const LAST: u64 = 281_474_976_710_656;

/// A time that is received, or none at a tick; the answer, and the clock's time then.
type Tick = (Option<u64>, Result<u64, ClockFull>, u64);

const CLOCK_AT_ITS_END: &[Tick] = &[
    (Some(LAST), Err(ClockFull), 0),
    (None, Ok(1), 1),
    (Some(0), Ok(2), 2),
    (Some(LAST - 2), Ok(LAST - 1), LAST - 1),
    (None, Ok(LAST), LAST),
    (None, Err(ClockFull), LAST),
    (Some(0), Err(ClockFull), LAST),
    (Some(LAST), Err(ClockFull), LAST),
];

/// What a clock answers, and its time then.
fn ticked(clock: &mut Clock, time: Option<u64>) -> (Result<u64, ClockFull>, u64) {
    let answer = match time {
        Some(time) => clock.receive(time),
        None => clock.tick(),
    };
    (answer, clock.now())
}

#[test]
fn a_clock_at_its_end(rt: HostRuntime) {
    let mut clock = Clock::new();
    for (time, told, now) in CLOCK_AT_ITS_END {
        demand_same(&rt, time, &ticked(&mut clock, *time), &(*told, *now));
    }
}

macro_rules! stamp {
    ($time:expr, $process:expr) => {
        Stamp {
            time: $time,
            process: $process,
        }
    };
}

/// Stamps, each before the next.
const STAMPS: [Stamp; 4] = [stamp!(1, 9), stamp!(2, 0), stamp!(2, 1), stamp!(3, 0)];

/// Whether the stamps at two places are ordered as their places are.
fn are_ordered(place: usize, other: usize) -> bool {
    match (STAMPS.get(place), STAMPS.get(other)) {
        (Some(stamp), Some(later)) => {
            (stamp < later) == (place < other) && stamp.order(later) == place.cmp(&other)
        }
        _ => false,
    }
}

#[test]
fn stamps_by_time_and_then_by_process(rt: HostRuntime) {
    for place in 0..STAMPS.len() {
        for other in 0..STAMPS.len() {
            demand(&rt, &(place, other), are_ordered(place, other));
        }
    }
}

const SWAP: Op = Op::Swap {
    register: 0,
    value: 6,
};

/// Writes 7 where there is 6.
const SIX_TO_SEVEN: Op = Op::CompareAndSwap {
    register: 0,
    expected: 6,
    value: 7,
};

/// An operation, whether it updates, and whether it can answer that it is done, a value, and that its register was
/// unequal.
const ANSWERS: &[(Op, bool, [bool; 3])] = &[
    (READ, false, [false, true, false]),
    (WRITE_FIVE, true, [true, false, false]),
    (SWAP, true, [false, true, false]),
    (SIX_TO_SEVEN, true, [true, false, true]),
];

/// What an operation can answer, as the table has it.
fn answers_of(op: &Op) -> [bool; 3] {
    [
        op.can_answer(&Answer::Done),
        op.can_answer(&Answer::Value(9)),
        op.can_answer(&Answer::Unequal),
    ]
}

#[test]
fn operations_and_their_answers(rt: HostRuntime) {
    for (op, updates, answers) in ANSWERS {
        let told = (op.updates(), op.register(), answers_of(op));
        demand_same(&rt, op, &told, &(*updates, 0, *answers));
    }
}

const OUTSIDE: Op = Op::Write {
    register: 1,
    value: 7,
};

/// An operation on a memory of one register, what it answers, and the value that the register then has.
const ONE_MEMORY: &[(Op, Option<Answer>, u64)] = &[
    (READ, Some(Answer::Value(0)), 0),
    (WRITE_FIVE, Some(Answer::Done), 5),
    (READ, Some(Answer::Value(5)), 5),
    (SWAP, Some(Answer::Value(5)), 6),
    (SWAP, Some(Answer::Value(6)), 6),
    (WRITE_FIVE, Some(Answer::Done), 5),
    (OUTSIDE, None, 5),
    (Op::Read { register: 1 }, None, 5),
    (SIX_TO_SEVEN, Some(Answer::Unequal), 5),
    (SWAP, Some(Answer::Value(5)), 6),
    (SIX_TO_SEVEN, Some(Answer::Done), 7),
    (SIX_TO_SEVEN, Some(Answer::Unequal), 7),
    (
        Op::CompareAndSwap {
            register: 1,
            expected: 0,
            value: 7,
        },
        None,
        7,
    ),
];

/// Whether an operation on an own register is answered so, before it is applied.
fn is_answered(registers: &Registers, op: &Op, answer: Option<Answer>) -> bool {
    let is_own = (op.register() as usize) < registers.count();
    is_own == answer.is_some() && (!is_own || Some(registers.answer(op)) == answer)
}

/// Whether the operations are answered and applied so, one after another.
fn applies_all(registers: &mut Registers) -> bool {
    for (op, answer, value) in ONE_MEMORY {
        if !is_answered(registers, op, *answer) || registers.get(1).is_some() {
            return false;
        }
        if registers.apply(op) != *answer || registers.get(0) != Some(*value) {
            return false;
        }
    }
    true
}

#[test]
fn one_memory(rt: HostRuntime) {
    let mut registers = Registers::new(rt.alloc(), 1).expect(&rt, "memory");
    assert!(rt; applies_all(&mut registers));
}

/// Words, and why they are no names.
const NAMES: &[(&[&str], Option<NamesFault>)] = &[
    (&[], Some(NamesFault::NoName)),
    (&["x", "a1", "x"], Some(NamesFault::BadName { place: 1 })),
    (
        &["x", "abcdefghijklmnopq"],
        Some(NamesFault::BadName { place: 1 }),
    ),
    (
        &["x", "y", "x", "y"],
        Some(NamesFault::SameName { place: 2 }),
    ),
    (&["x", "y"], None),
    (&["x", "abcdefghijklmnop"], None),
];

fn add_all(names: &mut Vec<String>, alloc: Global, words: &[&str]) -> Result<(), AllocError> {
    for word in words {
        names.push(String::from_str(alloc, word)?)?;
    }
    Ok(())
}

/// Whether there are names of these words, or not for this cause.
fn are_judged(alloc: Global, words: &[&str], fault: Option<NamesFault>) -> bool {
    let mut names = Vec::new(alloc);
    add_all(&mut names, alloc, words).is_ok() && Names::new(names).err() == fault
}

#[test]
fn names_and_their_faults(rt: HostRuntime) {
    for (words, fault) in NAMES {
        demand(&rt, words, are_judged(rt.alloc(), words, *fault));
    }
}

/// Adds a name of three letters, another for each number up to 17,575.
pub(crate) fn push_name(text: &mut String, number: u32) -> Result<(), AllocError> {
    for place in [number / 676, number / 26, number] {
        text.push(char::from(b'a' + (place % 26) as u8))?;
    }
    Ok(())
}

/// Adds names, all different, as long as there are no more than 17,576.
fn add_many(names: &mut Vec<String>, alloc: Global, count: u32) -> Result<(), AllocError> {
    for number in 0..count {
        let mut name = String::new(alloc);
        push_name(&mut name, number)?;
        names.push(name)?;
    }
    Ok(())
}

/// How many names there are, and why there may not be that many.
const COUNTS: &[(u32, Option<NamesFault>)] = &[
    (4096, None),
    (4097, Some(NamesFault::TooManyNames)),
];

/// Whether there may be this number of names, or not for this cause.
fn are_counted(alloc: Global, count: u32, fault: Option<NamesFault>) -> bool {
    let mut names = Vec::new(alloc);
    add_many(&mut names, alloc, count).is_ok() && Names::new(names).err() == fault
}

#[test]
fn names_within_the_limits(rt: HostRuntime) {
    for (count, fault) in COUNTS {
        demand(&rt, count, are_counted(rt.alloc(), *count, *fault));
    }
}
