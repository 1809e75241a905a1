//! Events, replies and faults as numbers.
ghost use Rattle.std.specs.Prelude.{◌≡◌};
ghost use Rattle.reg_c.specs.Events.{answer_code, answer_value, compare_and_swap_event, compare_and_swap_of, event_of};
ghost use Rattle.reg_c.specs.Events.{fault_code, op_of, refusal_code, reply_code};

use reg_base::{Answer, Op};
use reg_process::{ProcessFault, Reply};
use reg_world::{Event, WorldFault};

/// The operation that these numbers say: `kind` 0, 1 and 2 are a read, a write and a swap.
pub fn operation(kind: u32, register: u32, value: u64) -> Option<Op>
    ensures { result ≡ op_of kind register value }
{
    if register >= 65536 {
        return None;
    }
    let register = register as u16;
    match kind {
        0 => Some(Op::Read { register }),
        1 => Some(Op::Write { register, value }),
        2 => Some(Op::Swap { register, value }),
        _ => None,
    }
}

/// The compare-and-swap that these numbers say.
pub fn compare_and_swap(register: u32, expected: u64, value: u64) -> Option<Op>
    ensures { result ≡ compare_and_swap_of register expected value }
{
    if register > 65535 {
        return None;
    }
    Some(Op::CompareAndSwap {
        register: register as u16,
        expected,
        value,
    })
}

/// The call of a compare-and-swap that these numbers say.
pub fn compare_and_swap_call(process: u8, register: u32, expected: u64, value: u64) -> Option<Event>
    ensures { result ≡ compare_and_swap_event process register expected value }
{
    let op = compare_and_swap(register, expected, value)?;
    Some(Event::Call { process, op })
}

/// The event that these numbers say: `kind` 0, 1 and 2 call a read, a write and a swap of register `number` at the
/// process, 3 has it take frame `number` of `from`, and 4 is its tick.
pub fn event(kind: u32, process: u8, number: u32, from: u8, value: u64) -> Option<Event>
    ensures { result ≡ event_of kind process number from value }
{
    match kind {
        3 => Some(Event::Take {
            from,
            to: process,
            number,
        }),
        4 => Some(Event::Tick { process }),
        _ => match operation(kind, number, value) {
            Some(op) => Some(Event::Call { process, op }),
            None => None,
        },
    }
}

/// 1 for Done, 2 for a value, 3 for Unequal.
pub fn code_of_answer(answer: Answer) -> u32
    ensures { result ≡ answer_code answer }
{
    match answer {
        Answer::Done => 1,
        Answer::Value(_) => 2,
        Answer::Unequal => 3,
    }
}

/// The value of an answer, 0 for Done and Unequal.
pub fn value_of_answer(answer: Answer) -> u64
    ensures { result ≡ answer_value answer }
{
    match answer {
        Answer::Done => 0,
        Answer::Value(value) => value,
        Answer::Unequal => 0,
    }
}

/// 0 where an event gave no reply, else the number of its answer.
pub fn code_of_reply(reply: Option<Reply>) -> u32
    ensures { result ≡ reply_code reply }
{
    match reply {
        None => 0,
        Some(reply) => code_of_answer(reply.answer),
    }
}

/// The number of a fault of a world: 16 and more.
pub fn code_of_fault(fault: WorldFault) -> u32
    ensures { result ≡ fault_code fault }
{
    match fault {
        WorldFault::Failed => 16,
        WorldFault::TooManyEvents => 17,
        WorldFault::NoProcess => 18,
        WorldFault::Busy => 19,
        WorldFault::NoRegister => 20,
        WorldFault::TooManyOperations => 21,
        WorldFault::NoFrame => 22,
        WorldFault::OutOfMemory => 23,
    }
}

/// Why a process refuses a step: 16 and more, and the same numbers as for a world where the fault is the same.
pub fn code_of_refusal(fault: ProcessFault) -> u32
    ensures { result ≡ refusal_code fault }
{
    match fault {
        ProcessFault::Failed => 16,
        ProcessFault::NoProcess => 18,
        ProcessFault::Busy => 19,
        ProcessFault::NoRegister => 20,
        ProcessFault::TooManyOperations => 21,
        ProcessFault::OutOfMemory => 23,
        ProcessFault::Ahead => 24,
        ProcessFault::Stale => 25,
        ProcessFault::ClockFull => 26,
    }
}
