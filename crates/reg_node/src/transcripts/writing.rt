//! The lines of entries, written.
ghost use Rattle.std.specs.Prelude.{◌≡◌, ◌↔◌, ◌∷◌, ◌++◌, IfErr, IfOk, IsTrue, OnOk, string_bytes};
ghost use Rattle.std.specs.Fmt.{decimal};
ghost use Rattle.reg_frames.specs.Spelling.{Fits};
ghost use Rattle.reg_text.specs.Ops.{OpFits};
ghost use Rattle.reg_process.specs.declared.steps.Step.TheVariants.{Call};
ghost use Rattle.reg_node.specs.LineFaults.{IsEntryFault, IsFrameFault, IsStepFault};
ghost use Rattle.reg_node.specs.RecordLines.{IsFitting, RecordedFits, ReplyFits, StepFits, frame_text, recorded_text};
ghost use Rattle.reg_node.specs.RecordLines.{reply_text, step_text, told_text};
ghost use Rattle.reg_node.specs.Seals.{crc_behind, sealed_line};

use crate::transcripts::recorded::Recorded;
use crate::transcripts::sealing::seal;
use hex::encode;
use reg_base::{Answer, Names, Op};
use reg_frames::{Frame, FrameFault, encode as spell};
use reg_process::{Reply, Step};
use reg_text::{OpLine, name_of_op};
use std::alloc::{AllocError, Allocator};
use thiserror::Error;

/// Why an entry has no line.
#[derive(Clone, Copy, Debug, PartialEq, Eq, Error)]
pub enum LineFault {
    /// Its register has no name, or a number of its frame is beyond its limit.
    #[error("unfit")]
    Unfit,
    /// There was no memory.
    #[error("out of memory")]
    OutOfMemory,
}

impl From<AllocError> for LineFault {
    ghost use Rattle.std.specs.Prelude.{◌≡◌};
    ghost use Rattle.reg_node.specs.declared.transcripts.writing.LineFault.TheVariants.{OutOfMemory};

    ghost from_gives = { λ _ told. told ≡ OutOfMemory };

    fn from(_error: AllocError) -> LineFault {
        Self::OutOfMemory
    }
}

/// The bytes of a frame, each as two hexadecimal digits in lower case.
fn digits_of<A: Allocator + Copy>(alloc: A, frame: &Frame) -> Result<String<A>, LineFault>
    ensures digits { IfOk result (λ s. (string_bytes s ≡ frame_text frame.now) × Fits frame.now) }
    ensures fault { IfErr result (IsFrameFault frame.now) }
{
    let bytes = match spell(alloc, frame) {
        Ok(bytes) => bytes,
        Err(FrameFault::OutOfMemory) => return Err(LineFault::OutOfMemory),
        Err(_) => return Err(LineFault::Unfit),
    };
    let digits = encode(alloc, bytes)?;
    Ok(digits)
}

/// Whether the operation's register has a name.
fn is_named<A: Allocator + Copy>(names: &Names<A>, op: Op) -> bool
    ensures { IsTrue result ↔ OpFits names.now op }
{
    usize::from(op.register()) < names.count()
}

/// The text of a call.
fn call_text<A: Allocator + Copy>(
    alloc: A,
    names: &Names<A>,
    op: Op,
) -> Result<String<A>, AllocError>
    ensures { IfOk result (λ s. string_bytes s ≡ step_text names.now (Call op)) }
{
    let line = OpLine {
        name: name_of_op(names, op),
        op,
    };
    format!(in alloc; "call {line}")
}

/// The text of a step.
fn step_line<A: Allocator + Copy>(
    alloc: A,
    names: &Names<A>,
    step: &Step,
) -> Result<String<A>, LineFault>
    ensures text { IfOk result (λ s. (string_bytes s ≡ step_text names.now step.now) × StepFits names.now step.now) }
    ensures fault { IfErr result (IsStepFault names.now step.now) }
{
    match *step {
        Step::Call { op } => {
            if !is_named(names, op) {
                return Err(LineFault::Unfit);
            }
            let text = call_text(alloc, names, op)?;
            Ok(text)
        }
        Step::Take { from, frame } => {
            let digits = digits_of(alloc, &frame)?;
            let text = format!(in alloc; "take {from} {digits}")?;
            Ok(text)
        }
        Step::Tick => {
            let text = String::from_str(alloc, "tick")?;
            Ok(text)
        }
    }
}

/// The text of a reply.
fn reply_line<A: Allocator + Copy>(alloc: A, reply: Reply) -> Result<String<A>, AllocError>
    ensures text { IfOk result (λ s. string_bytes s ≡ reply_text reply) }
    ensures fits { ReplyFits reply }
{
    let place = reply.place;
    match reply.answer {
        Answer::Done => format!(in alloc; "done {place}"),
        Answer::Value(value) => format!(in alloc; "value {value} {place}"),
        Answer::Unequal => format!(in alloc; "unequal {place}"),
    }
}

/// The text of a process, its step, and the reply.
fn told_line<A: Allocator + Copy>(
    alloc: A,
    process: u8,
    step: &str,
    reply: Option<Reply>,
) -> Result<String<A>, AllocError>
    ensures text { IfOk result (λ s. string_bytes s ≡ decimal process ++ 32 ∷ told_text step.now reply) }
    ensures fits { OnOk result (IsFitting reply) }
{
    match reply {
        None => format!(in alloc; "{process} {step}"),
        Some(reply) => {
            let told = reply_line(alloc, reply)?;
            format!(in alloc; "{process} {step} = {told}")
        }
    }
}

/// The line of an entry, as a record has it, with no line feed.
pub fn recorded_line<A: Allocator + Copy>(
    alloc: A,
    names: &Names<A>,
    recorded: &Recorded,
) -> Result<String<A>, LineFault>
    ensures line { IfOk result
        (λ s. (string_bytes s ≡ recorded_text names.now recorded.now) × RecordedFits names.now recorded.now) }
    ensures fault { IfErr result (IsEntryFault names.now recorded.now) }
{
    let entry = recorded.entry;
    let step = step_line(alloc, names, &entry.step)?;
    let line = told_line(alloc, recorded.process, step.as_str(), entry.reply)?;
    Ok(line)
}

/// What a log grows by with an entry, and the register behind it.
pub fn sealed_entry<A: Allocator + Copy>(
    alloc: A,
    names: &Names<A>,
    crc: u32,
    recorded: &Recorded,
) -> Result<(Vec<u8, A>, u32), LineFault>
    ensures line { IfOk result
        (λ p. (p.0.items ≡ sealed_line crc (recorded_text names.now recorded.now))
        × (p.1 ≡ crc_behind crc (recorded_text names.now recorded.now))) }
    ensures fits { OnOk result (RecordedFits names.now recorded.now) }
    ensures fault { IfErr result (IsEntryFault names.now recorded.now) }
{
    let line = recorded_line(alloc, names, recorded)?;
    let mut bytes = Vec::new(alloc);
    let crc = seal(&mut bytes, crc, line.as_bytes())?;
    Ok((bytes, crc))
}
