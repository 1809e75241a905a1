//! The lines of steps.
ghost use Rattle.std.specs.Prelude.{◌≡◌, ◌<◌, ◌≤◌, ◌^◌, ℕ, List, [], ◌∷◌, ◌++◌, None, Some, IfSome, MatchOption};
ghost use Rattle.std.specs.Fmt.{decimal};
ghost use Rattle.reg_base.specs.Names.{names_fault};
ghost use Rattle.reg_frames.specs.declared.bodies.Frame.{Frame as AnyFrame};
ghost use Rattle.reg_frames.specs.Spelling.{Fits};
ghost use Rattle.reg_process.specs.declared.steps.Reply.{Reply as AnyReply};
ghost use Rattle.reg_process.specs.declared.steps.Step.{Step as AnyStep};
ghost use Rattle.reg_records.specs.declared.entries.LogEntry.{LogEntry as AnyEntry};
ghost use Rattle.reg_node.specs.declared.transcripts.recorded.Recorded.{Recorded as AnyRecorded};
ghost use Rattle.reg_node.specs.RecordLines.{EntryFits, RecordedFits, ReplyFits, StepFits, entry_text, frame_text};
ghost use Rattle.reg_node.specs.RecordLines.{recorded_text, reply_text, step_text};
ghost use Rattle.reg_node.specs.Refusals.{IsStepLine};

use crate::transcripts::frame_text::read_frame;
use crate::transcripts::recorded::Recorded;
use reg_base::{Answer, Names};
use reg_frames::Frame;
use reg_process::{Reply, Step};
use reg_records::LogEntry;
use reg_text::{Why, cut_at, field_within, numeral, read_op, skip};
use std::alloc::Allocator;

const LAST_PROCESS: u64 = 255;

/// The sender and the frame of a take.
fn read_take(text: &[u8]) -> Option<(u8, Frame)>
    ensures read { IfSome result (λ p. (text.now ≡ decimal p.0 ++ 32 ∷ frame_text p.1) × (p.0 ≤ 255) × Fits p.1) }
    ensures whole { (from : ℕ) (frame : AnyFrame) → from ≤ 255 → Fits frame
        → text.now ≡ decimal from ++ 32 ∷ frame_text frame → result ≡ Some (from, frame) }
{
    let (from, digits) = field_within(text, LAST_PROCESS, b' ')?;
    let frame = read_frame(digits)?;
    Some((from as u8, frame))
}

/// The step that the text spells.
fn read_step<A: Allocator + Copy>(text: &[u8], names: &Names<A>) -> Option<Step>
    requires { names_fault names.now ≡ None }
    ensures read { IfSome result (λ s. (text.now ≡ step_text names.now s) × StepFits names.now s) }
    ensures whole { (s : AnyStep) → StepFits names.now s → text.now ≡ step_text names.now s → result ≡ Some s }
{
    if let Some(rest) = skip(text, b"call ") {
        let op = read_op(rest, names)?;
        return Some(Step::Call { op });
    }
    if let Some(rest) = skip(text, b"take ") {
        let (from, frame) = read_take(rest)?;
        return Some(Step::Take { from, frame });
    }
    let rest = skip(text, b"tick")?;
    if rest.is_empty() {
        Some(Step::Tick)
    } else {
        None
    }
}

/// The value and the place of an answer that is a value.
fn read_value(text: &[u8]) -> Option<(u64, u64)>
    ensures read { IfSome result (λ p. (text.now ≡ decimal p.0 ++ 32 ∷ decimal p.1) × (p.0 < 2 ^ 64) × (p.1 < 2 ^ 64)) }
    ensures whole { (value place : ℕ) → value < 2 ^ 64 → place < 2 ^ 64 → text.now ≡ decimal value ++ 32 ∷ decimal place
        → result ≡ Some (value, place) }
{
    let (value, digits) = field_within(text, u64::MAX, b' ')?;
    let place = numeral(digits)?;
    Some((value, place))
}

/// The reply that the text spells.
fn read_reply(text: &[u8]) -> Option<Reply>
    ensures read { IfSome result (λ r. (text.now ≡ reply_text r) × ReplyFits r) }
    ensures whole { (r : AnyReply) → ReplyFits r → text.now ≡ reply_text r → result ≡ Some r }
{
    if let Some(digits) = skip(text, b"done ") {
        let place = numeral(digits)?;
        return Some(Reply {
            answer: Answer::Done,
            place,
        });
    }
    if let Some(digits) = skip(text, b"unequal ") {
        let place = numeral(digits)?;
        return Some(Reply {
            answer: Answer::Unequal,
            place,
        });
    }
    let rest = skip(text, b"value ")?;
    let (value, place) = read_value(rest)?;
    Some(Reply {
        answer: Answer::Value(value),
        place,
    })
}

/// What stands before the last space, where that is the last byte.
fn before_space(text: &[u8]) -> Option<&[u8]>
    ensures { MatchOption result ((front : List ℕ) → ¬ (text.now ≡ front ++ 32 ∷ []))
        (λ front. text.now ≡ front.now ++ 32 ∷ []) }
{
    text.strip_suffix(b" ")
}

/// The step before an equals sign, and the reply after it.
fn read_answered<A: Allocator + Copy>(
    front: &[u8],
    behind: &[u8],
    names: &Names<A>,
) -> Option<(Step, Reply)>
    requires { names_fault names.now ≡ None }
    ensures read { IfSome result
        (λ p. (front.now ≡ step_text names.now p.0 ++ 32 ∷ []) × (behind.now ≡ 32 ∷ reply_text p.1)
        × StepFits names.now p.0 × ReplyFits p.1) }
    ensures whole { (s : AnyStep) (r : AnyReply) → StepFits names.now s → ReplyFits r
        → front.now ≡ step_text names.now s ++ 32 ∷ [] → behind.now ≡ 32 ∷ reply_text r → result ≡ Some (s, r) }
{
    let text = before_space(front)?;
    let step = read_step(text, names)?;
    let words = skip(behind, b" ")?;
    let reply = read_reply(words)?;
    Some((step, reply))
}

/// The step that the text spells, with its reply where it has one.
fn read_entry<A: Allocator + Copy>(text: &[u8], names: &Names<A>) -> Option<LogEntry>
    requires { names_fault names.now ≡ None }
    ensures read { IfSome result (λ e. (text.now ≡ entry_text names.now e) × EntryFits names.now e) }
    ensures whole { (e : AnyEntry) → EntryFits names.now e → text.now ≡ entry_text names.now e → result ≡ Some e }
{
    match cut_at(text, b'=') {
        Some((front, behind)) => {
            let (step, reply) = read_answered(front, behind, names)?;
            Some(LogEntry {
                step,
                reply: Some(reply),
            })
        }
        None => {
            let step = read_step(text, names)?;
            Some(LogEntry { step, reply: None })
        }
    }
}

/// The step of a line. None where the line is no step's.
pub(crate) fn read_recorded<A: Allocator + Copy>(line: &[u8], names: &Names<A>) -> Option<Recorded>
    requires { names_fault names.now ≡ None }
    ensures read { IfSome result (λ r. (line.now ≡ recorded_text names.now r) × RecordedFits names.now r) }
    ensures whole { (r : AnyRecorded) → RecordedFits names.now r → line.now ≡ recorded_text names.now r
        → result ≡ Some r }
{
    let (process, text) = field_within(line, LAST_PROCESS, b' ')?;
    let entry = read_entry(text, names)?;
    Some(Recorded {
        process: process as u8,
        entry,
    })
}

/// Why a line is refused where no further step may come.
pub(crate) fn why_further<A: Allocator + Copy>(line: &[u8], names: &Names<A>) -> Why
    requires { names_fault names.now ≡ None }
    ensures form { (¬ IsStepLine names.now line.now) → result ≡ Why.Form }
    ensures further { IsStepLine names.now line.now → result ≡ Why.Range }
{
    match read_recorded(line, names) {
        Some(_) => Why::Range,
        None => Why::Form,
    }
}
