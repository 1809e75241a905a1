//! Why a history is not judged.
ghost use Rattle.std.specs.Prelude.{◌++◌, ◌∷◌, [], codes};
ghost use Rattle.std.specs.Fmt.{decimal};
ghost use Rattle.reg_text.specs.Writing.{Puts, IsWritten};
ghost use Rattle.reg_judge.specs.Faults.{rule_line, rule_text};

use crate::rulings::seats::Unseated;
use reg_commands::{Fault, Refusal};
use reg_text::{Sink, Unwritten, put_number};
use std::alloc::{AllocError, AllocFailed};
use std::io::Write;

/// Why a history is not judged. It says nothing of the history. Numbers are those of events.
#[derive(Clone, Copy, Debug, PartialEq, Eq)]
pub enum RuleFault {
    /// The call of this event found no place in a history under other names.
    Full { at: u32 },
    /// The entry of this event may not come next.
    OutOfPlace { at: u32 },
    /// At the entry of this event the search for a point order had too many stages.
    TooWide { at: u32 },
    /// The point order that was found did not pass its check.
    Unchecked,
    /// A history with its point order is beyond the limits of a report.
    NoReport,
    /// There was no memory for it.
    OutOfMemory,
}

impl From<AllocError> for RuleFault {
    ghost use Rattle.std.specs.Prelude.{◌≡◌};
    ghost use Rattle.reg_judge.specs.declared.rulings.faults.RuleFault.TheVariants.{OutOfMemory};

    ghost from_gives = { λ _ told. told ≡ OutOfMemory };

    fn from(_error: AllocError) -> RuleFault {
        RuleFault::OutOfMemory
    }
}

impl<T: Drop> From<AllocFailed<T>> for RuleFault {
    ghost use Rattle.std.specs.Prelude.{◌≡◌};
    ghost use Rattle.reg_judge.specs.declared.rulings.faults.RuleFault.TheVariants.{OutOfMemory};

    ghost from_gives = { λ _ told. told ≡ OutOfMemory };

    fn from(_error: AllocFailed<T>) -> RuleFault {
        RuleFault::OutOfMemory
    }
}

impl From<Unseated> for RuleFault {
    fn from(fault: Unseated) -> RuleFault {
        match fault {
            Unseated::Full { at } => RuleFault::Full { at },
            Unseated::OutOfPlace { at } => RuleFault::OutOfPlace { at },
            Unseated::OutOfMemory => RuleFault::OutOfMemory,
        }
    }
}

/// Why a report is not judged.
#[derive(Clone, Copy, Debug, PartialEq, Eq)]
pub enum RulingFault {
    /// The input is refused, the output failed, or there was no memory.
    Command { fault: Fault },
    /// The report is read, and nothing is said of its history.
    Rule { fault: RuleFault },
}

impl From<Fault> for RulingFault {
    ghost use Rattle.std.specs.Prelude.{◌≡◌};
    ghost use Rattle.reg_judge.specs.declared.rulings.faults.RulingFault.TheVariants.{Command};

    ghost from_gives = { λ fault told. told ≡ Command fault };

    fn from(fault: Fault) -> RulingFault {
        RulingFault::Command { fault }
    }
}

impl From<RuleFault> for RulingFault {
    ghost use Rattle.std.specs.Prelude.{◌≡◌};
    ghost use Rattle.reg_judge.specs.declared.rulings.faults.RulingFault.TheVariants.{Rule};

    ghost from_gives = { λ fault told. told ≡ Rule fault };

    fn from(fault: RuleFault) -> RulingFault {
        RulingFault::Rule { fault }
    }
}

/// Puts what is wrong at the event of this number.
fn put_event<W: Write>(sink: &mut Sink<'_, W>, at: u32, words: &str)
    ensures { Puts W.contents sink.old sink.new (codes "event " ++ decimal at ++ words.now) }
{
    put_number(sink, "event ", at as u64);
    sink.put(words.as_bytes());
}

/// Puts a fault as text.
fn put_text<W: Write>(sink: &mut Sink<'_, W>, fault: RuleFault)
    ensures { Puts W.contents sink.old sink.new (rule_text fault) }
{
    match fault {
        RuleFault::Full { at } => put_event(sink, at, ": more than 64 calls under way"),
        RuleFault::OutOfPlace { at } => put_event(sink, at, ": out of place"),
        RuleFault::TooWide { at } => {
            put_event(
                sink,
                at,
                ": too many stages in the search for a point order",
            );
        }
        RuleFault::Unchecked => sink.put(b"the point order that was found is none"),
        RuleFault::NoReport => sink.put(b"beyond the limits of a report"),
        RuleFault::OutOfMemory => sink.put(b"out of memory"),
    }
}

/// Puts the line of a fault.
fn put_rule<W: Write>(sink: &mut Sink<'_, W>, fault: RuleFault)
    ensures { Puts W.contents sink.old sink.new (rule_text fault ++ 10 ∷ []) }
{
    put_text(sink, fault);
    sink.put(b"\n");
}

/// Writes the line of a fault, all of it or, where the writer fails, a first part.
fn write_rule<W: Write>(errors: &mut W, fault: RuleFault) -> Result<(), Unwritten>
    ensures { IsWritten result (W.contents errors.old) (W.contents errors.new) (rule_line (RulingFault.Rule fault)) }
{
    let mut sink = Sink::new(errors);
    put_rule(&mut sink, fault);
    sink.finish()
}

impl Refusal for RulingFault {
    ghost use Rattle.reg_judge.specs.Faults.{rule_line};
    ghost use Rattle.reg_judge.specs.declared.rulings.faults.RulingFault.TheVariants.{Command};

    ghost line = { rule_line };

    ghost of_fault = { λ fault. Command fault };

    fn write_line<W: Write>(self, errors: &mut W) -> Result<(), Unwritten> {
        match self {
            RulingFault::Command { fault } => fault.write_line(errors),
            RulingFault::Rule { fault } => write_rule(errors, fault),
        }
    }

    ghost is_told = { λ _ _ same. same };

    ghost tells_output = { λ _ same. cc };
}
