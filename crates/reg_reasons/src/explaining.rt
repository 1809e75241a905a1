//! What stands after the first line of a refused text: where it doesn't fit, and why. It is safe; what it says is shown
//! by tests.
ghost use Rattle.std.specs.Prelude.{◌≡◌, None, IfOk};
ghost use Rattle.reg_base.specs.Names.{names_fault};

use crate::documents::explain_workload;
use crate::entries::explain_entry;
use crate::events::explain_event;
use crate::forms::{HEAD, RECORD_HEAD, RECORD_STEP};
use crate::lines_at::{Line, behind_parts, bytes_of, kept_before, line_at, parts_between};
use crate::orders::explain_list;
use crate::report_lines::{Part, Walk, number_on, walk_to};
use crate::saying::Notes;
use crate::scanning::mismatch_of;
use crate::stops::Documents;
use crate::wanting::{Form, Rules};
use crate::word_lines::{Kind, WordLine, listed};
use reg_base::Names;
use reg_base::limits::{MOST_EVENTS, MOST_REGISTERS};
use reg_commands::{Command, Fault, Verdict, Verdicts};
use reg_history::{ReadWhy, Report};
use reg_text::{Lines, read_names};
use std::alloc::{AllocError, Allocator};

/// The line of a report that tells its registers, or how many they are.
const LINE_OF_REGISTERS: u64 = 4;

/// What a step of a record is.
const RECORDED: &str =
    "a step, as in 0 call write x 5, 1 take 0 and a frame, or 0 tick, with = and a reply if it has one";

/// Where a text is refused: the number of a line of it, which it may end before, and why.
#[derive(Clone, Copy)]
pub(crate) struct RefusedLine<'a> {
    pub(crate) text: &'a [u8],
    pub(crate) number: u64,
    pub(crate) why: ReadWhy,
}

impl<'a> RefusedLine<'a> {
    /// The line. Where the text ends before, that is put, and what it needs.
    fn line<A: Allocator + Copy>(
        &self,
        notes: &mut Notes<'_, A>,
        wanted: &str,
    ) -> Option<Line<'a>> {
        let line = line_at(self.text, self.number);
        if line.is_none() {
            let early = "the text ends before a line that it needs: ";
            notes.put_all(&[early, wanted, "\n"]);
        }
        line
    }

    /// Puts the line, and where it has one, the first place that doesn't fit a form, and why. False where all fits.
    fn put_mismatch<A: Allocator + Copy>(
        &self,
        notes: &mut Notes<'_, A>,
        line: Line<'_>,
        form: Form,
        rules: Rules<'_>,
    ) -> bool {
        match mismatch_of(line.bytes, form, rules) {
            Some(mismatch) => {
                notes.put_place(line, mismatch.at);
                notes.put_mismatch(rules.names, mismatch);
                true
            }
            None => {
                notes.put_place(line, 0);
                false
            }
        }
    }

    /// The rules of a text with these names, of this version.
    fn rules<'x>(&self, names: &'x [&'x [u8]], is_older: bool) -> Rules<'x> {
        Rules {
            names,
            is_older,
            is_strict: self.why != ReadWhy::Form,
        }
    }

    /// The names of a schedule's registers.
    fn names_of_schedule<A: Allocator + Copy>(&self, alloc: A) -> Result<Names<A>, AllocError>
        ensures { IfOk result (λ names. names_fault names ≡ None) }
    {
        let mut lines = Lines::skipping(self.text);
        lines.next();
        match read_names(alloc, &mut lines, MOST_REGISTERS) {
            Ok(names) => Ok(names),
            Err(_) => Err(AllocError),
        }
    }

    /// Puts why this line behind those of a schedule is refused.
    fn put_event<A: Allocator + Copy>(
        &self,
        notes: &mut Notes<'_, A>,
        line: Line<'_>,
    ) -> Result<(), AllocError> {
        let names = self.names_of_schedule(notes.alloc)?;
        let words = WordLine {
            bytes: line.bytes,
            kind: Kind::Event,
        };
        match words.mismatch(&names) {
            Some(mismatch) => {
                notes.put_place(line, mismatch.at);
                notes.put_mismatch(listed(notes.alloc, &names)?.as_slice(), mismatch);
            }
            None => {
                notes.put_place(line, 0);
                let text = "a schedule has at most {} events\n";
                notes.put_with(text, &[MOST_EVENTS as u64]);
            }
        }
        Ok(())
    }

    fn explain_in_schedule<A: Allocator + Copy>(
        &self,
        notes: &mut Notes<'_, A>,
    ) -> Result<(), AllocError> {
        let place = kept_before(self.text, self.number);
        let head = HEAD.get(place).copied();
        let wanted = head.map_or("an event", |(wanted, _)| wanted);
        match (self.line(notes, wanted), head) {
            (Some(line), Some((_, form))) => {
                self.put_mismatch(notes, line, form, self.rules(&[], false));
            }
            (Some(line), None) => return self.put_event(notes, line),
            (None, _) => {}
        }
        Ok(())
    }

    /// Puts why this line of a record is refused.
    pub(crate) fn explain_in_record<A: Allocator + Copy>(&self, notes: &mut Notes<'_, A>) {
        let place = self.number.saturating_sub(1) as usize;
        let (wanted, form) = RECORD_HEAD
            .get(place)
            .copied()
            .unwrap_or((RECORDED, RECORD_STEP));
        if let Some(line) = self.line(notes, wanted)
            && !self.put_mismatch(notes, line, form, self.rules(&[], false))
        {
            notes.put_all(&["expected ", wanted, "\n"]);
        }
    }

    /// The names that a report has given its registers before the line.
    fn names_of_report<A: Allocator + Copy>(
        &self,
        alloc: A,
        is_older: bool,
    ) -> Result<Vec<&[u8], A>, AllocError> {
        let line = bytes_of(line_at(self.text, LINE_OF_REGISTERS));
        if is_older {
            let named = behind_parts(line, b' ', 1);
            return parts_between(alloc, named, b' ', named.len());
        }
        let named = behind_parts(self.text, b'\n', LINE_OF_REGISTERS as usize);
        let count = number_on(line).min(self.number);
        parts_between(alloc, named, b'\n', count as usize)
    }

    /// Puts why this line of a report is refused.
    fn put_of_report<A: Allocator + Copy>(
        &self,
        notes: &mut Notes<'_, A>,
        line: Line<'_>,
        walk: Walk,
        form: Form,
    ) -> Result<(), AllocError> {
        let names = self.names_of_report(notes.alloc, walk.is_older)?;
        let rules = self.rules(names.as_slice(), walk.is_older);
        if self.put_mismatch(notes, line, form, rules) {
            notes.put(walk.miscounted(line.bytes));
        }
        Ok(())
    }

    fn explain_in_report<A: Allocator + Copy>(
        &self,
        notes: &mut Notes<'_, A>,
    ) -> Result<(), AllocError> {
        let walk = walk_to(self.text, self.number);
        let (wanted, form) = walk.layout();
        let Some(line) = self.line(notes, wanted) else {
            return Ok(());
        };
        match self.why {
            ReadWhy::End => {
                notes.put_place(line, 0);
                notes.put("a report ends with the line end: no line stands after it\n");
            }
            ReadWhy::Place => {
                notes.put_place(line, 0);
                explain_entry(notes, self.text, line);
            }
            _ => return self.put_of_report(notes, line, walk, form),
        }
        Ok(())
    }
}

/// Puts what explains the fault that a command tells of a text.
fn explain<D: Documents, A: Allocator + Copy>(
    notes: &mut Notes<'_, A>,
    documents: D,
    command: Command,
    text: &str,
    fault: Fault,
) -> Result<(), AllocError> {
    match fault {
        Fault::Line { line, why } => {
            let refused = RefusedLine {
                text: text.as_bytes(),
                number: line,
                why,
            };
            match command {
                Command::Check => refused.explain_in_report(notes),
                _ => refused.explain_in_schedule(notes),
            }
        }
        Fault::Event { at, fault } => explain_event(notes, text, at, fault),
        Fault::Workload { fault } => explain_workload(notes, documents, text, fault),
        _ => Ok(()),
    }
}

/// What explains the fault that a command tells of a text.
pub(crate) fn explain_fault<D: Documents, A: Allocator + Copy>(
    alloc: A,
    documents: D,
    command: Command,
    text: &str,
    fault: Fault,
) -> Result<Vec<u8, A>, AllocError> {
    let mut bytes = Vec::new(alloc);
    let mut notes = Notes::new(alloc, &mut bytes);
    explain(&mut notes, documents, command, text, fault).and(notes.finish())?;
    Ok(bytes)
}

/// What explains the first verdict on a report that is no.
pub(crate) fn explain_verdicts<A: Allocator + Copy>(
    alloc: A,
    text: &[u8],
    report: &Report<A>,
    verdicts: Verdicts,
) -> Result<Vec<u8, A>, AllocError> {
    let mut bytes = Vec::new(alloc);
    let mut notes = Notes::new(alloc, &mut bytes);
    let told = match (verdicts.serial, verdicts.points) {
        (Verdict::No(reason), _) => explain_list(&mut notes, text, report, Part::Id, reason),
        (_, Some(Verdict::No(reason))) => explain_list(
            &mut notes,
            text,
            report,
            Part::Point,
            reason,
        ),
        _ => Ok(()),
    };
    told.and(notes.finish())?;
    Ok(bytes)
}
