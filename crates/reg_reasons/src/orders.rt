//! Why the order of a report, or its points, are refused.
use crate::lines_at::line_at;
use crate::report_lines::{Part, first_line};
use crate::saying::Notes;
use reg_base::{Answer, OpId, Registers};
use reg_checkers::{Fact, Point, fact_of, table_of};
use reg_commands::Reason;
use reg_history::{Entry, Report};
use reg_text::{put_answer, put_op};
use std::alloc::{AllocError, Allocator};

/// What is told of a line of a report: its number, and a text with these numbers in the places of its `{}`.
type Told = (u64, &'static str, [u64; 4]);

/// The numbers in a text about an operation: its process, its own number and these.
fn numbers_of(id: OpId, third: u64, fourth: u64) -> [u64; 4] {
    [id.process as u64, id.number as u64, third, fourth]
}

/// A list of a report that is refused, its order or its points, with what the history says of its operations.
#[derive(Drop)]
struct RefusedList<'a, A: Allocator + Copy> {
    text: &'a [u8],
    report: &'a Report<A>,
    /// The facts of all operations, by process and number.
    facts: Vec<Vec<Fact, A>, A>,
    ids: Vec<OpId, A>,
    /// The line of the first of them.
    first: u64,
}

/// Marks that an operation stands in a list. False where it is marked, or the history has no call of it.
fn mark<A: Allocator + Copy>(facts: &mut [Vec<Fact, A>], id: OpId) -> bool {
    let Some(row) = facts.get_mut(usize::from(id.process)) else {
        return false;
    };
    let Some(fact) = row.get_mut(id.number as usize) else {
        return false;
    };
    let is_first = !fact.stands;
    fact.stands = true;
    is_first
}

impl<A: Allocator + Copy> RefusedList<'_, A> {
    /// The line of a place.
    fn line(&self, place: usize) -> u64 {
        self.first.saturating_add(place as u64)
    }

    /// The line of the entry at a place of the history.
    fn entry_line(&self, place: usize) -> u64 {
        first_line(self.text, Part::Entry).saturating_add(place as u64)
    }

    /// The operation at a place, and what the history says of it.
    fn fact(&self, place: usize) -> Option<(OpId, Fact)> {
        let id = self.ids.get(place).copied()?;
        Some((id, fact_of(&self.facts, id)?))
    }

    /// The first operation that may stand in no order.
    fn unknown(&self) -> Option<Told> {
        for (place, id) in self.ids.iter().enumerate() {
            let text = match fact_of(&self.facts, *id) {
                None => "the history has no call of p{} #{}\n",
                Some(fact) if fact.answered.is_none() && !fact.op.updates() => {
                    "p{} #{} is a read that is not answered\n"
                }
                Some(_) => continue,
            };
            return Some((self.line(place), text, numbers_of(*id, 0, 0)));
        }
        None
    }

    /// The place of the first operation that stands there before, and that operation.
    fn repeated(&mut self) -> Option<(usize, OpId)> {
        for (place, id) in self.ids.iter().enumerate() {
            if !mark(&mut self.facts, *id) {
                return Some((place, *id));
            }
        }
        None
    }

    /// The first operation that stands there before.
    fn twice(&mut self) -> Option<Told> {
        let (place, id) = self.repeated()?;
        for (first, it) in self.ids.iter().enumerate() {
            if *it == id {
                let text = "p{} #{} stands on line {} too\n";
                return Some((self.line(place), text, numbers_of(id, self.line(first), 0)));
            }
        }
        None
    }

    /// The first answered operation that doesn't stand there.
    fn missing(&mut self) -> Option<Told> {
        for id in &self.ids {
            mark(&mut self.facts, *id);
        }
        for (place, entry) in self.report.history().entries().iter().enumerate() {
            if let Entry::Answered { id, .. } = *entry
                && mark(&mut self.facts, id)
            {
                let text = if self.ids.is_empty() {
                    "p{} #{} is answered here, and the order is empty: awshow find looks for one\n"
                } else {
                    "p{} #{} is answered here, and doesn't stand in the order\n"
                };
                return Some((self.entry_line(place), text, numbers_of(id, 0, 0)));
            }
        }
        None
    }

    /// The first operation after a later one of its process.
    fn own_order(&self) -> Option<Told> {
        let mut latest = [0u32; 256];
        for (place, id) in self.ids.iter().enumerate() {
            let last = latest[id.process as usize];
            if id.number < last {
                let text = "p{} #{} stands after p{} #{}, which its process called later\n";
                let numbers = numbers_of(*id, id.process as u64, last as u64);
                return Some((self.line(place), text, numbers));
            }
            latest[id.process as usize] = id.number;
        }
        None
    }

    /// The operation at a place, whose point isn't between its call and its answer.
    fn outside(&self, place: usize) -> Option<Told> {
        let (id, fact) = self.fact(place)?;
        let (text, answered) = match fact.answered {
            Some(given) => (
                "p{} #{} is called at event {} and answered at event {}: its point is not between them\n",
                given.at,
            ),
            None => (
                "p{} #{} is called at event {} and not answered: its point is not between them\n",
                0,
            ),
        };
        let numbers = numbers_of(id, fact.called as u64, answered as u64);
        Some((self.line(place), text, numbers))
    }

    /// The point at a place, which is below the one before it.
    fn falling(&self, place: usize) -> Option<Told> {
        let point = self.report.points()?.get(place.saturating_sub(1))?;
        let text = "the point before it is at event {}: points never fall\n";
        Some((self.line(place), text, [point.at as u64, 0, 0, 0]))
    }

    fn put_told(&self, notes: &mut Notes<'_, A>, told: Told) {
        let (number, text, numbers) = told;
        if let Some(line) = line_at(self.text, number) {
            notes.put_place(line, 0);
        }
        notes.put_with(text, &numbers);
    }

    /// What memory answers at a place, after what it holds now.
    fn answer_in(&self, memory: &mut Registers<A>, place: usize) -> Option<Answer> {
        let mut answer = None;
        for id in self.ids.iter().take(place.saturating_add(1)) {
            if let Some(fact) = fact_of(&self.facts, *id) {
                answer = memory.apply(&fact.op);
            }
        }
        answer
    }

    /// What memory answers at a place.
    fn answer_at(&self, alloc: A, place: usize) -> Result<Option<Answer>, AllocError> {
        let mut memory = Registers::new(alloc, self.report.names().count() as u16)?;
        Ok(self.answer_in(&mut memory, place))
    }

    /// Puts what memory answers, and what the report says of this operation.
    fn put_answers(&self, notes: &mut Notes<'_, A>, id: OpId, answer: Answer) {
        for (place, entry) in self.report.history().entries().iter().enumerate() {
            if let Entry::Answered {
                id: answered,
                answer: given,
                ..
            } = *entry
                && answered == id
            {
                notes.put(": memory answers ");
                put_answer(&mut notes.sink, answer);
                notes.put(" there, and the report says ");
                put_answer(&mut notes.sink, given);
                notes.put_with(" on line {}", &[self.entry_line(place)]);
            }
        }
    }

    /// Puts why the answer of the operation at a place is wrong.
    fn explain_answer(&self, notes: &mut Notes<'_, A>, place: usize) -> Result<(), AllocError> {
        let Some((id, fact)) = self.fact(place) else {
            return Ok(());
        };
        let told = (self.line(place), "p{} #{} is ", numbers_of(id, 0, 0));
        self.put_told(notes, told);
        put_op(&mut notes.sink, self.report.names(), fact.op);
        if let Some(answer) = self.answer_at(notes.alloc, place)? {
            self.put_answers(notes, id, answer);
        }
        notes.put("\n");
        Ok(())
    }

    /// Puts why it is refused.
    fn explain(&mut self, notes: &mut Notes<'_, A>, reason: Reason) -> Result<(), AllocError> {
        let told = match reason {
            Reason::Unknown => self.unknown(),
            Reason::Twice => self.twice(),
            Reason::Missing => self.missing(),
            Reason::OwnOrder => self.own_order(),
            Reason::Answer { place } => return self.explain_answer(notes, place),
            Reason::Outside { place } => self.outside(place),
            Reason::Falling { place } => self.falling(place),
        };
        if let Some(told) = told {
            self.put_told(notes, told);
        }
        Ok(())
    }
}

/// The operations of points.
fn ids_of_points<A: Allocator + Copy>(
    alloc: A,
    points: &[Point],
) -> Result<Vec<OpId, A>, AllocError> {
    let mut ids = Vec::new(alloc);
    for point in points {
        ids.push(point.id)?;
    }
    Ok(ids)
}

/// The operations of a report's order, or where the part is that of points, of its points.
fn ids_of<A: Allocator + Copy>(
    alloc: A,
    report: &Report<A>,
    part: Part,
) -> Result<Vec<OpId, A>, AllocError> {
    match (part, report.points()) {
        (Part::Point, Some(points)) => ids_of_points(alloc, points),
        _ => report.order().to_vec(alloc),
    }
}

/// Puts why the order of a report that this text spells, or where the part is that of points, its points are refused.
pub fn explain_list<A: Allocator + Copy>(
    notes: &mut Notes<'_, A>,
    text: &[u8],
    report: &Report<A>,
    part: Part,
    reason: Reason,
) -> Result<(), AllocError> {
    let history = report.history();
    let mut list = RefusedList {
        text,
        report,
        facts: table_of(notes.alloc, history.shape(), history.entries())?,
        ids: ids_of(notes.alloc, report, part)?,
        first: first_line(text, part),
    };
    list.explain(notes, reason)
}
