//! Where the parts of a drawing stand.
use crate::figures::Bar;
use crate::moments::Moment;
use crate::rooms::{Filled, GAP};
use crate::told::TracedRun;
use crate::trace_text::put_cast;
use reg_base::Names;
use reg_process::Delivered;
use reg_text::{Sink, put_answer, put_number, put_op};
use std::alloc::{AllocError, Allocator};

/// The left edge of the first event.
const LEFT: u32 = 64;
/// The least distance of two events.
const STEP: u32 = 52;
/// From the top to the title.
pub const TITLE: u32 = 20;
/// From the top to the events' numbers.
pub const NUMBERS: u32 = 46;
/// From the top to the first row.
pub const TOP: u32 = 56;
/// What stands above a process's line: its bars and their texts.
const ABOVE: u32 = 58;
/// What stands below a process's line before its first delivery.
pub const BELOW: u32 = 34;
/// From one delivery of an event to the next.
pub const LEADING: u32 = 15;

/// The bar of an operation, with the text beside it.
#[derive(Drop)]
pub struct Labelled<A: Allocator + Copy> {
    pub bar: Bar,
    pub text: Vec<u8, A>,
}

/// Puts the text of a bar: its operation, and its answer with its place where one is given.
fn put_label<A: Allocator + Copy>(
    sink: &mut Sink<'_, Vec<u8, A>>,
    names: &Names<A>,
    bar: &Bar,
    place: Option<u64>,
) {
    put_op(sink, names, bar.op);
    if let Some(end) = bar.end {
        sink.put(b": ");
        put_answer(sink, end.answer);
        if let Some(place) = place {
            put_number(sink, ", place ", place);
        }
    }
}

/// A bar with its text: its operation, and its answer with its place where the run has no points.
pub fn label_of<A: Allocator + Copy>(
    alloc: A,
    names: &Names<A>,
    bar: &Bar,
    place: Option<u64>,
) -> Result<Labelled<A>, AllocError> {
    let mut text = Vec::new(alloc);
    let mut sink = Sink::new(&mut text);
    put_label(&mut sink, names, bar, place);
    if sink.failed {
        return Err(AllocError);
    }
    Ok(Labelled { bar: *bar, text })
}

/// Where the parts of a drawing stand: the events from left to right, and the processes' lines from above.
#[derive(Drop)]
pub struct Layout<A: Allocator + Copy> {
    pub events: Vec<u32, A>,
    pub rows: Vec<u32, A>,
    pub width: u32,
    /// Where the last row ends, and the legend begins.
    pub bottom: u32,
}

/// About how wide a text is.
pub fn width_of(letters: usize) -> u32 {
    let letters = u32::try_from(letters).unwrap_or(u32::MAX);
    letters.saturating_mul(15) / 2
}

/// The length of the text of a cast.
fn length_of<A: Allocator + Copy>(
    alloc: A,
    names: &Names<A>,
    cast: Delivered,
) -> Result<usize, AllocError> {
    let mut text = Vec::new(alloc);
    let mut sink = Sink::new(&mut text);
    put_cast(&mut sink, names, cast);
    if sink.failed {
        return Err(AllocError);
    }
    Ok(text.len())
}

/// The length of the longest text of an event's deliveries.
fn longest<A: Allocator + Copy>(
    alloc: A,
    names: &Names<A>,
    moment: &Moment<A>,
) -> Result<usize, AllocError> {
    let mut most = 0;
    for delivery in &moment.delivered {
        most = most.max(length_of(alloc, names, delivery.cast)?);
    }
    Ok(most)
}

/// The places of the lines, with room below each for the deliveries of one event.
fn rows_of<A: Allocator + Copy>(
    alloc: A,
    processes: u32,
    moments: &[Moment<A>],
) -> Result<(Vec<u32, A>, u32), AllocError> {
    let mut rows = Vec::new(alloc);
    let mut y = TOP;
    for process in 0..processes {
        let mut most = 0u32;
        for moment in moments {
            if u32::from(moment.process) == process {
                most = most.max(u32::try_from(moment.delivered.len()).unwrap_or(u32::MAX));
            }
        }
        y = y.saturating_add(ABOVE);
        rows.push(y)?;
        y = y
            .saturating_add(BELOW)
            .saturating_add(most.saturating_mul(LEADING));
    }
    Ok((rows, y))
}

/// The places of a drawing that are found one after another, from left to right.
#[derive(Drop)]
struct Placing<'a, A: Allocator + Copy> {
    names: &'a Names<A>,
    bars: &'a [Labelled<A>],
    filled: Filled,
}

impl<A: Allocator + Copy> Placing<'_, A> {
    /// The place of an event, from x on, so that the texts of its bars stand where the line is free.
    fn put_bars(&mut self, number: usize, process: u8, from: u32) -> u32 {
        let mut x = from;
        for labelled in self.bars {
            if labelled.bar.call as usize == number {
                let wide = width_of(labelled.text.len());
                x = self.filled.put_above(process, x, wide);
            }
        }
        x
    }

    /// The place of an event, from x on, so that the texts of its deliveries stand where the line is free.
    fn put_deliveries(
        &mut self,
        alloc: A,
        moment: &Moment<A>,
        from: u32,
    ) -> Result<u32, AllocError> {
        if moment.delivered.is_empty() {
            return Ok(from);
        }
        let wide = width_of(longest(alloc, self.names, moment)?);
        Ok(self.filled.put_below(moment.process, from, wide))
    }

    /// The places of the events.
    fn events(&mut self, alloc: A, moments: &[Moment<A>]) -> Result<Vec<u32, A>, AllocError> {
        let mut events = Vec::new(alloc);
        let mut from = LEFT;
        for (number, moment) in moments.iter().enumerate() {
            let beside = self.put_bars(number, moment.process, from);
            let x = self.put_deliveries(alloc, moment, beside)?;
            events.push(x)?;
            from = x.saturating_add(STEP);
            self.filled.reach(from);
        }
        Ok(events)
    }
}

/// The layout of a run with these bars, at least as wide as given.
pub fn lay_out<A: Allocator + Copy>(
    alloc: A,
    told: &TracedRun<A>,
    bars: &[Labelled<A>],
    least: u32,
) -> Result<Layout<A>, AllocError> {
    let moments = told.moments.as_slice();
    let mut placing = Placing {
        names: &told.names,
        bars,
        filled: Filled::new(least),
    };
    let (rows, bottom) = rows_of(alloc, told.history.shape().processes(), moments)?;
    let events = placing.events(alloc, moments)?;
    Ok(Layout {
        events,
        rows,
        width: placing.filled.right().saturating_add(GAP),
        bottom,
    })
}
