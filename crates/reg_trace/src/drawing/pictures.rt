//! What is told of a run, as a drawing.
ghost use Rattle.std.specs.Prelude.{IfOk, string_bytes};
ghost use Rattle.reg_trace.specs.Drawings.{IsDrawing};

use crate::drawing::layout::{Labelled, label_of, lay_out, width_of};
use crate::drawing::legend::Legend;
use crate::drawing::sheet::Drawing;
use crate::drawing::sizes::Size;
use crate::drawing::words::put_all;
use crate::figures::{Arrow, Bar, arrows, bars, is_taken};
use crate::moments::{Moment, Sent};
use crate::told::TracedRun;
use reg_base::Names;
use reg_frames::{Body, Frame};
use reg_front::Front;
use reg_text::Sink;
use std::alloc::{AllocError, Allocator};

/// The place of the reply of an operation that is answered.
fn place_of<A: Allocator + Copy>(moments: &[Moment<A>], bar: &Bar) -> Option<u64> {
    if let Some(end) = bar.end
        && let Some(moment) = moments.get(end.at as usize)
        && let Some(reply) = moment.reply
    {
        return Some(reply.place);
    }
    None
}

/// The bars, each with its text.
fn labels_of<A: Allocator + Copy>(
    alloc: A,
    told: &TracedRun<A>,
    bars: &[Bar],
) -> Result<Vec<Labelled<A>, A>, AllocError> {
    let mut labels = Vec::new(alloc);
    for bar in bars {
        let place = match &told.points {
            Some(_) => None,
            None => place_of(told.moments.as_slice(), bar),
        };
        labels.push(label_of(alloc, &told.names, bar, place)?)?;
    }
    Ok(labels)
}

/// With more events than this, counts are left out.
const MOST_WITH_COUNTS: usize = 30;
/// The least width.
const LEAST: u32 = 380;
/// The most registers that are named in the title.
const MOST_NAMED: u16 = 8;

/// Puts the names of the registers, the first of them where there are many.
fn put_names<A: Allocator + Copy>(sink: &mut Sink<'_, Vec<u8, A>>, names: &Names<A>) {
    for register in 0..MOST_NAMED {
        if let Some(name) = names.name(register) {
            put_all(sink, &[" ", name]);
        }
    }
    if names.count() > usize::from(MOST_NAMED) {
        sink.put(b" ..");
    }
}

/// Puts the title: the front end, the registers, and what else there is to say.
fn put_title<A: Allocator + Copy>(
    sink: &mut Sink<'_, Vec<u8, A>>,
    front: Front,
    names: &Names<A>,
    more: &str,
) {
    put_all(sink, &[front.name(), ", registers"]);
    put_names(sink, names);
    if !more.is_empty() {
        put_all(sink, &[": ", more]);
    }
}

/// The title of what is told of a run.
fn title_of<A: Allocator + Copy>(
    alloc: A,
    told: &TracedRun<A>,
    more: &str,
) -> Result<Vec<u8, A>, AllocError> {
    let mut title = Vec::new(alloc);
    let mut sink = Sink::new(&mut title);
    put_title(&mut sink, told.front, &told.names, more);
    if sink.failed {
        return Err(AllocError);
    }
    Ok(title)
}

/// Notes the line of a frame that is drawn.
fn note(legend: &mut Legend, frame: Frame) {
    match frame {
        Frame::Numbered {
            body: Body::Cast { .. },
            ..
        } => legend.cast = true,
        Frame::Numbered { .. } => legend.acknowledgement = true,
        Frame::Got { .. } => legend.count = !legend.counts_left_out,
    }
}

/// Whether a frame that was put is drawn as one that is never taken.
pub(crate) fn is_never_taken<A: Allocator + Copy>(
    legend: &Legend,
    moments: &[Moment<A>],
    from: u8,
    sent: &Sent,
) -> bool {
    legend.draws(sent.frame) && !is_taken(moments, from, sent.to, sent.place)
}

/// Notes the lines of the frames that are never taken.
fn note_never_taken<A: Allocator + Copy>(legend: &mut Legend, moments: &[Moment<A>]) {
    for moment in moments {
        for sent in &moment.sent {
            if is_never_taken(legend, moments, moment.process, sent) {
                legend.never_taken = true;
                note(legend, sent.frame);
            }
        }
    }
}

/// The signs that stand in the drawing of these moments.
fn legend_of<A: Allocator + Copy>(
    moments: &[Moment<A>],
    arrows: &[Arrow],
    has_points: bool,
) -> Legend {
    let mut legend = Legend {
        cast: false,
        acknowledgement: false,
        count: false,
        never_taken: false,
        point: has_points,
        event: !moments.is_empty(),
        delivered: false,
        counts_left_out: moments.len() > MOST_WITH_COUNTS,
    };
    for moment in moments {
        legend.delivered = legend.delivered || !moment.delivered.is_empty();
    }
    for arrow in arrows {
        if let Some(moment) = moments.get(arrow.takes) {
            if let Some(frame) = moment.frame {
                note(&mut legend, frame);
            }
        }
    }
    note_never_taken(&mut legend, moments);
    legend
}

/// The text of the drawing of what is told of a run, with these bars and this title.
fn text_of<A: Allocator + Copy>(
    alloc: A,
    told: &TracedRun<A>,
    bars: &[Labelled<A>],
    title: &[u8],
    size: Size,
) -> Result<String<A>, AllocError>
    ensures { IfOk result (λ s. IsDrawing (string_bytes s)) }
{
    let moments = told.moments.as_slice();
    let points = match &told.points {
        Some(points) => points.as_slice(),
        None => &[],
    };
    let least = width_of(title.len()).saturating_add(20).max(LEAST);
    let arrows = arrows(alloc, moments)?;
    let layout = lay_out(alloc, told, bars, least)?;
    let drawing = Drawing {
        names: &told.names,
        moments,
        points,
        bars,
        legend: legend_of(moments, arrows.as_slice(), !points.is_empty()),
        arrows: arrows.as_slice(),
        layout: &layout,
        title,
        size,
    };
    drawing.text(alloc)
}

/// Draws what is told of a run, as a space-time diagram: the text of an SVG element. Its title is that of the run's
/// front end and registers, and `more`, which has to be text as XML takes it, where it isn't empty. With more than 30
/// events counts are left out. What stands inside of the element no clause says.
///
/// # Errors
///
/// Where memory is refused.
pub fn draw_told<A: Allocator + Copy>(
    alloc: A,
    told: &TracedRun<A>,
    more: &str,
    size: Size,
) -> Result<String<A>, AllocError>
    ensures { IfOk result (λ s. IsDrawing (string_bytes s)) }
{
    let bars = bars(alloc, told.history.entries())?;
    let labels = labels_of(alloc, told, bars.as_slice())?;
    let title = title_of(alloc, told, more)?;
    text_of(alloc, told, labels.as_slice(), title.as_slice(), size)
}
