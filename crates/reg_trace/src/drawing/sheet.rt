//! A space-time diagram of a run, as SVG.
ghost use Rattle.std.specs.Prelude.{IfOk, string_bytes};
ghost use Rattle.reg_trace.specs.Drawings.{IsDrawing};

use crate::drawing::layout::{BELOW, LEADING, Labelled, Layout, NUMBERS, TITLE, TOP};
use crate::drawing::legend::{Legend, ROW, put_head};
use crate::drawing::pictures::is_never_taken;
use crate::drawing::shapes::{Span, Spot, Way, put_diamond, put_node, put_stub};
use crate::drawing::sizes::Size;
use crate::drawing::words::{put_all, put_take, put_with};
use crate::figures::{Arrow, Bar};
use crate::moments::{Delivery, Moment, Sent};
use crate::trace_text::put_cast;
use reg_base::Names;
use reg_checkers::Point;
use reg_frames::{Body, Frame};
use reg_text::Sink;
use std::alloc::{AllocError, Allocator};
use std::str;

/// What is drawn of a run.
#[derive(Drop)]
pub(crate) struct Drawing<'a, A: Allocator + Copy> {
    pub(crate) names: &'a Names<A>,
    pub(crate) moments: &'a [Moment<A>],
    pub(crate) points: &'a [Point],
    pub(crate) bars: &'a [Labelled<A>],
    pub(crate) arrows: &'a [Arrow],
    pub(crate) layout: &'a Layout<A>,
    pub(crate) title: &'a [u8],
    pub(crate) legend: Legend,
    pub(crate) size: Size,
}

/// The class of a frame's lines.
fn class_of(frame: Frame) -> &'static str {
    match frame {
        Frame::Numbered {
            body: Body::Cast { .. },
            ..
        } => "cast",
        Frame::Numbered { .. } => "ack",
        Frame::Got { .. } => "count",
    }
}

impl<A: Allocator + Copy> Drawing<'_, A> {
    /// The x of an event.
    fn x(&self, event: usize) -> u32 {
        self.layout.events.get(event).copied().unwrap_or(0)
    }

    /// The y of a process's line.
    fn y(&self, process: u8) -> u32 {
        self.layout
            .rows
            .get(usize::from(process))
            .copied()
            .unwrap_or(0)
    }

    /// The height of the drawing, with its legend.
    fn height(&self) -> u32 {
        let rows = self.legend.rows(self.layout.width);
        self.layout
            .bottom
            .saturating_add(24)
            .saturating_add(rows.saturating_mul(ROW))
    }

    /// Where an event stands on a process's line.
    fn spot(&self, event: usize, process: u8) -> Spot {
        Spot {
            x: self.x(event),
            y: self.y(process),
        }
    }

    /// Puts the attributes of the element, its head and the page.
    fn put_page(&self, sink: &mut Sink<'_, Vec<u8, A>>) {
        let (width, height) = (self.layout.width, self.height());
        let (wide, high) = (self.size.of(width), self.size.of(height));
        let (width, height) = (width as u64, height as u64);
        put_with(
            sink,
            "xmlns=\"http://www.w3.org/2000/svg\" class=\"awshow\" width=\"{}\" height=\"{}\" viewBox=\"0 0 {} {}\" role=\"img\">\n<title>Space-time diagram: ",
            &[wide as u64, high as u64, width, height],
        );
        sink.put(self.title);
        sink.put(b"</title>\n");
        self.put_description(sink);
        put_head(sink);
        put_with(
            sink,
            "<rect class=\"page\" width=\"{}\" height=\"{}\"/>\n",
            &[width, height],
        );
    }

    /// Puts the title.
    fn put_title(&self, sink: &mut Sink<'_, Vec<u8, A>>) {
        put_with(
            sink,
            "<text class=\"name\" x=\"10\" y=\"{}\">",
            &[TITLE as u64],
        );
        sink.put(self.title);
        sink.put(b"</text>\n");
    }

    /// Puts the events' numbers, with a line each.
    fn put_events(&self, sink: &mut Sink<'_, Vec<u8, A>>) {
        let bottom = self.layout.bottom as u64;
        for (number, place) in self.layout.events.iter().enumerate() {
            let x = *place as u64;
            put_with(
                sink,
                "<line class=\"event\" x1=\"{}\" y1=\"{}\" x2=\"{}\" y2=\"{}\"/>\n<text class=\"soft\" x=\"{}\" y=\"{}\" text-anchor=\"middle\">{}</text>\n",
                &[x, TOP as u64, x, bottom, x, NUMBERS as u64, number as u64],
            );
        }
    }

    /// Puts the processes' lines, with their names.
    fn put_processes(&self, sink: &mut Sink<'_, Vec<u8, A>>) {
        let right = self.layout.width.saturating_sub(14) as u64;
        for (process, row) in self.layout.rows.iter().enumerate() {
            let y = *row as u64;
            put_with(
                sink,
                "<line class=\"line\" x1=\"40\" y1=\"{}\" x2=\"{}\" y2=\"{}\"/>\n<text class=\"name\" x=\"10\" y=\"{}\">p{}</text>\n",
                &[y, right, y, y.saturating_add(4), process as u64],
            );
        }
    }

    /// The frame that an event takes.
    fn frame_taken(&self, event: usize) -> Option<Frame> {
        self.moments.get(event)?.frame
    }

    /// The way of an arrow.
    fn way(&self, arrow: &Arrow) -> Way {
        let span = Span {
            from: self.spot(arrow.puts, arrow.from),
            to: self.spot(arrow.takes, arrow.to),
        };
        Way {
            span,
            bent: self.seems_to_meet(span, arrow),
        }
    }

    /// Puts the arrow of a frame.
    fn put_arrow(&self, sink: &mut Sink<'_, Vec<u8, A>>, arrow: &Arrow, frame: Frame) {
        let class = class_of(frame);
        let sent = Sent {
            to: arrow.to,
            place: arrow.place as usize,
            frame,
        };
        put_all(sink, &["<path class=\"", class, "\" d=\""]);
        self.way(arrow).put(sink);
        put_all(sink, &["\" marker-end=\"url(#", class, ")\"><title>"]);
        put_take(sink, self.names, arrow.from, &sent);
        sink.put(b"</title></path>\n");
    }

    /// Whether the straight line of an arrow seems to meet an event of a process between its ends.
    fn seems_to_meet(&self, span: Span, arrow: &Arrow) -> bool {
        let (above, below) = (arrow.from.min(arrow.to), arrow.from.max(arrow.to));
        for (number, moment) in self.moments.iter().enumerate() {
            let process = moment.process;
            let is_between = above < process
                && process < below
                && arrow.puts < number
                && number < arrow.takes;
            if is_between && span.passes(self.spot(number, process)) {
                return true;
            }
        }
        false
    }

    /// Puts an arrow for each frame that is taken.
    fn put_arrows(&self, sink: &mut Sink<'_, Vec<u8, A>>) {
        for arrow in self.arrows {
            if let Some(frame) = self.frame_taken(arrow.takes)
                && self.legend.draws(frame)
            {
                self.put_arrow(sink, arrow, frame);
            }
        }
    }

    /// Puts that a frame is never taken, beside the spot of its event.
    fn put_lost_frame(
        &self,
        sink: &mut Sink<'_, Vec<u8, A>>,
        process: u8,
        sent: &Sent,
        span: Span,
    ) {
        sink.put(b"<g><title>never taken: ");
        put_take(sink, self.names, process, sent);
        sink.put(b"</title>");
        put_stub(sink, class_of(sent.frame), span);
        sink.put(b"</g>\n");
    }

    /// Puts a stub for each frame that is never taken.
    fn put_stubs(&self, sink: &mut Sink<'_, Vec<u8, A>>) {
        for (number, moment) in self.moments.iter().enumerate() {
            let process = moment.process;
            let from = self.spot(number, process);
            let mut shift = 12u32;
            for sent in &moment.sent {
                if is_never_taken(&self.legend, self.moments, process, sent) {
                    let to = from.beside(shift, sent.to > process);
                    self.put_lost_frame(sink, process, sent, Span { from, to });
                    shift = shift.saturating_add(9).min(39);
                }
            }
        }
    }

    /// Where a bar ends, and its class.
    fn end_of(&self, bar: &Bar) -> (u32, &'static str) {
        match bar.end {
            Some(end) => (self.x(end.at as usize), "bar"),
            None => (self.layout.width.saturating_sub(14), "bar open"),
        }
    }

    /// Puts the bar of an operation, with its text.
    fn put_bar(&self, sink: &mut Sink<'_, Vec<u8, A>>, labelled: &Labelled<A>) {
        let bar = &labelled.bar;
        let id = bar.id;
        let Spot { x, y } = self.spot(bar.call as usize, id.process);
        let (end, class) = self.end_of(bar);
        let wide = end.saturating_sub(x).max(8) as u64;
        let (x, corner, base) = (x as u64, y.saturating_sub(28), y.saturating_sub(34));
        let (process, number) = (id.process as u64, id.number as u64);
        put_all(sink, &["<rect class=\"", class]);
        put_with(
            sink,
            "\" x=\"{}\" y=\"{}\" width=\"{}\" height=\"8\" rx=\"2\"><title>p{} #{}</title></rect>\n<text x=\"{}\" y=\"{}\">",
            &[x, corner as u64, wide, process, number, x, base as u64],
        );
        sink.put(labelled.text.as_slice());
        sink.put(b"</text>\n");
    }

    /// Puts a bar for each operation.
    fn put_bars(&self, sink: &mut Sink<'_, Vec<u8, A>>) {
        for labelled in self.bars {
            self.put_bar(sink, labelled);
        }
    }

    /// Puts where each operation takes effect.
    fn put_points(&self, sink: &mut Sink<'_, Vec<u8, A>>) {
        for point in self.points {
            let (id, at) = (point.id, point.at);
            let (process, number) = (id.process as u64, id.number as u64);
            let middle = Spot {
                x: self.x(at as usize),
                y: self.y(id.process).saturating_sub(24),
            };
            put_diamond(sink, middle);
            put_with(
                sink,
                "><title>p{} #{} at {}</title></path>\n",
                &[process, number, at as u64],
            );
        }
    }

    /// Puts what an event delivered, below it.
    fn put_delivered(&self, sink: &mut Sink<'_, Vec<u8, A>>, at: Spot, delivered: &[Delivery]) {
        let x = at.x.saturating_sub(3) as u64;
        let mut y = at.y.saturating_add(BELOW).saturating_sub(4);
        for delivery in delivered {
            put_with(sink, "<text x=\"{}\" y=\"{}\">", &[x, y as u64]);
            put_cast(sink, self.names, delivery.cast);
            sink.put(b"</text>\n");
            y = y.saturating_add(LEADING);
        }
    }

    /// Puts what the events delivered.
    fn put_deliveries(&self, sink: &mut Sink<'_, Vec<u8, A>>) {
        for (number, moment) in self.moments.iter().enumerate() {
            let at = self.spot(number, moment.process);
            self.put_delivered(sink, at, &moment.delivered);
        }
    }

    /// Puts the events on their lines, each with the clock after it in it.
    fn put_dots(&self, sink: &mut Sink<'_, Vec<u8, A>>) {
        for (number, moment) in self.moments.iter().enumerate() {
            let clock = moment.clock;
            put_node(sink, self.spot(number, moment.process), clock);
            put_with(
                sink,
                "<title>event {}, clock {}</title></g>\n",
                &[number as u64, clock],
            );
        }
    }

    /// Puts what happened: operations, deliveries and frames. Texts come first, so that the ground behind them cuts no
    /// arrow.
    fn put_run(&self, sink: &mut Sink<'_, Vec<u8, A>>) {
        self.put_bars(sink);
        self.put_deliveries(sink);
        self.put_arrows(sink);
        self.put_stubs(sink);
        self.put_points(sink);
        self.put_dots(sink);
    }

    /// Puts what stands inside of the element: its attributes, and its parts.
    fn put(&self, sink: &mut Sink<'_, Vec<u8, A>>) {
        let legend = self.layout.bottom.saturating_add(28);
        self.put_page(sink);
        self.put_title(sink);
        self.put_events(sink);
        self.put_processes(sink);
        self.put_run(sink);
        self.legend.put(sink, legend, self.layout.width);
    }
}

/// The text of an element `svg` with this inside of it.
fn element<A: Allocator + Copy>(alloc: A, inside: &str) -> Result<String<A>, AllocError>
    ensures { IfOk result (λ s. IsDrawing (string_bytes s)) }
{
    format!(in alloc; "<svg {inside}</svg>\n")
}

impl<A: Allocator + Copy> Drawing<'_, A> {
    /// The text of the drawing.
    ///
    /// # Errors
    ///
    /// Where memory is refused.
    pub(crate) fn text(&self, alloc: A) -> Result<String<A>, AllocError>
        ensures { IfOk result (λ s. IsDrawing (string_bytes s)) }
    {
        let mut bytes = Vec::new(alloc);
        let mut sink = Sink::new(&mut bytes);
        self.put(&mut sink);
        if sink.failed {
            return Err(AllocError);
        }
        match str::from_utf8(bytes.as_slice()) {
            Ok(inside) => element(alloc, inside),
            // All that was put is text, so this is never so.
            Err(_) => Err(AllocError),
        }
    }
}
