//! The colours of a drawing, and the legend of its signs.
use crate::drawing::layout::width_of;
use crate::drawing::shapes::{Spot, put_diamond, put_line, put_node, put_stub};
use crate::drawing::words::{put_all, put_with};
use reg_frames::Frame;
use reg_text::Sink;
use std::alloc::Allocator;

/// The colours, on light and on dark pages.
const HEAD: &str = "\
<style>
.awshow{font:12px ui-monospace,'DejaVu Sans Mono',Menlo,Consolas,monospace;font-variant-ligatures:none}
.awshow .page{fill:#ffffff}
.awshow text{fill:#1f2328;stroke:#ffffff;stroke-width:3px;stroke-linejoin:round;paint-order:stroke}
.awshow .name{font-weight:bold}
.awshow .soft{fill:#59636e}
.awshow .clock{fill:#ffffff;stroke:none;font-size:9px;text-anchor:middle}
.awshow .event{stroke:#d1d9e0;stroke-width:1}
.awshow .line{stroke:#59636e;stroke-width:1.5}
.awshow .dot{fill:#1f2328}
.awshow .bar{fill:#b6d7ff;stroke:#0969da;stroke-width:1}
.awshow .open{stroke-dasharray:3 3}
.awshow .point{fill:#cf222e;stroke:#ffffff;stroke-width:1}
.awshow .cast,.awshow .ack,.awshow .count{fill:none;stroke-width:1.5}
.awshow .cast{stroke:#0969da}
.awshow .ack{stroke:#1a7f37;stroke-dasharray:6 3}
.awshow .count{stroke:#9a6700;stroke-dasharray:2 3}
.awshow .cast-tip{fill:#0969da}
.awshow .ack-tip{fill:#1a7f37}
.awshow .count-tip{fill:#9a6700}
@media (prefers-color-scheme:dark){
.awshow .page{fill:#0d1117}
.awshow text{fill:#f0f6fc;stroke:#0d1117}
.awshow .soft{fill:#9198a1}
.awshow .clock{fill:#0d1117;stroke:none}
.awshow .event{stroke:#2f3742}
.awshow .line{stroke:#9198a1}
.awshow .dot{fill:#f0f6fc}
.awshow .bar{fill:#1b3a66;stroke:#58a6ff}
.awshow .point{fill:#ff7b72;stroke:#0d1117}
.awshow .cast{stroke:#58a6ff}
.awshow .ack{stroke:#3fb950}
.awshow .count{stroke:#d29922}
.awshow .cast-tip{fill:#58a6ff}
.awshow .ack-tip{fill:#3fb950}
.awshow .count-tip{fill:#d29922}
}
</style>
<defs>
";

/// Puts how arrows end.
fn put_tips<A: Allocator + Copy>(sink: &mut Sink<'_, Vec<u8, A>>) {
    for class in &["cast", "ack", "count"] {
        put_all(
            sink,
            &[
                "<marker id=\"",
                class,
                "\" viewBox=\"0 0 8 8\" refX=\"16\" refY=\"4\" markerWidth=\"8\" markerHeight=\"8\" markerUnits=\"userSpaceOnUse\" orient=\"auto\"><path class=\"",
                class,
                "-tip\" d=\"M0 0L8 4L0 8Z\"/></marker>\n",
            ],
        );
    }
}

/// Puts the head: the colours, and how arrows end.
pub(crate) fn put_head<A: Allocator + Copy>(sink: &mut Sink<'_, Vec<u8, A>>) {
    sink.put(HEAD.as_bytes());
    put_tips(sink);
    sink.put(b"</defs>\n");
}

/// A sign whose meaning is told.
#[derive(Clone, Copy)]
enum Sign {
    /// The line of a frame of this class.
    Line(&'static str),
    NeverTaken,
    Point,
    Event,
    /// Words alone.
    Words,
}

/// Which signs stand in a drawing. Only these are explained.
#[derive(Clone, Copy)]
pub(crate) struct Legend {
    pub(crate) cast: bool,
    pub(crate) acknowledgement: bool,
    pub(crate) count: bool,
    pub(crate) never_taken: bool,
    pub(crate) point: bool,
    pub(crate) event: bool,
    pub(crate) delivered: bool,
    pub(crate) counts_left_out: bool,
}

/// From the left edge to the first sign.
const BESIDE: u32 = 10;
/// From the words of a sign to the next one.
const APART: u32 = 18;
/// From one row to the next.
pub(crate) const ROW: u32 = 20;

impl Sign {
    /// From the left end of the sign to its words.
    fn wide(self) -> u32 {
        match self {
            Sign::Line(_) => 32,
            Sign::NeverTaken => 24,
            Sign::Point => 18,
            Sign::Event => 24,
            Sign::Words => 0,
        }
    }

    /// Puts the sign, from its left end on.
    fn put<A: Allocator + Copy>(self, sink: &mut Sink<'_, Vec<u8, A>>, at: Spot) {
        match self {
            Sign::Line(class) => put_line(sink, class, at.span_right(26)),
            Sign::NeverTaken => put_stub(sink, "cast", at.span_right(14)),
            Sign::Point => {
                put_diamond(sink, at.right(6));
                sink.put(b"/>");
            }
            Sign::Event => {
                put_node(sink, at.right(8), 3);
                sink.put(b"</g>");
            }
            Sign::Words => {}
        }
    }
}

/// Where the sign after this one begins.
fn next_to(x: u32, sign: Sign, words: &str) -> u32 {
    x.saturating_add(sign.wide())
        .saturating_add(width_of(words.len()))
        .saturating_add(APART)
}

/// Whether a sign that begins here reaches over the right edge of a drawing, and isn't the first of its row.
fn is_over(x: u32, sign: Sign, words: &str, width: u32) -> bool {
    x > BESIDE && next_to(x, sign, words) > width
}

/// Puts a sign with its words.
fn put_sign<A: Allocator + Copy>(
    sink: &mut Sink<'_, Vec<u8, A>>,
    at: Spot,
    sign: Sign,
    words: &str,
) {
    let x = at.x.saturating_add(sign.wide()) as u64;
    let y = at.y.saturating_add(4) as u64;
    sign.put(sink, at);
    put_with(sink, "<text class=\"soft\" x=\"{}\" y=\"{}\">", &[x, y]);
    put_all(sink, &[words, "</text>\n"]);
}

impl Legend {
    /// Whether a frame is drawn: a count isn't if counts are left out.
    pub(crate) fn draws(&self, frame: Frame) -> bool {
        !self.counts_left_out || !matches!(frame, Frame::Got { .. })
    }

    /// Each sign, with its words, and whether it is there.
    fn signs(&self) -> [(bool, Sign, &'static str); 8] {
        [
            (self.cast, Sign::Line("cast"), "cast"),
            (self.acknowledgement, Sign::Line("ack"), "acknowledgement"),
            (self.count, Sign::Line("count"), "count"),
            (self.never_taken, Sign::NeverTaken, "never taken"),
            (self.point, Sign::Point, "point"),
            (self.event, Sign::Event, "event, with the clock"),
            (self.delivered, Sign::Words, "(time, process): delivered"),
            (self.counts_left_out, Sign::Words, "counts are left out"),
        ]
    }

    /// How many rows the legend takes, in a drawing of this width.
    pub(crate) fn rows(&self, width: u32) -> u32 {
        let mut rows = 1u32;
        let mut x = BESIDE;
        for &(is_there, sign, words) in &self.signs() {
            if is_there {
                if is_over(x, sign, words, width) {
                    rows = rows.saturating_add(1);
                    x = BESIDE;
                }
                x = next_to(x, sign, words);
            }
        }
        rows
    }

    /// Puts the legend, with its first row at this height, in a drawing of this width.
    pub(crate) fn put<A: Allocator + Copy>(
        &self,
        sink: &mut Sink<'_, Vec<u8, A>>,
        y: u32,
        width: u32,
    ) {
        let mut at = Spot { x: BESIDE, y };
        for &(is_there, sign, words) in &self.signs() {
            if is_there {
                if is_over(at.x, sign, words, width) {
                    at = Spot {
                        x: BESIDE,
                        y: at.y.saturating_add(ROW),
                    };
                }
                put_sign(sink, at, sign, words);
                at.x = next_to(at.x, sign, words);
            }
        }
    }
}
