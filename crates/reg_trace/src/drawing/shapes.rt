//! The shapes of a drawing, as text. All lengths are pixels.
use crate::drawing::words::{put_all, put_with};
use reg_text::Sink;
use std::alloc::Allocator;

/// A spot, from the upper left corner.
#[derive(Clone, Copy)]
pub struct Spot {
    pub x: u32,
    pub y: u32,
}

impl Spot {
    /// The spot at this distance to the right.
    pub fn right(self, by: u32) -> Spot {
        Spot {
            x: self.x.saturating_add(by),
            y: self.y,
        }
    }

    /// The span from here to the spot at this distance to the right.
    pub fn span_right(self, by: u32) -> Span {
        Span {
            from: self,
            to: self.right(by),
        }
    }

    /// The spot at this distance to the right, 16 below or above.
    pub fn beside(self, right: u32, is_below: bool) -> Spot {
        let y = if is_below {
            self.y.saturating_add(16)
        } else {
            self.y.saturating_sub(16)
        };
        Spot {
            x: self.x.saturating_add(right),
            y,
        }
    }
}

/// From where to where a line goes.
#[derive(Clone, Copy)]
pub struct Span {
    pub from: Spot,
    pub to: Spot,
}

/// How close to a spot a line seems to meet it.
const CLOSE: u64 = 8;
/// How far a bent line leaves the straight one, twice over.
const BEND: u32 = 40;

impl Span {
    /// Whether it passes a spot so closely that it seems to meet it.
    pub fn passes(self, spot: Spot) -> bool {
        let (from, to) = (self.from, self.to);
        let height = i64::from(to.y).saturating_sub(i64::from(from.y));
        let wide = i64::from(to.x).saturating_sub(i64::from(from.x));
        let down = i64::from(spot.y).saturating_sub(i64::from(from.y));
        // Where the line is at the spot's height, by similar triangles.
        match wide.saturating_mul(down).checked_div(height) {
            Some(right) => {
                let x = i64::from(from.x).saturating_add(right);
                x.abs_diff(i64::from(spot.x)) < CLOSE
            }
            None => false,
        }
    }
}

/// The way of an arrow: straight, or bent to the right where it would seem to meet an event.
#[derive(Clone, Copy)]
pub struct Way {
    pub span: Span,
    pub bent: bool,
}

impl Way {
    /// Puts it as the path that an arrow goes.
    pub fn put<A: Allocator + Copy>(self, sink: &mut Sink<'_, Vec<u8, A>>) {
        let (from, to) = (self.span.from, self.span.to);
        put_with(sink, "M{} {}", &[from.x as u64, from.y as u64]);
        if self.bent {
            let x = (from.x / 2).saturating_add(to.x / 2).saturating_add(BEND);
            let y = (from.y / 2).saturating_add(to.y / 2);
            put_with(sink, "Q{} {} ", &[x as u64, y as u64]);
        } else {
            sink.put(b"L");
        }
        put_with(sink, "{} {}", &[to.x as u64, to.y as u64]);
    }
}

/// Puts a line of this class.
pub fn put_line<A: Allocator + Copy>(sink: &mut Sink<'_, Vec<u8, A>>, class: &str, span: Span) {
    let (from, to) = (span.from, span.to);
    let numbers = [from.x as u64, from.y as u64, to.x as u64, to.y as u64];
    put_all(sink, &["<line class=\"", class, "\" "]);
    put_with(sink, "x1=\"{}\" y1=\"{}\" x2=\"{}\" y2=\"{}\"/>", &numbers);
}

/// Puts the line of a frame that is never taken.
pub fn put_stub<A: Allocator + Copy>(sink: &mut Sink<'_, Vec<u8, A>>, class: &str, span: Span) {
    let Spot { x, y } = span.to;
    put_line(sink, class, span);
    put_all(sink, &["<circle class=\"", class, "-tip\""]);
    put_with(
        sink,
        " cx=\"{}\" cy=\"{}\" r=\"2.5\"/>",
        &[x as u64, y as u64],
    );
}

/// Puts the sign of a point, whose element the caller ends.
pub fn put_diamond<A: Allocator + Copy>(sink: &mut Sink<'_, Vec<u8, A>>, middle: Spot) {
    let (x, y) = (middle.x as u64, middle.y as u64);
    let (left, right) = (x.saturating_sub(6), x.saturating_add(6));
    let (top, bottom) = (y.saturating_sub(6), y.saturating_add(6));
    put_with(
        sink,
        "<path class=\"point\" d=\"M{} {}L{} {}L{} {}L{} {}Z\"",
        &[left, y, x, top, right, y, x, bottom],
    );
}

/// Puts an event with the clock after it, in a group that the caller ends.
pub fn put_node<A: Allocator + Copy>(sink: &mut Sink<'_, Vec<u8, A>>, middle: Spot, clock: u64) {
    let (x, y) = (middle.x as u64, middle.y as u64);
    let base = y.saturating_add(3);
    put_with(
        sink,
        "<g><circle class=\"dot\" cx=\"{}\" cy=\"{}\" r=\"8\"/><text class=\"clock\" x=\"{}\" y=\"{}\">{}</text>",
        &[x, y, x, base, clock],
    );
}
