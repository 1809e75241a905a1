//! The texts of a drawing, put one after another.
use crate::moments::Sent;
use crate::trace_text::put_frame;
use reg_base::Names;
use reg_text::{Sink, cut_at, put_number};
use std::alloc::Allocator;

/// Puts texts, one after the other.
pub fn put_all<A: Allocator + Copy>(sink: &mut Sink<'_, Vec<u8, A>>, texts: &[&str]) {
    for text in texts {
        sink.put(text.as_bytes());
    }
}

/// Puts a text with these numbers in the places of its `{}`.
pub fn put_with<A: Allocator + Copy>(sink: &mut Sink<'_, Vec<u8, A>>, text: &str, numbers: &[u64]) {
    let mut rest = text.as_bytes();
    for number in numbers {
        if let Some((before, later)) = cut_at(rest, b'{') {
            sink.put(before);
            put_number(sink, "", *number);
            rest = later.get(1..).unwrap_or(b"");
        }
    }
    sink.put(rest);
}

/// Puts the take of a frame that a process put, in the words of a schedule and of a trace.
pub fn put_take<A: Allocator + Copy>(
    sink: &mut Sink<'_, Vec<u8, A>>,
    names: &Names<A>,
    from: u8,
    sent: &Sent,
) {
    let numbers = [from as u64, sent.to as u64, sent.place as u64];
    put_with(sink, "take {} {} {}: ", &numbers);
    put_frame(sink, names, from, sent.frame);
}
