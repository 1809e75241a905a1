//! What a drawing shows, in words, for those who don't see it.
use crate::drawing::pictures::is_never_taken;
use crate::drawing::sheet::Drawing;
use crate::drawing::words::{put_take, put_with};
use crate::figures::Bar;
use reg_text::Sink;
use std::alloc::Allocator;

/// Puts an operation, with when it was called and answered.
fn put_called<A: Allocator + Copy>(sink: &mut Sink<'_, Vec<u8, A>>, bar: &Bar) {
    let (text, at) = match bar.end {
        Some(end) if end.at == bar.call => ("p{} #{}, event {}: ", end.at),
        Some(end) => ("p{} #{}, events {} to {}: ", end.at),
        None => ("p{} #{}, from event {} on, not answered: ", 0),
    };
    let (process, number) = (bar.id.process as u64, bar.id.number as u64);
    put_with(sink, text, &[process, number, bar.call as u64, at as u64]);
}

impl<A: Allocator + Copy> Drawing<'_, A> {
    /// Puts who called what when, and what was answered.
    fn put_operations(&self, sink: &mut Sink<'_, Vec<u8, A>>) {
        for labelled in self.bars {
            put_called(sink, &labelled.bar);
            sink.put(labelled.text.as_slice());
            sink.put(b".\n");
        }
    }

    /// Puts the frames that are drawn and never taken.
    fn put_lost(&self, sink: &mut Sink<'_, Vec<u8, A>>) {
        for moment in self.moments {
            for sent in &moment.sent {
                if is_never_taken(&self.legend, self.moments, moment.process, sent) {
                    sink.put(b"Never taken: ");
                    put_take(sink, self.names, moment.process, sent);
                    sink.put(b".\n");
                }
            }
        }
    }

    /// Puts the element that says what the drawing shows.
    pub(crate) fn put_description(&self, sink: &mut Sink<'_, Vec<u8, A>>) {
        sink.put(b"<desc>\n");
        self.put_operations(sink);
        self.put_lost(sink);
        sink.put(b"</desc>\n");
    }
}
