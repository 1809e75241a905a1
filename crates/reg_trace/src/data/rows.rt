//! The parts of the data that are numbers alone.
ghost use Rattle.reg_trace.specs.Rows.{arrow_row, cast_row, delivery_row, first_row, id_row, point_row, read_row};

use crate::data::json::{Part, put_numbers};
use crate::figures::Arrow;
use crate::moments::Delivery;
use reg_base::{Names, OpId};
use reg_checkers::Point;
use reg_process::Delivered;
use reg_text::Sink;
use reg_world::{CopyRead, First};
use std::alloc::Allocator;
use std::io::Write;

impl Part for Delivered {
    ghost part = { cast_row };

    fn put<A: Allocator + Copy, W: Write>(&self, sink: &mut Sink<'_, W>, _names: &Names<A>) {
        put_numbers(sink, &[self.stamp.time, self.stamp.process as u64]);
    }
}

impl Part for Delivery {
    ghost part = { delivery_row };

    fn put<A: Allocator + Copy, W: Write>(&self, sink: &mut Sink<'_, W>, names: &Names<A>) {
        self.cast.put(sink, names);
    }
}

impl Part for Arrow {
    ghost part = { arrow_row };

    fn put<A: Allocator + Copy, W: Write>(&self, sink: &mut Sink<'_, W>, _names: &Names<A>) {
        put_numbers(
            sink,
            &[
                self.from as u64,
                self.to as u64,
                self.place as u64,
                self.puts as u64,
                self.takes as u64,
            ],
        );
    }
}

impl Part for First {
    ghost part = { first_row };

    fn put<A: Allocator + Copy, W: Write>(&self, sink: &mut Sink<'_, W>, _names: &Names<A>) {
        put_numbers(
            sink,
            &[
                self.stamp.time,
                self.stamp.process as u64,
                self.id.number as u64,
                self.at as u64,
            ],
        );
    }
}

impl Part for CopyRead {
    ghost part = { read_row };

    fn put<A: Allocator + Copy, W: Write>(&self, sink: &mut Sink<'_, W>, _names: &Names<A>) {
        put_numbers(
            sink,
            &[self.id.process as u64, self.id.number as u64, self.place],
        );
    }
}

impl Part for OpId {
    ghost part = { id_row };

    fn put<A: Allocator + Copy, W: Write>(&self, sink: &mut Sink<'_, W>, _names: &Names<A>) {
        put_numbers(sink, &[self.process as u64, self.number as u64]);
    }
}

impl Part for Point {
    ghost part = { point_row };

    fn put<A: Allocator + Copy, W: Write>(&self, sink: &mut Sink<'_, W>, _names: &Names<A>) {
        put_numbers(
            sink,
            &[
                self.id.process as u64,
                self.id.number as u64,
                self.at as u64,
            ],
        );
    }
}
