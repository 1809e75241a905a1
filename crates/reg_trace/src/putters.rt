//! Which event put each frame.
ghost use Rattle.std.specs.Prelude.{◌≡◌, Some, cond, IfOk, OnOk};
ghost use Rattle.std.specs.BTreeMap.{get};
ghost use Rattle.reg_trace.specs.declared.putters.WirePlace.{WirePlace as AnyPlace};
ghost use Rattle.reg_trace.specs.Putters.{ArePutters, puts_at, wire_place_cmp};

use crate::moments::Moment;
use std::alloc::{AllocError, Allocator};
use std::collections::BTreeMap;

/// A place on the wire from one process to another.
#[derive(Clone, Copy, PartialEq, Eq, PartialOrd, Ord)]
pub(crate) struct WirePlace {
    pub(crate) from: u8,
    pub(crate) to: u8,
    pub(crate) place: usize,
}

/// The number of the first event that put each frame.
pub(crate) type Putters<A> = BTreeMap<WirePlace, usize, A>;

/// Notes that an event put its frames, whatever put them was noted before.
fn note_puts<A: Allocator + Copy>(
    putters: &mut Putters<A>,
    moment: &Moment<A>,
    puts: usize,
) -> Result<(), AllocError>
    ensures { OnOk result
        ((q : AnyPlace)
        → get wire_place_cmp putters.new q
        ≡ cond (puts_at q moment.now) (Some puts) (get wire_place_cmp putters.old q)) }
{
    for sent in &moment.sent {
        let at = WirePlace {
            from: moment.process,
            to: sent.to,
            place: sent.place,
        };
        putters.insert(at, puts)?;
    }
    Ok(())
}

/// The first event that put each frame of these moments.
pub(crate) fn putters_of<A: Allocator + Copy>(
    alloc: A,
    moments: &[Moment<A>],
) -> Result<Putters<A>, AllocError>
    ensures { IfOk result (ArePutters moments.now) }
{
    let mut putters = BTreeMap::new(alloc);
    // From the last event to the first: the one that is noted last stays.
    for puts in (0..moments.len()).rev() {
        note_puts(&mut putters, &moments[puts], puts)?;
    }
    Ok(putters)
}
