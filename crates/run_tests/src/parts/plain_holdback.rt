//! The hold-back queue beside a plain list of stamps, in which the least is searched for.
use crate::demands::shape_of;
use crate::values::WRITE_FIVE;
use reg_base::Stamp;
use reg_holdback::Holdback;
use std::alloc::Global;

/// The queue of process 1 of three as a list.
#[derive(Drop)]
struct Plain {
    seen: [u64; 3],
    held: Vec<Stamp>,
}

/// Whether one stamp is before the other: by time, and then by process.
fn is_before(one: Stamp, other: Stamp) -> bool {
    one.time < other.time || (one.time == other.time && one.process < other.process)
}

impl Plain {
    /// Whether a process was heard at this stamp or past it.
    fn is_heard(&self, process: u8, cast: Stamp) -> bool {
        let time = match self.seen.get(process as usize) {
            Some(time) => *time,
            None => return false,
        };
        !is_before(Stamp { time, process }, cast)
    }

    /// The place of the least stamp.
    fn least(&self) -> Option<usize> {
        let mut best: Option<(usize, Stamp)> = None;
        for (place, cast) in self.held.iter().enumerate() {
            best = match best {
                Some((_, other)) if is_before(other, *cast) => best,
                _ => Some((place, *cast)),
            };
        }
        match best {
            Some((place, _)) => Some(place),
            None => None,
        }
    }

    /// The least stamp, where both others were heard past it.
    fn pop(&mut self) -> Option<Stamp> {
        let place = self.least()?;
        let cast = *self.held.get(place)?;
        if place >= self.held.len() || !self.is_heard(0, cast) || !self.is_heard(2, cast) {
            return None;
        }
        Some(self.held.swap_remove(place))
    }

    /// Takes in a stamp of another process that is later than all that was heard of it. Tells whether it was, or None
    /// where memory is refused.
    fn receive(&mut self, cast: Stamp, holds: bool) -> Option<bool> {
        let process = cast.process as usize;
        if process >= 3 || process == 1 || cast.time <= self.seen[process] {
            return Some(false);
        }
        if holds && self.held.push(cast).is_err() {
            return None;
        }
        self.seen[process] = cast.time;
        Some(true)
    }
}

/// How many casts the queue pops in 600 turns. None where the list answers otherwise.
fn popped_by_both(held: &mut Holdback, plain: &mut Plain) -> Option<u32> {
    let (mut word, mut popped) = (1u64, 0u32);
    for turn in 0..600u64 {
        word = word
            .wrapping_mul(6_364_136_223_846_793_005)
            .wrapping_add(1_442_695_040_888_963_407);
        let cast = Stamp {
            time: turn.wrapping_add((word >> 40) % 7),
            process: ((word >> 60) % 4) as u8,
        };
        let holds = (word >> 35) % 3 != 0;
        let taken = held
            .receive(cast, if holds { Some(WRITE_FIVE) } else { None })
            .is_ok();
        let first = match held.pop() {
            Some((first, _)) => Some(first),
            None => None,
        };
        if plain.receive(cast, holds) != Some(taken)
            || first != plain.pop()
            || held.len() != plain.held.len()
        {
            return None;
        }
        popped = popped.wrapping_add(u32::from(first.is_some()));
    }
    Some(popped)
}

/// An own cast.
const OWN: Stamp = Stamp {
    time: 40,
    process: 1,
};

/// The same of a queue that holds the own cast, beside a list of it.
fn popped_beside_list(alloc: Global, held: &mut Holdback) -> Option<u32> {
    let mut plain = Plain {
        seen: [0; 3],
        held: Vec::new(alloc),
    };
    plain.held.push(OWN).ok()?;
    popped_by_both(held, &mut plain)
}

#[test]
fn agrees_with_a_plain_list(rt: HostRuntime) {
    let mut held = Holdback::new(rt.alloc(), 1, shape_of(&rt, 3)).expect(&rt, "memory");
    let cast = held.cast(OWN, WRITE_FIVE).is_ok();
    let popped = popped_beside_list(rt.alloc(), &mut held);
    drop(held);
    assert!(rt;
        cast && matches!(popped, Some(popped) if popped > 50),
        "{popped:?}"
    );
}
