//! All that is told of a run.
use crate::data::looks::Look;
use crate::data::notes::Notes;
use crate::figures::{Arrow, Bar};
use crate::moments::Moment;
use reg_base::{Names, OpId};
use reg_checkers::Point;
use reg_front::Front;
use reg_world::{CopyRead, First};
use std::alloc::{Allocator, Global};
use std::marker::Model;

/// What is told of a run: of each event, of the frames taken, of the operations, and of the orders of the whole run;
/// and what the comments of its schedule say.
#[derive(Drop)]
pub struct Data<A: Allocator + Copy = Global> {
    /// The title, and the note of each event.
    pub notes: Notes<A>,
    /// How many processes there are.
    pub processes: u32,
    /// The names of the registers.
    pub names: Names<A>,
    /// The front end that all processes run.
    pub front: Front,
    /// What each event did.
    pub moments: Vec<Moment<A>, A>,
    /// The state of each event's process after it.
    pub looks: Vec<Look<A>, A>,
    /// Each take, with the event that put its frame.
    pub arrows: Vec<Arrow, A>,
    /// The operations, in order of the calls.
    pub bars: Vec<Bar, A>,
    /// The first delivery of each cast, in the one order.
    pub order: Vec<First, A>,
    /// The finished reads that were answered from a copy, in order of their answers.
    pub reads: Vec<CopyRead, A>,
    /// The operations that have a place in the order of the run.
    pub witness: Vec<OpId, A>,
    /// The linearization points, with a real-time front end.
    pub points: Option<Vec<Point, A>>,
}

impl<A: Allocator + Copy> Model for Data<A> {
    ghost use Rattle.std.specs.Prelude.{option_map};
    ghost use Rattle.reg_trace.specs.Data.{Data as AnyData};

    ghost Value = { AnyData };

    ghost view = { λ d.
        record {
          notes = d.notes;
          processes = d.processes;
          names = d.names;
          front = d.front;
          facts = d.moments.items;
          looks = d.looks.items;
          arrows = d.arrows.items;
          bars = d.bars.items;
          order = d.order.items;
          reads = d.reads.items;
          witness = d.witness.items;
          points = option_map (λ v. v.items) d.points;
        } };
}
