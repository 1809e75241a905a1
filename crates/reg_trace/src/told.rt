//! All that is told of a run.
use crate::moments::Moment;
use reg_base::Names;
use reg_checkers::{History, Point};
use reg_front::Front;
use std::alloc::Allocator;

/// What is told of a schedule's run: its front end and names, what each event did, the history, and the points where
/// there are any.
#[derive(Drop)]
pub struct TracedRun<A: Allocator + Copy> {
    pub front: Front,
    pub names: Names<A>,
    pub moments: Vec<Moment<A>, A>,
    pub history: History<A>,
    pub points: Option<Vec<Point, A>>,
}
