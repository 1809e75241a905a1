//! Points of the operations that a search placed.
use crate::search::Search;
use crate::stages::Stage;
use reg_base::OpId;
use reg_checkers::{Fact, Point, fact_of};
use std::alloc::{AllocError, Allocator};

/// Adds the points of operations of one register, in their order: each at the latest of the calls so far.
fn add_points<A: Allocator + Copy>(
    points: &mut Vec<Point, A>,
    rows: &[Vec<Fact, A>],
    ids: &[OpId],
) -> Result<(), AllocError> {
    let mut at: u32 = 0;
    for id in ids {
        if let Some(fact) = fact_of(rows, *id) {
            at = at.max(fact.called);
        }
        points.push(Point { id: *id, at })?;
    }
    Ok(())
}

/// The last operation of the first stage.
fn last_of(layer: &[Stage]) -> Option<usize> {
    let stage = layer.first()?;
    stage.last
}

/// The points of all that a search placed, of all registers.
pub fn points_of<A: Allocator + Copy>(
    alloc: A,
    rows: &[Vec<Fact, A>],
    search: &Search<A>,
) -> Result<Vec<Point, A>, AllocError> {
    let mut points = Vec::new(alloc);
    for layer in &search.layers {
        let ids = search.trail.ids_to(alloc, last_of(layer))?;
        add_points(&mut points, rows, &ids)?;
    }
    points.sort_by_key(|point| point.at)?;
    Ok(points)
}
