//! The operations that were placed, each with the one placed before it. Stages name their last one, so that no stage
//! holds an order of its own.
use reg_base::OpId;
use std::alloc::{AllocError, Allocator, Global};

/// An operation that was placed, and the place in the trail of the one before it.
#[derive(Clone, Copy)]
struct Placed {
    id: OpId,
    before: Option<usize>,
}

/// The operations that were placed, in the order in which the search came to them.
#[derive(Drop)]
pub struct Trail<A: Allocator + Copy = Global> {
    placed: Vec<Placed, A>,
}

impl<A: Allocator + Copy> Trail<A> {
    /// A trail on which nothing is placed.
    pub fn new(alloc: A) -> Trail<A> {
        Trail {
            placed: Vec::new(alloc),
        }
    }

    /// Places an operation after another, and gives its place in the trail.
    pub fn place(&mut self, id: OpId, before: Option<usize>) -> Result<Option<usize>, AllocError> {
        let here = self.placed.len();
        self.placed.push(Placed { id, before })?;
        Ok(Some(here))
    }

    /// The operations up to this one, in the order in which they take effect.
    pub fn ids_to(&self, alloc: A, last: Option<usize>) -> Result<Vec<OpId, A>, AllocError> {
        let mut ids = Vec::new(alloc);
        let mut at = last;
        for _step in 0..self.placed.len() {
            let Some(place) = at else {
                break;
            };
            let Some(placed) = self.placed.get(place) else {
                break;
            };
            ids.push(placed.id)?;
            at = placed.before;
        }
        ids.reverse();
        Ok(ids)
    }
}
