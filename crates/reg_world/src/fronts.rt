//! The front ends that texts can name, and the points of their runs.
ghost use Rattle.std.specs.Prelude.{◌≡◌, Option, IfOk, option_map};
ghost use Rattle.reg_front.specs.declared.named.Front.{Front as AnyFront};
ghost use Rattle.reg_front.specs.Table.{start_of};
ghost use Rattle.reg_world.specs.Fronts.{HasPoints};

use crate::running::World;
use crate::stores::WireStore;
use reg_checkers::Point;
use reg_front::{FrontEnd, Linear, LocalRead, LocalWrite};
use std::alloc::{AllocError, Allocator};

/// A front end that texts can name.
pub trait NamedFront: FrontEnd {
    /// Its name.
    ghost front: { AnyFront };

    /// The points of a world's run, None where the front end keeps no real time.
    ///
    /// # Errors
    ///
    /// Memory was refused.
    fn points_of<A: Allocator + Copy, W: WireStore<A>>(
        world: &World<Self, A, W>,
    ) -> Result<Option<Vec<Point, A>>, AllocError>
        ensures { IfOk result (λ points. HasPoints front world.now (option_map (λ v. v.items) points)) };

    /// It starts operations as the front end of this name.
    ghost named: { Self.start ≡ start_of front };
}

impl NamedFront for Linear {
    ghost use Rattle.std.proofs.Common.{refl};
    ghost use Rattle.reg_front.specs.declared.named.Front.TheVariants.{Linear as LinearName};

    ghost front = { LinearName };

    fn points_of<A: Allocator + Copy, W: WireStore<A>>(
        world: &World<Linear, A, W>,
    ) -> Result<Option<Vec<Point, A>>, AllocError> {
        let points = world.points()?;
        Ok(Some(points))
    }

    ghost named = { refl };
}

impl NamedFront for LocalRead {
    ghost use Rattle.std.proofs.Common.{refl};
    ghost use Rattle.reg_front.specs.declared.named.Front.TheVariants.{LocalRead as LocalReadName};

    ghost front = { LocalReadName };

    fn points_of<A: Allocator + Copy, W: WireStore<A>>(
        _world: &World<LocalRead, A, W>,
    ) -> Result<Option<Vec<Point, A>>, AllocError> {
        Ok(None)
    }

    ghost named = { refl };
}

impl NamedFront for LocalWrite {
    ghost use Rattle.std.proofs.Common.{refl};
    ghost use Rattle.reg_front.specs.declared.named.Front.TheVariants.{LocalWrite as LocalWriteName};

    ghost front = { LocalWriteName };

    fn points_of<A: Allocator + Copy, W: WireStore<A>>(
        _world: &World<LocalWrite, A, W>,
    ) -> Result<Option<Vec<Point, A>>, AllocError> {
        Ok(None)
    }

    ghost named = { refl };
}
