//! What tests demand. Each demand that isn't met tells its row, and what came of it.
ghost use Rattle.std.specs.Prelude.{◌≡◌};

use reg_base::Shape;
use reg_heap::{Trial, refusals};
use std::fmt::Debug;
use std::process::Abort;
use std::test::Fail;

/// Demands what is to hold of a row.
pub(crate) fn demand<R: Debug>(rt: &impl Abort, row: &R, holds: bool) {
    assert!(rt; holds, "{row:?}");
}

/// Demands that what came of a row is what is wanted.
pub(crate) fn demand_same<R: Debug, T: Debug + PartialEq>(
    rt: &impl Abort,
    row: &R,
    came: &T,
    wanted: &T,
) {
    assert!(rt; came == wanted, "{row:?}: {came:?} in place of {wanted:?}");
}

/// Demands that nothing is wrong with a row.
pub(crate) fn demand_none<R: Debug, T: Debug>(rt: &impl Abort, row: &R, wrong: &Option<T>) {
    assert!(rt; wrong.is_none(), "{row:?}: {wrong:?}");
}

/// Demands that the calls of a trial are right with each allocation refused in turn, of which there are more than this
/// number.
pub(crate) fn demand_refusals<T: Trial>(
    rt: &(impl Abort + AllocGlobal),
    trial: &T,
    least: u64,
) -> Result<(), Fail> {
    let count = refusals(trial, rt.alloc())?;
    assert!(rt; count > least, "{count} refusals");
    Ok(())
}

/// The shape of this number of processes with one register.
pub(crate) fn shape_of(rt: &impl Abort, processes: u32) -> Shape
    ensures { result.processes ≡ processes }
{
    Shape::new(processes, 1).expect(rt, "a shape")
}
