//! A workload with another seed.
ghost use Rattle.std.specs.Prelude.{◌≡◌};
ghost use Rattle.reg_show.specs.Seeds.{IsSeed, reseeded};

use reg_workload::Workload;
use std::alloc::Allocator;

/// The workload with this seed in place of its own, where there is one.
pub(crate) fn reseed<A: Allocator + Copy>(mut work: Workload<A>, seed: Option<u64>) -> Workload<A>
    requires { IsSeed seed }
    ensures { result ≡ reseeded seed work }
{
    if let Some(seed) = seed {
        work.seed = seed;
    }
    work
}
