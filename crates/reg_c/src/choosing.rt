//! The choice of a front end, in one place: by its name where something is begun, and by the variant that holds it.
ghost use Rattle.std.specs.Prelude.{◌≡◌};
ghost use Rattle.reg_c.specs.Fronts.{front_at};

use reg_front::Front;

/// What is made under the front end of this name, in its variant: `kept_under!(front, Kept, World::new(alloc, shape))`.
macro_rules! kept_under {
    ($front:expr, $kept:ident, $made:expr) => {
        match $front {
            Front::Linear => match $made {
                Ok(made) => Ok($kept::Linear(made)),
                Err(fault) => Err(fault),
            },
            Front::LocalRead => match $made {
                Ok(made) => Ok($kept::LocalRead(made)),
                Err(fault) => Err(fault),
            },
            Front::LocalWrite => match $made {
                Ok(made) => Ok($kept::LocalWrite(made)),
                Err(fault) => Err(fault),
            },
        }
    };
}

/// The same of what is kept under each front end, and another value where it was closed:
/// `of_kept!(kept, Kept, world => go(world, event), none)`.
macro_rules! of_kept {
    ($it:expr, $kept:ident, $name:ident => $told:expr, $closed:expr) => {
        match $it {
            $kept::Linear($name) => $told,
            $kept::LocalRead($name) => $told,
            $kept::LocalWrite($name) => $told,
            $kept::Closed => $closed,
        }
    };
}

pub(crate) use kept_under;
pub(crate) use of_kept;

/// The front end of this number.
pub(crate) fn front_of(number: u32) -> Option<Front>
    ensures { result ≡ front_at number }
{
    match number {
        0 => Some(Front::Linear),
        1 => Some(Front::LocalRead),
        2 => Some(Front::LocalWrite),
        _ => None,
    }
}
