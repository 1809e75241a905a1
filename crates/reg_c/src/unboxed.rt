//! What a caller will hold: a value out of its box.
ghost use Rattle.std.specs.Prelude.{◌≡◌};
ghost use Rattle.std.specs.Borrow.{full_share};
ghost use Rattle.std.specs.Ptr.{lies_at};

use std::alloc::Allocator;
use std::marker::Model;

/// The pointer to a value that lies there: whoever takes this apart holds it.
pub struct Unboxed<T> {
    pub at: *mut T,
    pub ghost value: { T },
}

impl<T> Model for Unboxed<T> {
    ghost also_owns = { λ u. lies_at T.row full_share u.at u.value };
}

impl<T> Unboxed<T> {
    /// What lies in the box, whose block nothing frees from here on.
    pub fn of<A: Allocator>(boxed: Box<T, A>) -> Unboxed<T>
    where
        T: Drop,
        ensures { result.value ≡ boxed.value }
    {
        Unboxed {
            at: Box::into_raw(boxed),
        }
    }
}
