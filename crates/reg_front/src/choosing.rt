//! The choice of a front end by its name.

/// Calls a function that is generic in its front end, its first type, with the front end of this name:
/// `by_front!(front, run::<_, A>(alloc, events))`.
#[macro_export]
macro_rules! by_front {
    ($front:expr, $call:ident::<_ $(, $type:ty)*>($($value:expr),* $(,)?)) => {
        match $front {
            $crate::Front::Linear => $call::<$crate::Linear $(, $type)*>($($value),*),
            $crate::Front::LocalRead => $call::<$crate::LocalRead $(, $type)*>($($value),*),
            $crate::Front::LocalWrite => $call::<$crate::LocalWrite $(, $type)*>($($value),*),
        }
    };
    ($front:expr, $it:ident.$call:ident::<_ $(, $type:ty)*>($($value:expr),* $(,)?)) => {
        match $front {
            $crate::Front::Linear => $it.$call::<$crate::Linear $(, $type)*>($($value),*),
            $crate::Front::LocalRead => $it.$call::<$crate::LocalRead $(, $type)*>($($value),*),
            $crate::Front::LocalWrite => $it.$call::<$crate::LocalWrite $(, $type)*>($($value),*),
        }
    };
}
