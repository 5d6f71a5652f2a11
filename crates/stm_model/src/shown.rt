//! Values that tell which attempt a caller has in flight.
ghost use Rattle.std.specs.Prelude.{None, Option};
ghost use Rattle.stm_model.specs.Attempt.{Attempt};
ghost use Rattle.stm_model.specs.Shown.{shown_by};

/// A value that tells the attempt in flight as it is now, or that there is none.
pub trait Shown {
    ghost shows: { Self → Option Attempt };
}

/// Tells that no attempt is in flight.
#[derive(Clone, Copy, Debug, PartialEq, Eq)]
pub struct Rest;

impl Shown for Rest {
    ghost shows = { λ _. None };
}

/// Tells what its value tells, and that there is no attempt where it has none.
impl<V: Shown> Shown for Option<V> {
    ghost shows = { λ shown. shown_by V.shows shown };
}
