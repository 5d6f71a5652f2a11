//! An attempt as it is shown to the table.
use stm_core::Running;
use stm_model::Shown;

/// An attempt that stands in this state.
#[derive(Clone, Copy)]
pub struct Standing<'a> {
    pub running: &'a Running,
}

impl<'a> Shown for Standing<'a> {
    ghost use Rattle.std.specs.Prelude.{Some};
    ghost use Rattle.stm_core.specs.Running.{shown};

    ghost shows = { λ standing. Some (shown standing.running.now) };
}
