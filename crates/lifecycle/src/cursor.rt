//! How far the runs of a stage have come.
ghost use Rattle.std.specs.Prelude.{◌≡◌, drop};
ghost use Rattle.stm_model.specs.Handlers.{Handlers};

use crate::stage::Stage;

/// How far the runs of a stage have come, for the registrations from one on. It holds no list: it says how many of
/// these registrations are passed, from the first on, or from the last on where something is undone.
#[derive(Clone, Copy)]
pub struct Cursor {
    pub stage: Stage,
    pub from: usize,
    pub passed: usize,
}

impl Cursor {
    ghost use Rattle.lifecycle.specs.StageRuns.{runs_left, stage_runs};

    /// Before the first run.
    pub fn new(stage: Stage, from: usize) -> Cursor
        ensures { (hooks : Handlers) → runs_left result hooks ≡ stage_runs stage (drop from hooks) }
    {
        Cursor {
            stage,
            from,
            passed: 0,
        }
    }
}
