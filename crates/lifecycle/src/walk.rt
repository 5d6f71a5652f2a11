//! The runs of one stage, or of two, one behind the other.
ghost use Rattle.std.specs.Prelude.{◌≡◌, ◌++◌, drop};
ghost use Rattle.stm_model.specs.Handlers.{Handlers};

use crate::cursor::Cursor;
use crate::stage::Stage;

/// Runs that are due: those that a cursor has still to come to, and then those that the one behind it has.
#[derive(Clone, Copy)]
pub struct Walk {
    pub cursor: Cursor,
    pub behind: Option<Cursor>,
}

impl Walk {
    ghost use Rattle.lifecycle.specs.StageRuns.{stage_runs};
    ghost use Rattle.lifecycle.specs.Walk.{walk_runs};

    /// Before the first run of a stage, for the registrations from one on.
    pub fn new(stage: Stage, from: usize) -> Walk
        ensures { (hooks : Handlers) → walk_runs result hooks ≡ stage_runs stage (drop from hooks) }
    {
        Walk {
            cursor: Cursor::new(stage, from),
            behind: None,
        }
    }

    /// Before the first run of two stages, for all registrations.
    pub fn both(first: Stage, second: Stage) -> Walk
        ensures { (hooks : Handlers) → walk_runs result hooks ≡ stage_runs first hooks ++ stage_runs second hooks }
    {
        Walk {
            cursor: Cursor::new(first, 0),
            behind: Some(Cursor::new(second, 0)),
        }
    }
}
