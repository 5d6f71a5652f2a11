//! Where handlers run.
ghost use Rattle.std.specs.Prelude.{◌≡◌};

use stm_model::HookPhase;

/// Where handlers run for an attempt.
#[derive(Clone, Copy)]
pub enum Stage {
    /// Before the decision to commit.
    Preparing,
    /// After the decision, before the values are stored.
    Committing,
    /// After a commit: those of the phases Commit and Completion together.
    AfterCommit,
    /// Where something was undone: those of the phases Rollback and Completion together, the last first.
    AfterRollback,
}

impl Stage {
    ghost use Rattle.lifecycle.specs.StageRuns.{runs_at};

    /// Whether handlers of this phase run at the stage.
    pub fn runs(self, phase: HookPhase) -> bool
        ensures { result ≡ runs_at self phase }
    {
        match self {
            Stage::Preparing => matches!(phase, HookPhase::Preparing),
            Stage::Committing => matches!(phase, HookPhase::Committing),
            Stage::AfterCommit => matches!(phase, HookPhase::Commit | HookPhase::Completion),
            Stage::AfterRollback => matches!(phase, HookPhase::Rollback | HookPhase::Completion),
        }
    }
}
