//! Whether a cause is a body's own.
ghost use Rattle.std.specs.Prelude.{IsTrue};
ghost use Rattle.stm_model.specs.Refusing.{IsOfBody};

use stm_model::Cause;

/// Whether a body rolls back with the cause of its own.
pub fn is_of_body(cause: Cause) -> bool
    ensures may { IsTrue result → IsOfBody cause }
    ensures told { IsOfBody cause → IsTrue result }
{
    match cause {
        Cause::Retry | Cause::User { .. } | Cause::Memory => true,
        Cause::Full { used, blocks } => used == blocks,
        _ => false,
    }
}
