//! A block that may fail alone.
ghost use Rattle.std.specs.Prelude.{◌≡◌, ◌≢◌, ◌↔◌, ℕ, None, IfErr};
ghost use Rattle.or_atomic.specs.Blocks.{IsUndone, LevelRefused, NestedLeaves, NestedMeans, OnlyRuns};
ghost use Rattle.stm_model.specs.Ran.{Running};
ghost use Rattle.stm_model.specs.Telling.{Owing};
ghost use Rattle.stm_model.specs.declared.cause.Cause.TheVariants.{User};

use crate::kept_or_failed::Nested;
use stm_model::{Body, Cause, Cells, Law};

/// Runs a body in a level of its own. A code with which it fails is the block's answer, and no cause
/// that ends the transaction. Hands on every other cause. `Memory` may come instead: from the body, or
/// where the cells have none for the level, and then the body isn't run.
///
/// Before the call the caller has to meet what is owed (`Owing`): as long as the cells have answered no
/// cause, the writes so far, put into any heap that is possible by the notes, make a lawful heap, and one
/// that it may become.
pub fn nested<L: Law, C: Cells<L>, B: Body<L>>(
    cells: &mut C,
    body: &mut B,
) -> Result<Nested<B::Out>, Cause>
    requires fits { B.fits body.old (C.law cells.old) (C.state cells.old).size }
    requires owes { Owing (L.lawful (C.law cells.old)) (L.may (C.law cells.old)) (C.state cells.old) }
    ensures fits { (law : L) (size : ℕ) → B.fits body.old law size ↔ B.fits body.new law size }
    ensures ran { Running L.lawful L.may C.law C.follows C.state cells.old cells.new
        (λ heap before answer after. NestedMeans B.means body.old heap before answer after body.new)
        (λ heap before. NestedLeaves B.leaves body.old heap before body.new)
        result }
    ensures undone { (C.state cells.new).cause ≡ None → IsUndone result → OnlyRuns (C.state cells.old).now (C.state cells.new).now }
    ensures refused { LevelRefused result (C.state cells.old) (C.state cells.new) }
    ensures codes { IfErr result (λ cause. (code : ℕ) → cause ≢ User code) }
{
    cells.enter()?;
    match body.run(cells) {
        Ok(out) => {
            cells.keep();
            Ok(Nested::Kept(out))
        }
        Err(Cause::User { code }) => {
            cells.undo();
            Ok(Nested::Failed { code })
        }
        Err(cause) => {
            cells.undo();
            Err(cause)
        }
    }
}
