//! The first of several alternatives that doesn't ask for a retry.
ghost use Rattle.std.specs.Prelude.{◌≡◌, ◌↔◌, ◌<◌, ℕ, None, IfErr};
ghost use Rattle.or_atomic.specs.Blocks.{EitherLeaves, EitherMeans, LevelRefused, OnlyRuns};
ghost use Rattle.stm_model.specs.Ran.{Running};
ghost use Rattle.stm_model.specs.Telling.{Owing};

use stm_model::{Cause, Cells, Choices, Law};

/// Runs one alternative after another, from index 0 on, each in a level of its own, until one doesn't
/// ask for a retry. Asks for a retry where all do. Hands on every other cause. `Memory` may come instead:
/// from an alternative, or where the cells have none for its level, and then it isn't run.
///
/// Before the call the caller has to meet what is owed (`Owing`): as long as the cells have answered no
/// cause, the writes so far, put into any heap that is possible by the notes, make a lawful heap, and one
/// that it may become.
pub fn either<L: Law, C: Cells<L>, E: Choices<L>>(
    cells: &mut C,
    choices: &mut E,
) -> Result<E::Out, Cause>
    requires some { 0 < E.number choices.old }
    requires fits { E.fits choices.old (C.law cells.old) (C.state cells.old).size }
    requires owes { Owing (L.lawful (C.law cells.old)) (L.may (C.law cells.old)) (C.state cells.old) }
    ensures number { E.number choices.new ≡ E.number choices.old }
    ensures fits { (law : L) (size : ℕ) → E.fits choices.old law size ↔ E.fits choices.new law size }
    ensures ran { Running L.lawful L.may C.law C.follows C.state cells.old cells.new
        (λ heap before answer after. EitherMeans E.means (E.number choices.old) choices.old heap before answer after choices.new)
        (λ heap before. EitherLeaves E.means E.leaves (E.number choices.old) choices.old heap before choices.new)
        result }
    ensures undone { (C.state cells.new).cause ≡ None → IfErr result (λ cause. OnlyRuns (C.state cells.old).now (C.state cells.new).now) }
    ensures refused { LevelRefused result (C.state cells.old) (C.state cells.new) }
{
    for index in 0..choices.count() {
        cells.enter()?;
        match choices.run(index, cells) {
            Ok(out) => {
                cells.keep();
                return Ok(out);
            }
            Err(Cause::Retry) => cells.undo(),
            Err(cause) => {
                cells.undo();
                return Err(cause);
            }
        }
    }
    Err(Cause::Retry)
}
