//! Attempts that run a closure.
ghost use Rattle.std.specs.Prelude.{◌≡◌, ◌⊎◌, ℕ, [], IfErr, IfOk, None, Ok, Err, Some, Result, MatchOption};
ghost use Rattle.std.specs.Fn.{CalledAtMut};
ghost use Rattle.ref_table.specs.Seats.{StmState};
ghost use Rattle.stm_model.specs.Owes.{IsPossible};
ghost use Rattle.stm_model.specs.Ran.{Running};
ghost use Rattle.stm_model.specs.Refusing.{IsOfBody};
ghost use Rattle.stm_model.specs.Telling.{Owing};
ghost use Rattle.stm_model.specs.declared.cause.Cause.{Cause};
ghost use Rattle.txn_run.specs.Callers.{CallerState};
ghost use Rattle.txn_run.specs.Flights.{cells_in_stm};
ghost use Rattle.txn_run.specs.Outcomes.{Concludes, ConcludesAs, IsSpent, Made};
ghost use Rattle.txn_run.specs.Runners.{HasRun, JustBegun, StandsOn, WasCalled, fresh_cells};

use crate::callers::Outcome;
use stm_model::{Cause, Cells, Law};

/// Cells that begin and end attempts of a caller by themselves.
pub trait Runs<L: Law>: Cells<L> {
    /// The table of the attempts.
    ghost stm: { Self → StmState L };

    ghost caller: { Self → CallerState };

    /// No attempt is under way, and the next may begin.
    ghost rests: { Self → Type 0 };

    /// The attempt that is under way began from there.
    ghost begun: { Self → Self → Type 0 };

    /// The caller is the same, at the same table.
    ghost same: { Self → Self → Type 0 };

    /// Begins an attempt, or answers how all end when as many were made as there may be.
    fn begin<T: Drop>(&mut self) -> Option<Outcome<T>>
        requires rests { rests self.old }
        ensures begins { MatchOption result (begun self.old self.new × (Self.state self.new ≡ fresh_cells (cells_in_stm (stm self.old))))
            (λ outcome. rests self.new × same self.old self.new × IsSpent (stm self.old).settings.attempts (Unit {0}) (caller self.old) (caller self.new) outcome) };

    /// Ends the attempt: commits it, or rolls it back.
    fn finish<T: Drop>(&mut self, answer: Result<T, Cause>) -> Outcome<T>
        requires begun { (first : Self) × begun first self.old }
        requires owes { IfOk answer (λ _. Owing (L.lawful (Self.law self.old)) (L.may (Self.law self.old)) (Self.state self.old)) }
        requires answers { IfErr answer (λ cause. IsOfBody cause ⊎ ((Self.state self.old).cause ≡ Some cause)) }
        ensures rests { rests self.new }
        ensures same { (first : Self) → begun first self.old → same first self.new }
        ensures made { (first : Self) → begun first self.old → Made (stm first).settings.attempts (caller first) (caller self.new) }
        ensures concludes { (first : Self) → begun first self.old → ConcludesAs (λ out heap book. (answer ≡ Ok out) × StandsOn (L.lawful (Self.law self.old)) (Self.state self.old) heap book)
            (λ cause heap book. (answer ≡ Err cause) × StandsOn (L.lawful (Self.law self.old)) (Self.state self.old) heap book)
            (λ heap. IsPossible (L.lawful (Self.law self.old)) (Self.state self.old).size (Self.state self.old).reads heap) (stm first).opening (caller first) (caller self.new) result };

    /// The attempt goes on, whatever is called.
    ghost begun_on: { (first second third : Self) → begun first second → Self.follows second third → begun first third };

    /// It is on the table of that caller.
    ghost same_table: { (first second : Self) → begun first second → Self.law second ≡ (stm first).law };
}

/// Makes one attempt to run the closure as one step, as `attempt` does with a body. The closure is called once on
/// the cells of that attempt, unless as many attempts were made as there may be. Handlers and before-commit bodies
/// that it registers do nothing.
pub fn attempt_with<L: Law, D: Runs<L>, T: Drop, F: FnMut(&mut D) -> Result<T, Cause>>(
    runner: &mut D,
    f: &mut F,
) -> Outcome<T>
    requires rests { D.rests runner.old }
    requires callable { (start : _) → JustBegun (D.begun runner.old) D.law D.state (D.stm runner.old).law (cells_in_stm (D.stm runner.old)) start.now → F.pre f.old start }
    requires runs { (start end : D) (answer : Result T Cause) (left : F) → JustBegun (D.begun runner.old) D.law D.state (D.stm runner.old).law (cells_in_stm (D.stm runner.old)) start
        → CalledAtMut F.FnMut f.old start answer left end
        → Running L.lawful L.may D.law D.follows D.state start end (λ heap before answer after. Unit {0}) (λ heap before. Unit {0}) answer }
    ensures rests { D.rests runner.new }
    ensures same { D.same runner.old runner.new }
    ensures concludes { Concludes
        (λ out heap book. HasRun (JustBegun (D.begun runner.old) D.law D.state (D.stm runner.old).law (cells_in_stm (D.stm runner.old))) (λ start answer end. CalledAtMut F.FnMut f.old start answer f.new end)
        D.state (L.lawful (D.stm runner.old).law) (Ok out) heap book)
        (λ cause heap book. HasRun {T = T} (JustBegun (D.begun runner.old) D.law D.state (D.stm runner.old).law (cells_in_stm (D.stm runner.old))) (λ start answer end. CalledAtMut F.FnMut f.old start answer f.new end)
        D.state (L.lawful (D.stm runner.old).law) (Err cause) heap book)
        (λ heap. WasCalled (JustBegun (D.begun runner.old) D.law D.state (D.stm runner.old).law (cells_in_stm (D.stm runner.old))) (λ start answer end. CalledAtMut F.FnMut f.old start answer f.new end)
        D.state (L.lawful (D.stm runner.old).law) heap)
        (f.new ≡ f.old) (D.stm runner.old) (D.caller runner.old) (D.caller runner.new) result }
{
    if let Some(outcome) = runner.begin() {
        return outcome;
    }
    let answer = call(runner, f);
    runner.finish(answer)
}

// The closure is called on the cells.
fn call<D, T: Drop, F: FnMut(&mut D) -> Result<T, Cause>>(
    cells: &mut D,
    f: &mut F,
) -> Result<T, Cause>
    requires { (start : _) → start.now ≡ cells.old → F.pre f.old start }
    ensures { CalledAtMut F.FnMut f.old cells.old result f.new cells.new }
{
    f(cells)
}
