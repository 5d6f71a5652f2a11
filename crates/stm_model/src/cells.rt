//! What a body sees of the cells: reads and writes in nested levels, handlers, and bodies for later.
ghost use Rattle.std.specs.Prelude.{◌≡◌, ◌<◌, ◌≤◌, ℕ, length, IfSome, MatchResult};
ghost use Rattle.std.specs.Map.{values_of};
ghost use Rattle.stm_model.specs.CellsState.{CellsState, late_registered, hooked, kept, undone, written};
ghost use Rattle.stm_model.specs.Heap.{AreWords};
ghost use Rattle.stm_model.specs.Refusing.{IsOfCells, RefusesLevel, RefusesRead, RefusesRegistration, RefusesWrite, deepest};
ghost use Rattle.stm_model.specs.Telling.{Does, Enters, Got, Leads, Refused, Witness};

use crate::{Addr, Cause, HookPhase, Law};

/// The cells of an attempt. A cause stays: whatever is called after it, each call that may be refused
/// is refused with that cause.
pub trait Cells<L: Law> {
    /// The law that all committed heaps keep.
    ghost law: { Self → L };

    ghost state: { Self → CellsState };

    /// What calls may make of these cells, beside their state.
    ghost follows: { Self → Self → Type 0 };

    /// How many cells there are.
    fn size(&self) -> u32
        ensures { result ≡ (state self.now).size };

    /// The buffered value, or the one read before, or else one that is read now.
    fn get(&mut self, addr: Addr) -> Result<u64, Cause>
        requires { addr.0 < (state self.old).size }
        ensures { MatchResult result
            (λ value. Leads law follows state self.old self.new (Got (L.lawful (law self.old)) addr.0 value))
            (λ cause. Leads law follows state self.old self.new (Refused (RefusesRead (state self.old) addr.0) cause)) };

    fn set(&mut self, addr: Addr, value: u64) -> Result<(), Cause>
        requires { addr.0 < (state self.old).size }
        ensures { MatchResult result
            (λ _. Leads law follows state self.old self.new (Does (written addr.0 value)))
            (λ cause. Leads law follows state self.old self.new (Refused (RefusesWrite (state self.old) addr.0) cause)) };

    /// Opens a level. At most `DEEPEST` are open.
    fn enter(&mut self) -> Result<(), Cause>
        ensures { MatchResult result
            (λ _. Leads law follows state self.old self.new Enters)
            (λ cause. Leads law follows state self.old self.new (Refused (RefusesLevel (length (state self.old).saved)) cause)) };

    /// Closes the innermost level. What it wrote and registered belongs to the level around it.
    fn keep(&mut self)
        requires { 0 < length (state self.old).saved }
        ensures { Leads law follows state self.old self.new (λ before after. after ≡ kept before) };

    /// Drops what the innermost level has written and registered, and runs its handlers for that.
    fn undo(&mut self)
        requires { 0 < length (state self.old).saved }
        ensures { Leads law follows state self.old self.new (λ before after. after ≡ undone before) };

    /// Registers a handler, by its token.
    fn hook(&mut self, phase: HookPhase, token: u64) -> Result<(), Cause>
        ensures { MatchResult result
            (λ _. Leads law follows state self.old self.new (Does (hooked phase token)))
            (λ cause. Leads law follows state self.old self.new (Refused RefusesRegistration cause)) };

    /// Registers a body that runs before the commit, by its token.
    fn later(&mut self, token: u64) -> Result<(), Cause>
        ensures { MatchResult result
            (λ _. Leads law follows state self.old self.new (Does (late_registered token)))
            (λ cause. Leads law follows state self.old self.new (Refused RefusesRegistration cause)) };

    ghost follows_refl: { (cells : Self) → follows cells cells };

    ghost follows_trans: { (first second third : Self) → follows first second → follows second third → follows first third };

    /// Some heap is always possible by the notes.
    ghost witness: { (cells : Self) → ∥ Witness (L.lawful (law cells)) (state cells).size (state cells).reads ∥₁ };

    /// All values written are words.
    ghost words: { (cells : Self) → AreWords (values_of (state cells).now.writes) };

    /// The cause is one that cells answer.
    ghost answered: { (cells : Self) → IfSome (state cells).cause IsOfCells };

    /// At most `DEEPEST` levels are open.
    ghost deep: { (cells : Self) → length (state cells).saved ≤ deepest };
}
