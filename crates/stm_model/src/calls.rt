//! Who is called from inside a transaction: the handlers that it runs, and the bell that it rings
//! where a cell is released for which somebody waits.
ghost use Rattle.std.specs.Prelude.{ℕ, List, None, Option};
ghost use Rattle.stm_model.specs.Calls.{TellsNext};
ghost use Rattle.stm_model.specs.declared.cause.HookPhase.{HookPhase};

use crate::{Addr, HookPhase};

/// Runs handlers.
pub trait Hooks {
    /// The runs so far, each with its phase and its token, where it tells them.
    ghost runs: { Self → Option (List (HookPhase × ℕ)) };

    fn run(&mut self, phase: HookPhase, token: u64)
        ensures { TellsNext (runs self.old) (runs self.new) (phase, token) };
}

/// Is rung for a cell that was released.
pub trait Bell {
    /// The numbers of the cells rung for so far, where it tells them.
    ghost rings: { Self → Option (List ℕ) };

    fn ring(&mut self, addr: Addr)
        ensures { TellsNext (rings self.old) (rings self.new) addr.0 };
}

/// Runs nothing, rings nothing and keeps no list.
#[derive(Clone, Copy, Debug, PartialEq, Eq)]
pub struct Quiet;

impl Hooks for Quiet {
    ghost runs = { λ _. None };

    fn run(&mut self, _phase: HookPhase, _token: u64) {}
}

impl Bell for Quiet {
    ghost rings = { λ _. None };

    fn ring(&mut self, _addr: Addr) {}
}
