//! What an attempt has said to its worker.
ghost use Rattle.std.specs.Prelude.{◌≡◌, ◌++◌, ◌∷◌, [], ℕ, IfOk, OnOk, drop, length, reverse, slice_index};
ghost use Rattle.ledger_model.specs.Talk.{Talk};
ghost use Rattle.ledger_model.specs.Traced.{Progress, asked, fresh, said};
ghost use Rattle.host_trace.specs.Tellings.{IsTold, tells_due, told_run};

use std::alloc::Global;
use stm_model::{Ask, HookPhase, Memory};
use world_run::Next;

/// What an attempt has printed, and the handlers that have run in it.
#[derive(Drop)]
pub(crate) struct Said {
    /// What it has printed, but for what was undone.
    pub prints: Vec<u64>,
    /// How many of them there were where each open level began, the innermost last.
    pub saved: Vec<usize>,
    /// All that it ever printed.
    pub trail: Vec<u64>,
    pub runs: Vec<(HookPhase, u64)>,
}

impl Said {
    pub(crate) fn new(alloc: Global) -> Said
        ensures told { (talk : Talk) → IsTold result (fresh talk) }
        ensures runs { result.runs.items ≡ [] }
    {
        Said {
            prints: Vec::new(alloc),
            saved: Vec::new(alloc),
            trail: Vec::new(alloc),
            runs: Vec::new(alloc),
        }
    }

    /// A number was printed.
    pub(crate) fn say(&mut self, number: u64) -> Result<(), Memory>
        ensures told { OnOk result ((now : Progress) → IsTold self.old now → IsTold self.new (said number now)) }
        ensures runs { self.new.runs ≡ self.old.runs }
    {
        self.prints.push(number)?;
        self.trail.push(number)?;
        Ok(())
    }

    /// A request was made: where it opens or closes a level, so is one of the prints.
    pub(crate) fn ask(&mut self, ask: Ask) -> Result<(), Memory>
        ensures told { OnOk result ((rest : ℕ → Talk) (now : Progress) → IsTold self.old now → IsTold self.new (asked ask rest now)) }
        ensures runs { self.new.runs ≡ self.old.runs }
    {
        match ask {
            Ask::Enter => self.open(),
            Ask::Keep => {
                self.close();
                Ok(())
            }
            Ask::Undo => {
                let count = self.close();
                self.prints.truncate(count);
                Ok(())
            }
            _ => Ok(()),
        }
    }

    // A level opens.
    fn open(&mut self) -> Result<(), Memory>
        ensures same { self.new ≡ record self.old { saved = self.new.saved } }
        ensures saved { OnOk result (reverse self.new.saved.items ≡ length self.old.prints.items ∷ reverse self.old.saved.items) }
    {
        self.saved.push(self.prints.len())?;
        Ok(())
    }

    // The innermost level closes. How many prints there were where it began.
    fn close(&mut self) -> usize
        ensures count { result ≡ slice_index (reverse self.old.saved.items) 0 }
        ensures saved { reverse self.new.saved.items ≡ drop 1 (reverse self.old.saved.items) }
        ensures same { self.new ≡ record self.old { saved = self.new.saved } }
    {
        self.saved.pop().unwrap_or(0)
    }

    /// Whether something is due, which is kept where it is a handler.
    pub(crate) fn note(&mut self, next: Option<Next>) -> Result<bool, Memory>
        ensures due { IfOk result (λ due. due ≡ tells_due next) }
        ensures runs { OnOk result (self.new.runs.items ≡ self.old.runs.items ++ told_run next) }
        ensures told { (now : Progress) → IsTold self.old now → IsTold self.new now }
    {
        match next {
            Some(Next::Run { phase, token }) => {
                self.runs.push((phase, token))?;
                Ok(true)
            }
            Some(Next::Ring(_)) => Ok(true),
            _ => Ok(false),
        }
    }
}
