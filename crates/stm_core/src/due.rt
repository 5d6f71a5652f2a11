//! What is due before the next access, and what becomes of it when that is done.
ghost use Rattle.std.specs.Prelude.{◌≡◌, ◌≢◌, ◌<◌, [], Option, None, Some, IsTrue, IsFalse, MatchOption, length};
ghost use Rattle.lifecycle.specs.Walk.{walk_runs};
ghost use Rattle.lifecycle.specs.declared.walk.Walk.{Walk as WalkOf};
ghost use Rattle.stm_core.specs.Machine.{HasSpare, IsDue, Promises, after_due};
ghost use Rattle.stm_core.specs.Running.{Becomes, HasRuns, IsSound, due_in, left_in, machine_of, runs_due, shown};
ghost use Rattle.stm_core.specs.declared.next.Next.{Next as NextOf};
ghost use Rattle.stm_core.specs.declared.next.Next.TheVariants as coming;
ghost use Rattle.stm_core.specs.declared.next.Reply.{Reply};
ghost use Rattle.stm_model.specs.After.{run_all};
ghost use Rattle.stm_model.specs.Moves.{Does, moved};

use crate::next::Next;
use crate::running::{Running, State};
use lifecycle::Walk;

impl Running {
    /// Whether anything is due.
    pub fn has_due(&self) -> bool
        requires { HasRuns self.now.due.runs self.now.handlers.hooks }
        ensures some { IsTrue result → 0 < length (due_in self.now.due self.now.handlers.hooks) }
        ensures none { IsFalse result → due_in self.now.due self.now.handlers.hooks ≡ [] }
    {
        self.due.ring.is_some() || self.due.runs.is_some()
    }

    /// What is due first.
    #[tactic(auto, unfolding(crate::specs::Machine::after_due))]
    pub fn next_due(&self) -> Option<Next>
        requires { HasRuns self.now.due.runs self.now.handlers.hooks }
        ensures first { MatchOption result
            (due_in self.now.due self.now.handlers.hooks ≡ [])
            (λ next. (behind : Option NextOf) → after_due (due_in self.now.due self.now.handlers.hooks) behind ≡ Some next) }
        ensures no_reply { (told : Reply) → result ≢ Some (coming.Reply told) }
    {
        if let Some(addr) = self.due.ring {
            return Some(Next::Ring(addr));
        }
        let (phase, token, _) = self.handlers.walk_on(self.due.runs?)?;
        Some(Next::Run { phase, token })
    }

    /// The walk, if it comes to a run.
    pub fn runs_of(&self, walk: Walk) -> Option<Walk>
        ensures runs { runs_due result self.now.handlers.hooks ≡ walk_runs walk self.now.handlers.hooks }
        ensures some { HasRuns result self.now.handlers.hooks }
    {
        self.handlers.walk_on(walk)?;
        Some(walk)
    }

    /// What was due first is done.
    pub fn do_first(&mut self)
        requires sound { IsSound self.old }
        requires due { 0 < length (shown self.old).due }
        ensures becomes { Becomes (moved (shown self.old) Does) (left_in self.old) self.old self.new }
        ensures left { left_in self.new ≡ left_in self.old }
        ensures room { HasSpare (machine_of self.old).spare_reads (machine_of self.old).spare_writes (machine_of self.new) }
    {
        if let Some(addr) = self.due.ring {
            self.due.ring = None;
            self.past.ring(addr);
        } else if let Some(walk) = self.due.runs {
            self.run_first(walk);
        }
    }

    // The first handler of a walk was run.
    fn run_first(&mut self, walk: Walk)
        requires sound { IsSound self.old }
        requires due { self.old.due ≡ record { ring = None; runs = Some walk } }
        ensures becomes { Becomes (moved (shown self.old) Does) (left_in self.old) self.old self.new }
        ensures left { left_in self.new ≡ left_in self.old }
        ensures room { HasSpare (machine_of self.old).spare_reads (machine_of self.old).spare_writes (machine_of self.new) }
    {
        if let Some((phase, token, behind)) = self.handlers.walk_on(walk) {
            self.past.run(phase, token);
            self.leave_runs(behind);
        }
    }

    // So much of a walk is left. Behind the last run of a level that was undone, its handlers are forgotten.
    fn leave_runs(&mut self, walk: Walk)
        requires sound { IsSound self.old }
        requires due { (former : WalkOf) × (self.old.due ≡ record { ring = None; runs = Some former }) }
        ensures becomes { Becomes (record (shown self.old) { due = run_all (walk_runs walk self.old.handlers.hooks) }) (left_in self.old) self.old self.new }
        ensures left { left_in self.new ≡ left_in self.old }
        ensures room { HasSpare (machine_of self.old).spare_reads (machine_of self.old).spare_writes (machine_of self.new) }
    {
        self.due.runs = self.runs_of(walk);
        if self.due.runs.is_some() {
            return;
        }
        if let State::Undone { hooks } = self.state {
            self.handlers.undo_to(hooks);
            self.state = State::Ready(None);
        }
    }
}
