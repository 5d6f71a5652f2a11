//! Nested levels: one is entered, kept or undone. A level that is undone takes no memory: its handlers run off
//! the list in which they stand, and are forgotten afterwards.
ghost use Rattle.std.specs.Prelude.{◌≡◌, ◌<◌, ◌≤◌, ◌++◌, [], List, None, length, take, drop};
ghost use Rattle.std.specs.List.{All};
ghost use Rattle.stm_core.specs.Machine.{HasSpare};
ghost use Rattle.stm_core.specs.Running.{Answers, Becomes, Fits, IsFree, IsIn, TakesAnswer, base, machine_of, with_hooks};
ghost use Rattle.stm_core.specs.declared.running.State.TheVariants as in_state;
ghost use Rattle.stm_model.specs.After.{at, release_level_on, run_all};
ghost use Rattle.stm_model.specs.Attempt.{Ready, Write};
ghost use Rattle.stm_model.specs.CellsState.{outer};
ghost use Rattle.stm_model.specs.Handlers.{undoing};
ghost use Rattle.stm_model.specs.declared.access.Ask.TheVariants.{Enter, Keep, Undo};

use crate::running::{Dues, Running, State};
use lifecycle::{Stage, Walk};
use op_commit::{BackEnd, BackOp};
use stm_model::{Cause, Level};
use txn_level::LevelFault;

#[tactic(auto, unfolding(crate::specs::Running::attempt_at, crate::specs::Running::left_at, crate::specs::Running::InvariantAt, crate::specs::Running::reads_under_way, crate::specs::Running::writes_under_way, stm_model::specs::Moves::asked_going, stm_model::specs::Moves::MayRunOut, crate::specs::Machine::accesses_asked, crate::specs::Machine::reads_asked, crate::specs::Machine::writes_asked))]
impl Running {
    /// Enters a level, unless as many as may be are open. Only one inside no other takes memory.
    pub fn enter(&mut self)
        requires { IsFree self.old }
        ensures { Answers Enter self.old self.new }
    {
        let depth = self.levels.depth();
        let level = Level {
            writes: self.footprint.writes.mark(),
            hooks: self.handlers.mark(),
            laters: self.handlers.later_mark(),
        };
        match self.levels.enter(level) {
            Ok(()) => {
                self.past.enter(&self.footprint.writes, &self.handlers);
                self.state = State::Ready(None);
            }
            Err(LevelFault::TooDeep) => self.state = State::Stopped(Cause::TooDeep { depth }),
            Err(LevelFault::Memory) => self.state = State::Stopped(Cause::Memory),
        }
    }

    /// Closes the innermost level and joins it to the one around it.
    pub fn keep(&mut self)
        requires free { IsFree self.old }
        requires open { 0 < length self.old.levels }
        ensures { Answers Keep self.old self.new }
    {
        self.close_level();
        self.state = State::Ready(None);
    }

    /// Closes the innermost level. Nothing else changes, whatever it is in the middle of.
    pub fn close_level(&mut self)
        requires fits { Fits self.old }
        requires open { 0 < length self.old.levels }
        ensures fits { Fits self.new }
        ensures same { self.new ≡ record self.old { levels = self.new.levels; past = self.new.past } }
        ensures closed { base self.new ≡ record (base self.old) { saved = outer (base self.old).saved } }
    {
        self.levels.keep();
        self.past.leave();
    }

    /// Undoes the innermost level, once the cells that were first written in it are released.
    pub fn undo(&mut self)
        requires free { IsFree self.old }
        requires open { 0 < length self.old.levels }
        ensures { Answers Undo self.old self.new }
    {
        let first = self.levels.innermost().writes.entries;
        if first < self.footprint.writes.len() {
            self.state = State::Undo(BackOp::new(self.own, self.serial, first, false));
        } else {
            self.undo_level();
        }
    }

    /// The release of a level's cells takes its answer.
    pub fn take_undo(&mut self, op: BackOp, answer: u64)
        requires { IsIn (in_state.Undo op) self.old }
        ensures { TakesAnswer (in_state.Undo op) answer self.old self.new }
    {
        let mut op = op;
        op.take(&self.written(), answer);
        self.due = Dues {
            ring: op.rings(),
            runs: None,
        };
        match op.end() {
            None => self.state = State::Undo(op),
            Some(BackEnd::Back) => self.undo_level(),
        }
    }

    // The innermost level is undone, and its handlers come due.
    fn undo_level(&mut self)
        requires fits { Fits self.old }
        requires open { 0 < length self.old.levels }
        requires runs { self.old.due.runs ≡ None }
        ensures becomes { (kept : List Write) → Becomes (release_level_on (base self.old) kept []) 0 self.old self.new }
        ensures room { HasSpare self.old.footprint.reads.spare self.old.footprint.writes.spare (machine_of self.new) }
    {
        let level = self.levels.undo();
        self.past.leave();
        self.footprint.writes.undo(level.writes);
        self.handlers.undo_laters_to(level.laters);
        self.undo_hooks(level.hooks);
    }

    // Of the handlers these stay, and those behind them come due where they run for an undo.
    fn undo_hooks(&mut self, hooks: usize)
        requires fits { Fits self.old }
        requires within { hooks ≤ length self.old.handlers.hooks }
        requires outer { All (λ level. level.hooks ≤ hooks) self.old.levels }
        requires runs { self.old.due.runs ≡ None }
        ensures becomes { Becomes
            (at (record (with_hooks (base self.old) (take hooks self.old.handlers.hooks)) { due = (base self.old).due ++ run_all (undoing (drop hooks self.old.handlers.hooks)) }) (Ready None))
            0 self.old self.new }
        ensures room { HasSpare self.old.footprint.reads.spare self.old.footprint.writes.spare (machine_of self.new) }
    {
        self.due.runs = self.runs_of(Walk::new(Stage::AfterRollback, hooks));
        if self.due.runs.is_some() {
            self.state = State::Undone { hooks };
        } else {
            self.handlers.undo_to(hooks);
            self.state = State::Ready(None);
        }
    }
}
