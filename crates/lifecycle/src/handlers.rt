//! Lists of registrations, which can be undone to a mark.
ghost use Rattle.std.specs.Prelude.{◌≡◌, ◌≢◌, ◌+◌, ◌<◌, ◌≤◌, ◌^◌, [], ◌∷◌, ◌++◌, length, take, drop, slice_get, IsOk, IsSome, MatchOption, OnErr, OnOk};
ghost use Rattle.lifecycle.specs.Registered.{SameHooks, SameLaters};
ghost use Rattle.lifecycle.specs.StageRuns.{runs_left, stage_runs};
ghost use Rattle.lifecycle.specs.Walk.{walk_runs};
ghost use Rattle.lifecycle.specs.NextRun.{IsNextRun};
ghost use Rattle.lifecycle.specs.declared.stage.Stage.TheVariants.{AfterRollback};

use crate::cursor::Cursor;
use crate::stage::Stage;
use crate::walk::Walk;
use std::alloc::Global;
use std::marker::Model;
use stm_model::{HookPhase, Memory};

/// The handlers of an attempt with their phases, and its before-commit bodies, all by their tokens.
#[derive(Debug, Drop)]
pub struct Handlers {
    hooks: Vec<(HookPhase, u64)>,
    laters: Vec<u64>,
}

impl Model for Handlers {
    ghost use Rattle.std.specs.Prelude.{◌-◌, length, vec_capacity};
    ghost use Rattle.lifecycle.specs.Registered.{Registered};

    ghost Value = { Registered };

    ghost view = { λ h. record {
      hooks = h.hooks.items;
      laters = h.laters.items;
      spare = vec_capacity h.hooks - length h.hooks.items;
      spare_laters = vec_capacity h.laters - length h.laters.items;
    } };
}

impl Handlers {
    /// Nothing is registered, and no memory is taken yet.
    pub fn new(alloc: Global) -> Handlers
        ensures hooks { result.hooks ≡ [] }
        ensures laters { result.laters ≡ [] }
    {
        Handlers {
            hooks: Vec::new(alloc),
            laters: Vec::new(alloc),
        }
    }

    /// Registers a handler. Where any registration is spare, it takes no memory.
    pub fn register(&mut self, phase: HookPhase, token: u64) -> Result<(), Memory>
        ensures ok { OnOk result (self.new.hooks ≡ self.old.hooks ++ (phase, token) ∷ []) }
        ensures err { OnErr result (self.new.hooks ≡ self.old.hooks) }
        ensures laters { SameLaters self.old self.new }
        ensures succeeds { 0 < self.old.spare → IsOk result }
        ensures spare { self.old.spare ≤ self.new.spare + 1 }
    {
        self.hooks.push((phase, token))?;
        Ok(())
    }

    /// Registers a before-commit body. Where any of these is spare, it takes no memory.
    pub fn later(&mut self, token: u64) -> Result<(), Memory>
        ensures ok { OnOk result (self.new.laters ≡ self.old.laters ++ token ∷ []) }
        ensures err { OnErr result (self.new.laters ≡ self.old.laters) }
        ensures hooks { SameHooks self.old self.new }
        ensures succeeds { 0 < self.old.spare_laters → IsOk result }
        ensures spare { self.old.spare_laters ≤ self.new.spare_laters + 1 }
    {
        self.laters.push(token)?;
        Ok(())
    }

    /// Takes memory for so many handlers more and so many before-commit bodies more.
    pub fn reserve(&mut self, hooks: usize, laters: usize) -> Result<(), Memory>
        ensures hooks { self.new.hooks ≡ self.old.hooks }
        ensures laters { self.new.laters ≡ self.old.laters }
        ensures ok { OnOk result ((hooks ≤ self.new.spare) × (laters ≤ self.new.spare_laters)) }
        ensures succeeds { hooks ≤ self.old.spare → laters ≤ self.old.spare_laters → IsOk result }
        ensures spare { self.old.spare ≤ self.new.spare }
        ensures spare_laters { self.old.spare_laters ≤ self.new.spare_laters }
    {
        self.hooks.reserve(hooks)?;
        self.laters.reserve(laters)?;
        Ok(())
    }

    /// A mark to undo to: how many handlers are registered.
    pub fn mark(&self) -> usize
        ensures count { result ≡ length self.now.hooks }
        ensures fits { result < 2 ^ 63 }
    {
        self.hooks.len()
    }

    /// The same for before-commit bodies.
    pub fn later_mark(&self) -> usize
        ensures count { result ≡ length self.now.laters }
        ensures fits { result < 2 ^ 63 }
    {
        self.laters.len()
    }

    /// Keeps the handlers that were registered at a mark. What is dropped becomes spare.
    pub fn undo_to(&mut self, mark: usize)
        requires { mark ≤ length self.old.hooks }
        ensures hooks { self.new.hooks ≡ take mark self.old.hooks }
        ensures laters { SameLaters self.old self.new }
        ensures spare { self.new.spare + mark ≡ self.old.spare + length self.old.hooks }
    {
        self.hooks.truncate(mark);
    }

    /// Keeps the before-commit bodies that were registered at a mark of theirs.
    pub fn undo_laters_to(&mut self, mark: usize)
        requires { mark ≤ length self.old.laters }
        ensures laters { self.new.laters ≡ take mark self.old.laters }
        ensures hooks { SameHooks self.old self.new }
        ensures spare { self.new.spare_laters + mark ≡ self.old.spare_laters + length self.old.laters }
    {
        self.laters.truncate(mark);
    }

    /// The token of the before-commit body at this index. An index that has one is below 2^63.
    pub fn later_at(&self, index: usize) -> Option<u64>
        ensures token { result ≡ slice_get self.now.laters index }
        ensures fits { IsSome result → index < 2 ^ 63 }
    {
        self.laters.as_slice().get(index).copied()
    }

    /// The run at this index of a stage, for the registrations from one on.
    pub fn run_at(&self, stage: Stage, from: usize, index: usize) -> Option<(HookPhase, u64)>
        ensures { result ≡ slice_get (stage_runs stage (drop from self.now.hooks)) index }
    {
        let mut cursor = Cursor::new(stage, from);
        for _skipped in 0..index {
            let (_, _, next) = self.next_run(cursor)?;
            cursor = next;
        }
        let (phase, token, _) = self.next_run(cursor)?;
        Some((phase, token))
    }

    /// The first run that a cursor has still to come to, and the cursor behind it. Whoever goes on with that one
    /// looks at each registration once, and needs no memory.
    pub fn next_run(&self, cursor: Cursor) -> Option<(HookPhase, u64, Cursor)>
        ensures { MatchOption result
            (runs_left cursor self.now.hooks ≡ [])
            (λ run. runs_left cursor self.now.hooks ≡ (run.0, run.1) ∷ runs_left run.2 self.now.hooks) }
    {
        let from = cursor.from.min(self.hooks.len());
        let hooks = &self.hooks.as_slice()[from..];
        let (phase, token, passed) = match cursor.stage {
            Stage::AfterRollback => last_run(hooks, cursor.passed)?,
            stage => first_run(hooks, stage, cursor.passed)?,
        };
        let next = Cursor { passed, ..cursor };
        Some((phase, token, next))
    }

    /// The first run of a walk, and the walk behind it.
    pub fn walk_on(&self, walk: Walk) -> Option<(HookPhase, u64, Walk)>
        ensures { MatchOption result
            (walk_runs walk self.now.hooks ≡ [])
            (λ run. walk_runs walk self.now.hooks ≡ (run.0, run.1) ∷ walk_runs run.2 self.now.hooks) }
    {
        if let Some((phase, token, cursor)) = self.next_run(walk.cursor) {
            return Some((phase, token, Walk { cursor, ..walk }));
        }
        let (phase, token, cursor) = self.next_run(walk.behind?)?;
        let behind = None;
        Some((phase, token, Walk { cursor, behind }))
    }

    /// Forgets all, and keeps the memory for what comes next.
    pub fn clear(&mut self)
        ensures hooks { self.new.hooks ≡ [] }
        ensures laters { self.new.laters ≡ [] }
        ensures spare { self.new.spare ≡ self.old.spare + length self.old.hooks }
        ensures spare_laters { self.new.spare_laters ≡ self.old.spare_laters + length self.old.laters }
    {
        self.hooks.truncate(0);
        self.laters.truncate(0);
    }
}

// The first run of a stage behind so many registrations.
fn first_run(
    hooks: &[(HookPhase, u64)],
    stage: Stage,
    passed: usize,
) -> Option<(HookPhase, u64, usize)>
    requires { stage ≢ AfterRollback }
    ensures { IsNextRun stage passed hooks.now result }
{
    for index in passed..hooks.len() {
        let (phase, token) = hooks[index];
        if stage.runs(phase) {
            return Some((phase, token, index + 1));
        }
    }
    None
}

// The first run of an undoing, which is the last one before so many registrations at the end.
fn last_run(hooks: &[(HookPhase, u64)], passed: usize) -> Option<(HookPhase, u64, usize)>
    ensures { IsNextRun AfterRollback passed hooks.now result }
{
    let mut left = hooks.len().saturating_sub(passed);
    while left > 0 {
        left -= 1;
        let (phase, token) = hooks[left];
        if Stage::AfterRollback.runs(phase) {
            return Some((phase, token, hooks.len() - left));
        }
    }
    None
}
