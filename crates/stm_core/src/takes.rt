//! What an attempt makes of the answer to its access. An operation that goes on is kept, and one that has ended
//! is carried out.
ghost use Rattle.std.specs.Prelude.{◌≡◌, ◌<◌, ◌+◌, ◌-◌, ◌++◌, ◌∷◌, [], IsFalse, Some, length, unwrap_or};
ghost use Rattle.meta_word.specs.declared.meta.Meta.{Meta};
ghost use Rattle.lifecycle.specs.StageRuns.{stage_runs};
ghost use Rattle.meta_word.specs.declared.status.Phase.TheVariants.{Active, Idle};
ghost use Rattle.op_commit.specs.Acquire.{acquiring, wrote};
ghost use Rattle.op_commit.specs.Acquire.{accesses_left as left_to_acquire};
ghost use Rattle.op_commit.specs.Buffered.{ring_for};
ghost use Rattle.op_commit.specs.Commit.{IsStop, committing, due_by, phase_refused};
ghost use Rattle.op_commit.specs.Commit.{ClockFits as CommitClockFits, accesses_left as left_to_commit};
ghost use Rattle.op_read.specs.Read.{IsToExtend, end_of_read, reading};
ghost use Rattle.op_read.specs.Read.{accesses_left as left_to_read};
ghost use Rattle.op_read.specs.declared.read.ReadEnd.TheVariants.{NeedExtension};
ghost use Rattle.stm_core.specs.Machine.{HasSpare, MayTake};
ghost use Rattle.stm_core.specs.Running.{Becomes, Fits, HasRoomFor, HasRuns, IsAcquiring, IsCommitting, IsFree, IsIn, IsReading, IsSound, TakesAnswer, base, closing, machine_of, shown};
ghost use Rattle.stm_core.specs.declared.running.State.TheVariants as in_state;
ghost use Rattle.stm_model.specs.After.{answer_with, at, final_runs, roll_on, rolled, run_all};
ghost use Rattle.stm_model.specs.Attempt.{Ended, ReadValue};
ghost use Rattle.stm_model.specs.Handlers.{Handlers};
ghost use Rattle.stm_model.specs.Heap.{writes_to};

use crate::running::{Dues, Running, State};
use lifecycle::{Stage, Walk};
use op_commit::{AcquireEnd, AcquireOp, BackEnd, BackOp, CommitEnd, CommitOp};
use op_read::{ExtendEnd, ExtendOp, ReadEnd, ReadOp};
use stm_model::{Addr, Cause, Ending, Meta, Note};

#[tactic(auto, using(crate::proofs::Ends::ends), unfolding(crate::specs::Running::attempt_at, crate::specs::Running::InvariantAt, crate::specs::Running::reads_under_way, crate::specs::Running::writes_under_way, crate::specs::Running::left_at))]
impl Running {
    /// Takes the word that its access found.
    #[tactic(auto, unfolding(crate::specs::Running::attempt_at, crate::specs::Running::InvariantAt, crate::specs::Running::reads_under_way, crate::specs::Running::writes_under_way, crate::specs::Running::left_at, stm_model::specs::Accesses::next_at, stm_model::specs::Accesses::answer_of, stm_model::specs::After::after_at, crate::specs::Machine::ClockFits))]
    pub fn take(&mut self, answer: u64)
        requires sound { IsSound self.old }
        requires may { MayTake (shown self.old) answer }
        ensures { TakesAnswer self.old.state answer self.old self.new }
    {
        match self.state {
            State::Announce => self.state = State::Begin,
            State::Begin => {
                self.prefix = answer;
                self.state = State::Ready(None);
            }
            State::Read(op) => self.take_read(op, answer),
            State::Extend { read, first, op } => self.take_extension(read, first, op, answer),
            State::Acquire { op, value } => self.take_acquire(op, value, answer),
            State::Undo(op) => self.take_undo(op, answer),
            State::Commit(op) => self.take_commit(op, answer),
            State::RollBack {
                op,
                ending,
                prepared,
            } => self.take_roll_back(op, ending, prepared, answer),
            State::Ready(_)
            | State::Late(_)
            | State::Stopped(_)
            | State::Undone { .. }
            | State::Ended(_) => {}
        }
    }

    // A read takes its answer.
    fn take_read(&mut self, op: ReadOp, answer: u64)
        requires { IsIn (in_state.Read op) self.old }
        ensures { TakesAnswer (in_state.Read op) answer self.old self.new }
    {
        let mut op = op;
        op.take(&self.footprint.reads, answer);
        self.put_read(op);
    }

    /// Goes on from this read.
    pub fn put_read(&mut self, op: ReadOp)
        requires free { IsFree self.old }
        requires reads { IsReading self.old op }
        ensures becomes { Becomes (reading op (base self.old)) (left_to_read op (length self.old.footprint.reads.notes)) self.old self.new }
        ensures room { HasSpare (self.old.footprint.reads.spare - 1) self.old.footprint.writes.spare (machine_of self.new) }
    {
        match op.end() {
            None => self.state = State::Read(op),
            Some(ReadEnd::Got { value, version }) => self.note(Note {
                addr: op.addr,
                version,
                value,
            }),
            Some(ReadEnd::NeedExtension { meta }) => {
                self.state = State::Extend {
                    read: op,
                    first: meta,
                    op: ExtendOp::new(self.own),
                };
            }
            Some(ReadEnd::Bad(cause)) => self.state = State::Stopped(cause),
        }
    }

    // Notes what was read, and answers it.
    fn note(&mut self, note: Note)
        requires free { IsFree self.old }
        requires room { HasRoomFor self.old.footprint.reads note.addr.0 }
        ensures becomes { Becomes (answer_with (record (base self.old) { notes = self.old.footprint.reads.notes ++ note ∷ [] }) note.value) 0 self.old self.new }
        ensures room { HasSpare (self.old.footprint.reads.spare - 1) self.old.footprint.writes.spare (machine_of self.new) }
    {
        self.footprint.reads.add_spare(note);
        self.state = State::Ready(Some(note.value));
    }

    // An extension takes its answer.
    fn take_extension(&mut self, read: ReadOp, first: Meta, op: ExtendOp, answer: u64)
        requires { IsIn (in_state.Extend read first op) self.old }
        ensures { TakesAnswer (in_state.Extend read first op) answer self.old self.new }
    {
        let mut op = op;
        op.take(&self.footprint.reads, answer);
        match op.end() {
            None => self.state = State::Extend { read, first, op },
            Some(ExtendEnd::Prefix(prefix)) => self.resume_read(read, prefix),
            Some(ExtendEnd::Bad(cause)) => self.state = State::Stopped(cause),
        }
    }

    // Goes on with a read at a later prefix.
    fn resume_read(&mut self, read: ReadOp, prefix: u64)
        requires free { IsFree self.old }
        requires own { read.own ≡ self.old.own }
        requires waits { IsToExtend read.place }
        requires room { HasRoomFor self.old.footprint.reads read.addr.0 }
        ensures becomes { (first : Meta) → end_of_read read ≡ Some (NeedExtension first) →
            Becomes (at (record (base self.old) { prefix = prefix }) (ReadValue read.addr.0 read.left first)) (left_to_read read (length self.old.footprint.reads.notes) - (1 + length self.old.footprint.reads.notes)) self.old self.new }
        ensures room { HasSpare (self.old.footprint.reads.spare - 1) self.old.footprint.writes.spare (machine_of self.new) }
    {
        let mut read = read;
        read.resume(prefix);
        self.prefix = prefix;
        self.state = State::Read(read);
    }

    // A first write takes its answer.
    fn take_acquire(&mut self, op: AcquireOp, value: u64, answer: u64)
        requires { IsIn (in_state.Acquire op value) self.old }
        ensures { TakesAnswer (in_state.Acquire op value) answer self.old self.new }
    {
        let mut op = op;
        op.take(&self.footprint.reads, answer);
        self.put_acquire(op, value);
    }

    /// Goes on from this first write, of this value.
    pub fn put_acquire(&mut self, op: AcquireOp, value: u64)
        requires free { IsFree self.old }
        requires acquires { IsAcquiring self.old op }
        ensures becomes { Becomes (acquiring op value (base self.old)) (left_to_acquire op) self.old self.new }
        ensures room { HasSpare self.old.footprint.reads.spare (self.old.footprint.writes.spare - 1) (machine_of self.new) }
    {
        match op.end() {
            None => self.state = State::Acquire { op, value },
            Some(AcquireEnd::Owned { .. }) => self.buffer(op.addr, value),
            Some(AcquireEnd::Bad(cause)) => self.state = State::Stopped(cause),
        }
    }

    // Buffers the first write of a cell.
    fn buffer(&mut self, addr: Addr, value: u64)
        requires free { IsFree self.old }
        requires unwritten { IsFalse (writes_to self.old.footprint.writes.writes addr.0) }
        requires room { 0 < self.old.footprint.writes.spare }
        ensures becomes { Becomes (wrote (base self.old) addr.0 value) 0 self.old self.new }
        ensures room { HasSpare self.old.footprint.reads.spare (self.old.footprint.writes.spare - 1) (machine_of self.new) }
    {
        self.footprint.writes.put_first(addr, value);
        self.state = State::Ready(None);
    }

    // A commit takes its answer.
    fn take_commit(&mut self, op: CommitOp, answer: u64)
        requires commits { IsIn (in_state.Commit op) self.old }
        requires clock { CommitClockFits op.place op.limit answer }
        ensures { TakesAnswer (in_state.Commit op) answer self.old self.new }
    {
        let mut op = op;
        op.take(&self.footprint, answer);
        self.put_commit(op);
    }

    /// Goes on from this commit, and at once from a stop.
    pub fn put_commit(&mut self, op: CommitOp)
        requires free { IsFree self.old }
        requires commits { IsCommitting self.old op }
        ensures becomes { Becomes (committing op (record (base self.old) { due = due_by op (base self.old) })) (left_to_commit op (length self.old.footprint.reads.notes) + (length self.old.footprint.writes.writes + 1)) self.old self.new }
        ensures room { HasSpare self.old.footprint.reads.spare self.old.footprint.writes.spare (machine_of self.new) }
    {
        self.due = Dues {
            ring: op.rings(),
            runs: None,
        };
        match op.end() {
            None => self.state = State::Commit(op),
            Some(CommitEnd::Prepared) => self.resume_commit(op, Stage::Preparing),
            Some(CommitEnd::Decided { .. }) => self.resume_commit(op, Stage::Committing),
            Some(CommitEnd::Stamp(stamp)) => self.end(Ending::Committed { stamp }),
            Some(CommitEnd::Bad { cause, prefix }) => self.fail_commit(cause, prefix),
        }
    }

    // Goes on from a stop, once the handlers of this stage have run.
    fn resume_commit(&mut self, op: CommitOp, stage: Stage)
        requires fits { Fits self.old }
        requires runs { self.old.due.runs ≡ None }
        requires commits { IsCommitting self.old op }
        requires stop { IsStop op.place }
        ensures becomes { Becomes (committing op (record (base self.old) { due = ring_for self.old.due.ring ++ run_all (stage_runs stage self.old.handlers.hooks) })) (left_to_commit op (length self.old.footprint.reads.notes) + (length self.old.footprint.writes.writes + 1)) self.old self.new }
        ensures room { HasSpare self.old.footprint.reads.spare self.old.footprint.writes.spare (machine_of self.new) }
    {
        let mut op = op;
        op.resume();
        self.due.runs = self.runs_of(Walk::new(stage, 0));
        self.state = State::Commit(op);
    }

    // It is over, and its last handlers come due.
    fn end(&mut self, ending: Ending)
        requires fits { Fits self.old }
        requires runs { self.old.due.runs ≡ None }
        ensures becomes { Becomes (at (record (base self.old) { phase = Idle; ending = Some ending; due = ring_for self.old.due.ring ++ run_all (final_runs (Some ending) self.old.handlers.hooks) }) Ended) 0 self.old self.new }
        ensures room { HasSpare self.old.footprint.reads.spare self.old.footprint.writes.spare (machine_of self.new) }
    {
        self.due.runs = self.runs_of(Walk::new(last_stage(ending), 0));
        self.state = State::Ended(ending);
    }

    // A commit failed, at this prefix where there is a new one.
    fn fail_commit(&mut self, cause: Cause, prefix: Option<u64>)
        requires fits { Fits self.old }
        requires runs { self.old.due.runs ≡ None }
        ensures becomes { Becomes (rolled (record (base self.old) { phase = phase_refused cause Active; prefix = unwrap_or prefix self.old.prefix }) cause) (length self.old.footprint.writes.writes + 1) self.old self.new }
        ensures room { HasSpare self.old.footprint.reads.spare self.old.footprint.writes.spare (machine_of self.new) }
    {
        self.prefix = prefix.unwrap_or(self.prefix);
        let prepared = !matches!(cause, Cause::Doomed { .. });
        self.roll_back(
            Ending::Rolled {
                cause,
                prefix: self.prefix,
            },
            prepared,
        );
    }

    /// Releases each written cell, stores the status as idle, and ends so. That it has prepared says that its
    /// status was stored as preparing, which matters to what it shows alone.
    pub fn roll_back(&mut self, ending: Ending, prepared: bool)
        requires fits { Fits self.old }
        requires runs { HasRuns self.old.due.runs self.old.handlers.hooks }
        ensures becomes { Becomes (roll_on (closing (base self.old) ending prepared) self.old.footprint.writes.writes) (length self.old.footprint.writes.writes + 1) self.old self.new }
        ensures room { HasSpare self.old.footprint.reads.spare self.old.footprint.writes.spare (machine_of self.new) }
        ensures due { self.new.due ≡ self.old.due }
    {
        self.state = State::RollBack {
            op: BackOp::new(self.own, self.serial, 0, true),
            ending,
            prepared,
        };
    }

    // A rollback takes its answer.
    fn take_roll_back(&mut self, op: BackOp, ending: Ending, prepared: bool, answer: u64)
        requires { IsIn (in_state.RollBack op ending prepared) self.old }
        ensures { TakesAnswer (in_state.RollBack op ending prepared) answer self.old self.new }
    {
        let mut op = op;
        op.take(&self.written(), answer);
        self.due = Dues {
            ring: op.rings(),
            runs: None,
        };
        match op.end() {
            None => {
                self.state = State::RollBack {
                    op,
                    ending,
                    prepared,
                };
            }
            Some(BackEnd::Back) => self.end(ending),
        }
    }
}

// Which handlers run once an attempt has ended so.
#[tactic(auto, unfolding(stm_model::specs::After::final_runs))]
fn last_stage(ending: Ending) -> Stage
    ensures { (hooks : Handlers) → stage_runs result hooks ≡ final_runs (Some ending) hooks }
{
    match ending {
        Ending::Rolled { .. } => Stage::AfterRollback,
        Ending::Committed { .. } | Ending::Read { .. } => Stage::AfterCommit,
    }
}
