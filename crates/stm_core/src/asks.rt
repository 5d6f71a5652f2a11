//! What an attempt makes of an ask.
ghost use Rattle.std.specs.Prelude.{◌≡◌, ◌≤◌, ◌⊎◌, length, nat_eq, IsFalse, IsTrue, None};
ghost use Rattle.std.specs.Map.{lookup};
ghost use Rattle.op_commit.specs.Acquire.{version_in};
ghost use Rattle.op_commit.specs.Back.{former_writes};
ghost use Rattle.stm_core.specs.Machine.{IsRefused, TakesNoMemory};
ghost use Rattle.stm_core.specs.Marked.{AreMarked, HasFormer, IsLatest};
ghost use Rattle.stm_core.specs.Past.{books_in};
ghost use Rattle.stm_core.specs.Running.{Answers, HasOpen, IsAsked, IsFree, IsIn, IsSound, machine_of, refused, shown};
ghost use Rattle.stm_core.specs.declared.running.State.TheVariants as in_state;
ghost use Rattle.stm_model.specs.After.{note_of, rolled};
ghost use Rattle.stm_model.specs.Heap.{writes_to};
ghost use Rattle.stm_model.specs.Moves.{AwaitsAsk, EndsLate, Takes, asked_stopped, moved};
ghost use Rattle.stm_model.specs.declared.access.Ask.TheVariants.{Abandon, Finish, Get, Hook, Later, Set};
ghost use Rattle.stm_model.specs.declared.cause.Cause.{Cause as CauseOf};
ghost use Rattle.write_buffer.specs.Buffer.{IsMark};

use crate::running::{Running, State};
use lifecycle::{Stage, Walk};
use op_commit::{AcquireOp, CommitOp};
use op_read::ReadOp;
use stm_model::{Addr, Ask, Cause, Ending, HookPhase, WriteMark};

#[tactic(auto, unfolding(crate::specs::Running::attempt_at, crate::specs::Running::left_at, crate::specs::Running::InvariantAt, crate::specs::Running::reads_under_way, crate::specs::Running::writes_under_way, stm_model::specs::Moves::asked_going, stm_model::specs::Moves::asked_stopped, stm_model::specs::Moves::MayRunOut, crate::specs::Machine::accesses_asked, crate::specs::Machine::reads_asked, crate::specs::Machine::writes_asked))]
impl Running {
    /// Takes an ask.
    #[tactic(auto)]
    pub fn ask(&mut self, ask: Ask)
        requires sound { IsSound self.old }
        requires waits { AwaitsAsk (shown self.old) }
        requires open { HasOpen ask self.old.levels }
        ensures moves { (shown self.new ≡ moved (shown self.old) (Takes ask)) ⊎ IsRefused (shown self.old) ask (shown self.new) }
        ensures takes { TakesNoMemory (machine_of self.old).spare_reads (machine_of self.old).spare_writes (shown self.old) ask → shown self.new ≡ moved (shown self.old) (Takes ask) }
        ensures asked { IsAsked ask self.old self.new }
    {
        match self.state {
            State::Ready(_) | State::Late(_) => self.ask_going(ask),
            State::Stopped(cause) => self.ask_stopped(cause, ask),
            _ => unreachable!(),
        }
    }

    // Takes an ask where nothing was refused.
    fn ask_going(&mut self, ask: Ask)
        requires free { IsFree self.old }
        requires open { HasOpen ask self.old.levels }
        ensures { Answers ask self.old self.new }
    {
        match ask {
            Ask::Get(addr) => self.get(addr),
            Ask::Set(addr, value) => self.set(addr, value),
            Ask::Enter => self.enter(),
            Ask::Keep => self.keep(),
            Ask::Undo => self.undo(),
            Ask::Hook(phase, token) => self.hook(phase, token),
            Ask::Later(token) => self.later(token),
            Ask::Finish => self.go_on(),
            Ask::Abandon(cause) => self.abandon(cause),
        }
    }

    // Takes an ask after it was refused something. It stays refused, and at most a level is closed, unless this
    // ends it.
    fn ask_stopped(&mut self, cause: Cause, ask: Ask)
        requires stopped { IsIn (in_state.Stopped cause) self.old }
        requires open { HasOpen ask self.old.levels }
        ensures moves { shown self.new ≡ asked_stopped (refused self.old cause) cause ask }
        ensures asked { IsAsked ask self.old self.new }
    {
        match ask {
            Ask::Finish | Ask::Abandon(_) => self.abandon(cause),
            Ask::Keep | Ask::Undo => {
                self.close_level();
                self.state = State::Stopped(cause);
            }
            _ => self.state = State::Stopped(cause),
        }
    }

    // Reads a cell: its buffered value before all others.
    fn get(&mut self, addr: Addr)
        requires { IsFree self.old }
        ensures { Answers (Get addr) self.old self.new }
    {
        match self.footprint.writes.find(addr) {
            Some(value) => self.state = State::Ready(Some(value)),
            None => self.get_unwritten(addr),
        }
    }

    // Reads a cell that isn't written: its noted value, or else its words.
    fn get_unwritten(&mut self, addr: Addr)
        requires free { IsFree self.old }
        requires unwritten { lookup (nat_eq addr.0) self.old.footprint.writes.writes ≡ None }
        ensures { Answers (Get addr) self.old self.new }
    {
        match self.footprint.reads.find(addr) {
            Some(note) => self.state = State::Ready(Some(note.value)),
            None => self.first_read(addr),
        }
    }

    // Begins to read a cell, once its note has room.
    fn first_read(&mut self, addr: Addr)
        requires free { IsFree self.old }
        requires unwritten { lookup (nat_eq addr.0) self.old.footprint.writes.writes ≡ None }
        requires unnoted { note_of self.old.footprint.reads.notes addr.0 ≡ None }
        ensures { Answers (Get addr) self.old self.new }
    {
        match self.footprint.reads.reserve(1) {
            Ok(()) => {
                let looks = self.settings.policy.looks();
                self.state = State::Read(ReadOp::new(addr, self.own, self.prefix, looks));
            }
            Err(_) => self.state = State::Stopped(Cause::Memory),
        }
    }

    // Writes a cell, which has to be acquired first where it isn't written yet.
    fn set(&mut self, addr: Addr, value: u64)
        requires { IsFree self.old }
        ensures { Answers (Set addr value) self.old self.new }
    {
        if self.footprint.writes.find(addr).is_some() {
            self.rewrite(addr, value);
        } else {
            self.first_write(addr, value);
        }
    }

    // Begins to write a cell for the first time, once its write has room.
    fn first_write(&mut self, addr: Addr, value: u64)
        requires free { IsFree self.old }
        requires unwritten { IsFalse (writes_to self.old.footprint.writes.writes addr.0) }
        ensures { Answers (Set addr value) self.old self.new }
    {
        match self.footprint.writes.reserve_first_writes(1) {
            Ok(()) => {
                let noted = self.noted_version(addr);
                let op = AcquireOp::new(addr, self.own, self.settings.policy, noted);
                self.state = State::Acquire { op, value };
            }
            Err(_) => self.state = State::Stopped(Cause::Memory),
        }
    }

    // The version that was noted of a cell.
    fn noted_version(&self, addr: Addr) -> Option<u64>
        ensures { result ≡ version_in (note_of self.now.footprint.reads.notes addr.0) }
    {
        match self.footprint.reads.find(addr) {
            Some(note) => Some(note.version),
            None => None,
        }
    }

    // Writes a cell that is written already.
    fn rewrite(&mut self, addr: Addr, value: u64)
        requires free { IsFree self.old }
        requires written { IsTrue (writes_to self.old.footprint.writes.writes addr.0) }
        ensures { Answers (Set addr value) self.old self.new }
    {
        let since = self.latest_mark();
        match self.footprint.writes.rewrite(addr, value, since) {
            Ok(()) => self.state = State::Ready(None),
            Err(_) => self.state = State::Stopped(Cause::Memory),
        }
    }

    // The latest mark to which there may be an undo: the innermost level's, or that of the begin.
    fn latest_mark(&self) -> WriteMark
        requires { AreMarked self.now.footprint.writes self.now.handlers self.now.levels (books_in self.now.past) }
        ensures mark { IsMark self.now.footprint.writes result }
        ensures latest { IsLatest self.now.levels result }
        ensures former { HasFormer self.now.footprint.writes.writes result (former_writes (books_in self.now.past)) }
    {
        if self.levels.depth() == 0 {
            WriteMark {
                entries: 0,
                restores: 0,
            }
        } else {
            self.levels.innermost().writes
        }
    }

    // Registers a handler.
    fn hook(&mut self, phase: HookPhase, token: u64)
        requires { IsFree self.old }
        ensures { Answers (Hook phase token) self.old self.new }
    {
        match self.handlers.register(phase, token) {
            Ok(()) => self.state = State::Ready(None),
            Err(_) => self.state = State::Stopped(Cause::Memory),
        }
    }

    // Registers a before-commit body.
    fn later(&mut self, token: u64)
        requires { IsFree self.old }
        ensures { Answers (Later token) self.old self.new }
    {
        match self.handlers.later(token) {
            Ok(()) => self.state = State::Ready(None),
            Err(_) => self.state = State::Stopped(Cause::Memory),
        }
    }

    /// The before-commit body that has its turn is over.
    #[tactic(auto)]
    pub fn end_late(&mut self)
        requires sound { IsSound self.old }
        requires waits { AwaitsAsk (shown self.old) }
        ensures moves { shown self.new ≡ moved (shown self.old) EndsLate }
        ensures asked { IsAsked Finish self.old self.new }
    {
        match self.state {
            State::Ready(_) | State::Late(_) => self.go_on(),
            State::Stopped(cause) => self.abandon(cause),
            _ => unreachable!(),
        }
    }

    // A body is over: the next before-commit body has its turn, and behind the last one the attempt ends.
    fn go_on(&mut self)
        requires { IsFree self.old }
        ensures { Answers Finish self.old self.new }
    {
        match self.handlers.later_at(self.turn) {
            Some(token) => {
                self.turn += 1;
                self.state = State::Late(token);
            }
            None => self.conclude(),
        }
    }

    // All bodies are over: what has written something is committed, and else it ends as a reader, whose handlers
    // before and after a decision run at once.
    fn conclude(&mut self)
        requires free { IsFree self.old }
        requires last { length self.old.handlers.laters ≤ self.old.turn }
        ensures { Answers Finish self.old self.new }
    {
        let count = self.footprint.writes.len();
        if count == 0 {
            self.due.runs = self.runs_of(Walk::both(Stage::Preparing, Stage::Committing));
            self.roll_back(
                Ending::Read {
                    prefix: self.prefix,
                },
                false,
            );
        } else {
            self.state = State::Commit(CommitOp::new(
                self.own,
                self.serial,
                self.settings.tries,
                self.settings.clock,
                count,
            ));
        }
    }

    // Rolls it back with this cause.
    fn abandon(&mut self, cause: Cause)
        requires { IsFree self.old }
        ensures answers { Answers (Abandon cause) self.old self.new }
        ensures refused { (stopped : CauseOf) → shown self.new ≡ rolled (refused self.old stopped) cause }
    {
        self.roll_back(
            Ending::Rolled {
                cause,
                prefix: self.prefix,
            },
            false,
        );
    }
}
