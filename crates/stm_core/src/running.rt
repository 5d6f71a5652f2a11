//! An attempt as it is kept: what it has read and written, and the operation that it is in the middle of.
ghost use Rattle.std.specs.Prelude.{◌≡◌, ◌≢◌, ◌<◌, ◌≤◌, ◌+◌, ◌↔◌, IfOk, IfSome, IsOk, IsTrue, None, OnOk, Some, length};
ghost use Rattle.meta_word.specs.declared.status.Phase.TheVariants.{Active};
ghost use Rattle.meta_word.specs.declared.status.TheConstants.{MAX_SERIAL};
ghost use Rattle.stm_core.specs.Machine.{HasSpare, named, next_of, standing};
ghost use Rattle.stm_core.specs.Running.{AreUnused, IsSound, NumbersFit, left_in, machine_of, reads_under_way, shown, writes_under_way};
ghost use Rattle.stm_core.specs.declared.next.Next.TheVariants as coming;
ghost use Rattle.stm_core.specs.declared.next.Reply.{Reply as ReplyOf};
ghost use Rattle.stm_core.specs.declared.next.Reply.TheVariants as reply;
ghost use Rattle.stm_core.specs.declared.running.State.TheVariants as in_state;
ghost use Rattle.stm_model.specs.Accesses.{StoreStatus, access_of, active, next_access};
ghost use Rattle.stm_model.specs.Attempt.{Announce, Attempt, Ready, no_attempt};
ghost use Rattle.stm_model.specs.declared.ending.Ending.{Ending as EndingOf};

use crate::footprint::{Footprint, Written};
use crate::next::{Next, Reply, Room};
use crate::past::Past;
use lifecycle::{Handlers, Walk};
use meta_word::{Phase, pack_status};
use op_commit::{AcquireOp, BackOp, CommitOp};
use op_read::{ExtendOp, ReadOp};
use read_set::ReadSet;
use std::alloc::Global;
use stm_model::{Access, Addr, Cause, Ending, Memory, Meta, Settings, TxnStatus, Word};
use txn_level::KeptLevels;
use write_buffer::WriteBuffer;

/// The state of an attempt. In the middle of an operation it is that operation.
#[derive(Clone, Copy)]
pub enum State {
    /// Its status is to be stored.
    Announce,
    /// The clock is to be loaded.
    Begin,
    /// It waits to be asked, and has answered the last ask by this value or by none.
    Ready(Option<u64>),
    /// A before-commit body has its turn, and it waits to be asked by it.
    Late(u64),
    /// It was refused something.
    Stopped(Cause),
    Read(ReadOp),
    /// A read waits for an extension, since the meta word that it loaded first has a later version.
    Extend {
        read: ReadOp,
        first: Meta,
        op: ExtendOp,
    },
    /// A cell is acquired, to be written for the first time.
    Acquire {
        op: AcquireOp,
        value: u64,
    },
    /// It releases the cells that were first written in the innermost level, which is being undone.
    Undo(BackOp),
    /// A level was undone, and its handlers run. So many handlers were registered where it was entered.
    Undone {
        hooks: usize,
    },
    Commit(CommitOp),
    /// It releases what it holds and ends so. It had begun to prepare, or not.
    RollBack {
        op: BackOp,
        ending: Ending,
        prepared: bool,
    },
    Ended(Ending),
}

/// What is due before the next access: a cell to be rung for, and then handlers to be run.
#[derive(Clone, Copy)]
pub struct Dues {
    pub ring: Option<Addr>,
    pub runs: Option<Walk>,
}

/// An attempt as it is kept.
#[derive(Drop)]
pub struct Running {
    /// The number of its caller.
    pub own: u16,
    /// Its number among its caller's attempts, from 1.
    pub serial: u64,
    pub settings: Settings,
    /// All that it has read is from the heap that so many writers left. It is 0 before the clock is loaded.
    pub prefix: u64,
    pub footprint: Footprint,
    pub handlers: Handlers,
    /// What stood where each open level was entered.
    pub levels: KeptLevels,
    /// How many before-commit bodies have had their turn.
    pub turn: usize,
    pub due: Dues,
    pub past: Past,
    pub state: State,
}

impl Running {
    /// An attempt before its first access.
    #[tactic(auto, unfolding(crate::specs::Running::attempt_at, crate::specs::Running::InvariantAt, crate::specs::Running::left_at, crate::specs::Past::books_in, crate::specs::Past::rings_in, crate::specs::Past::runs_in, crate::specs::Marked::AreMarked))]
    pub fn new(alloc: Global, own: u16, serial: u64, settings: Settings) -> Running
        requires { NumbersFit own serial settings }
        ensures shown { shown result ≡ record (no_attempt own settings) { serial = serial; stage = Announce } }
        ensures sound { IsSound result }
        ensures left { left_in result ≡ 2 }
    {
        Running {
            own,
            serial,
            settings,
            prefix: 0,
            footprint: Footprint {
                reads: ReadSet::new(alloc),
                writes: WriteBuffer::new(alloc),
            },
            handlers: Handlers::new(alloc),
            levels: KeptLevels::new(alloc),
            turn: 0,
            due: Dues {
                ring: None,
                runs: None,
            },
            past: Past::Nothing,
            state: State::Announce,
        }
    }

    /// An attempt that has just loaded the clock as this, with the memory of what is handed in.
    #[inline(always)]
    #[tactic(auto, unfolding(crate::specs::Running::attempt_at, crate::specs::Running::InvariantAt, crate::specs::Past::books_in, crate::specs::Past::rings_in, crate::specs::Past::runs_in, crate::specs::Marked::AreMarked))]
    pub fn begun(
        own: u16,
        serial: u64,
        settings: Settings,
        prefix: u64,
        footprint: Footprint,
        handlers: Handlers,
        levels: KeptLevels,
    ) -> Running
        requires numbers { NumbersFit own serial settings }
        requires unused { AreUnused footprint handlers levels }
        ensures shown { shown result ≡ record (no_attempt own settings) { serial = serial; phase = Active; prefix = prefix; stage = Ready None } }
        ensures sound { IsSound result }
    {
        Running {
            own,
            serial,
            settings,
            prefix,
            footprint,
            handlers,
            levels,
            turn: 0,
            due: Dues {
                ring: None,
                runs: None,
            },
            past: Past::Nothing,
            state: State::Ready(None),
        }
    }

    /// Takes memory for so many first reads and first writes more.
    #[tactic(auto, using(crate::proofs::Spare::keeps_own, crate::proofs::Spare::sound_with_room, crate::proofs::Spare::shown_with_room, crate::proofs::Spare::left_with_room))]
    pub fn reserve(&mut self, reads: usize, writes: usize) -> Result<(), Memory>
        requires { IsSound self.old }
        ensures shown { shown self.new ≡ shown self.old }
        ensures sound { IsSound self.new }
        ensures left { left_in self.new ≡ left_in self.old }
        ensures ok { OnOk result (HasSpare reads writes (machine_of self.new)) }
        ensures succeeds { HasSpare reads writes (machine_of self.old) → IsOk result }
        ensures room { HasSpare (machine_of self.old).spare_reads (machine_of self.old).spare_writes (machine_of self.new) }
    {
        if self.has_spare(reads, writes) {
            return Ok(());
        }
        let reads = sum(reads, self.reads_under_way())?;
        let writes = sum(writes, self.writes_under_way())?;
        self.footprint.reads.reserve(reads)?;
        self.footprint.writes.reserve_first_writes(writes)
    }

    /// Whether so many first reads and first writes are spare, beside one that is under way.
    pub fn has_spare(&self, reads: usize, writes: usize) -> bool
        ensures { IsTrue result ↔ HasSpare reads writes (machine_of self.now) }
    {
        let room = self.room();
        reads <= room.reads && writes <= room.writes
    }

    /// How many first reads and first writes are spare, beside one that is under way.
    pub fn room(&self) -> Room
        ensures reads { result.reads ≡ (machine_of self.now).spare_reads }
        ensures writes { result.writes ≡ (machine_of self.now).spare_writes }
    {
        let spare_reads = self.footprint.reads.spare();
        let spare_writes = self.footprint.writes.spare_first_writes();
        Room {
            reads: spare_reads.saturating_sub(self.reads_under_way()),
            writes: spare_writes.saturating_sub(self.writes_under_way()),
        }
    }

    /// The next attempt of the caller, before its first access. What the former one had is dropped, and its
    /// memory kept.
    #[tactic(auto, unfolding(crate::specs::Running::attempt_at, crate::specs::Running::InvariantAt, crate::specs::Running::left_at, crate::specs::Running::reads_under_way, crate::specs::Running::writes_under_way, crate::specs::Past::books_in, crate::specs::Past::rings_in, crate::specs::Past::runs_in, crate::specs::Marked::AreMarked))]
    pub fn again(&mut self, serial: u64)
        requires sound { IsSound self.old }
        requires serial { serial ≤ MAX_SERIAL }
        ensures shown { shown self.new ≡ record (no_attempt self.old.own self.old.settings) { serial = serial; stage = Announce } }
        ensures sound { IsSound self.new }
        ensures left { left_in self.new ≡ 2 }
        ensures room { HasSpare ((machine_of self.old).spare_reads + length self.old.footprint.reads.notes) ((machine_of self.old).spare_writes + length self.old.footprint.writes.writes) (machine_of self.new) }
    {
        self.serial = serial;
        self.prefix = 0;
        self.footprint.clear();
        self.handlers.clear();
        self.levels.clear();
        self.turn = 0;
        self.due = Dues {
            ring: None,
            runs: None,
        };
        self.past = Past::Nothing;
        self.state = State::Announce;
    }

    // How many first reads are under way. Their room is theirs.
    #[tactic(auto, unfolding(crate::specs::Running::reads_under_way))]
    fn reads_under_way(&self) -> usize
        ensures { result ≡ reads_under_way self.now.state }
    {
        match self.state {
            State::Read(_) | State::Extend { .. } => 1,
            _ => 0,
        }
    }

    // How many first writes are under way.
    #[tactic(auto, unfolding(crate::specs::Running::writes_under_way))]
    fn writes_under_way(&self) -> usize
        ensures { result ≡ writes_under_way self.now.state }
    {
        match self.state {
            State::Acquire { .. } => 1,
            _ => 0,
        }
    }

    /// What it does next.
    #[tactic(auto, unfolding(crate::specs::Running::attempt_at, crate::specs::Machine::standing, crate::specs::Machine::after_due))]
    pub fn next(&self) -> Next
        requires { IsSound self.now }
        ensures next { next_of (shown self.now) ≡ Some result }
        ensures over { (ending : EndingOf) → result ≡ coming.Reply (reply.Ended ending) → self.now.state ≡ in_state.Ended ending }
    {
        if let Some(due) = self.next_due() {
            return due;
        }
        match self.state {
            State::Ready(told) => Next::Reply(answered(told)),
            State::Late(token) => Next::Before { token },
            State::Stopped(cause) => Next::Reply(Reply::Stopped(cause)),
            State::Undone { .. } => Next::Reply(Reply::Ready),
            State::Ended(ending) => Next::Reply(Reply::Ended(ending)),
            _ => made(self.access()),
        }
    }

    /// The access that it makes next, if it makes one.
    #[tactic(auto, unfolding(crate::specs::Running::attempt_at, crate::specs::Running::InvariantAt, stm_model::specs::Accesses::next_at, stm_model::specs::Accesses::access_of))]
    pub fn access(&self) -> Option<Access>
        requires { IsSound self.now }
        ensures { result ≡ next_access (shown self.now) }
    {
        if self.has_due() {
            return None;
        }
        match self.state {
            State::Announce => Some(self.announcement()),
            State::Begin => Some(Access::Load(Word::Clock)),
            State::Read(op) => op.next(&self.footprint.reads),
            State::Extend { op, .. } => op.next(&self.footprint.reads),
            State::Acquire { op, .. } => op.next(&self.footprint.reads),
            State::Commit(op) => op.next(&self.footprint),
            State::Undo(op) | State::RollBack { op, .. } => op.next(&self.written()),
            State::Ready(_)
            | State::Late(_)
            | State::Stopped(_)
            | State::Undone { .. }
            | State::Ended(_) => None,
        }
    }

    // The store of its status, by which it begins.
    #[tactic(auto, unfolding(stm_model::specs::Accesses::access_of))]
    fn announcement(&self) -> Access
        requires { self.now.serial ≤ MAX_SERIAL }
        ensures { result ≡ access_of (StoreStatus self.now.own (active self.now.serial)) }
    {
        Access::Store(
            Word::Status(self.own),
            pack_status(TxnStatus {
                serial: self.serial,
                phase: Phase::Active,
            }),
        )
    }

    /// The buffered cells.
    pub fn written(&self) -> Written<'_>
        ensures { result.buffer.now ≡ self.now.footprint.writes }
    {
        Written {
            buffer: &self.footprint.writes,
        }
    }
}

// The last ask was answered by this value or by none.
#[tactic(auto, unfolding(crate::specs::Machine::standing))]
fn answered(told: Option<u64>) -> Reply
    ensures stands { (t : Attempt) → standing t (Ready told) ≡ Some (coming.Reply result) }
    ensures goes_on { (ending : EndingOf) → result ≢ reply.Ended ending }
{
    match told {
        None => Reply::Ready,
        Some(value) => Reply::Value(value),
    }
}

// The next access of an operation that goes on; the exchange of the clock has a name of its own.
fn made(access: Option<Access>) -> Next
    ensures access { IfSome access (λ a. result ≡ named a) }
    ensures goes_on { (told : ReplyOf) → result ≡ coming.Reply told → told ≡ reply.Ready }
{
    match access {
        Some(
            Access::Exchange {
                word: Word::Clock,
                old,
                ..
            },
        ) => Next::Decide { old },
        Some(access) => Next::Access(access),
        None => Next::Reply(Reply::Ready),
    }
}

// What is more than a count can say would want more memory than there is.
fn sum(count: usize, more: usize) -> Result<usize, Memory>
    ensures { IfOk result (λ total. total ≡ count + more) }
{
    count.checked_add(more).ok_or(Memory)
}
