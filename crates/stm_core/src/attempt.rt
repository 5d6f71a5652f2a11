//! One attempt as a machine over accesses.
ghost use Rattle.std.specs.Prelude.{◌≡◌, ◌<◌, ◌≤◌, ◌+◌, ◌-◌, ◌^◌, ◌⊎◌, ◌↔◌, [], IsOk, IsTrue, OnOk, Some, length};
ghost use Rattle.meta_word.specs.declared.meta.TheConstants.{MAX_OWNER};
ghost use Rattle.meta_word.specs.declared.status.TheConstants.{MAX_SERIAL};
ghost use Rattle.stm_core.specs.Machine.{DueAfter, IsOngoing, IsToRun, HasSpare, IsRefused, IsSameAttempt, MayTake, Promises, SettingsFit, TakesNoMemory, accesses_asked, next_of, reads_asked, writes_asked};
ghost use Rattle.stm_model.specs.After.{after_word};
ghost use Rattle.stm_model.specs.Attempt.{Announce, Ended, Stopped, no_attempt};
ghost use Rattle.stm_model.specs.Moves.{AwaitsAsk, Does, EndsLate, IsCall, MayAsk, Takes, moved};
ghost use Rattle.stm_model.specs.declared.access.Ask.TheVariants.{Finish};
ghost use Rattle.stm_model.specs.declared.cause.Cause.{Cause};

use crate::next::{Next, Room};
use crate::running::Running;
use read_set::ReadSet;
use std::alloc::Global;
use std::marker::Model;
use stm_model::{Ask, DEEPEST, Memory, Settings, Shown};
use write_buffer::WriteBuffer;

/// One attempt of a caller to run a transaction. It is asked for cells, levels and registrations, and tells by
/// `next` what it does: an access, whose answer it is given by `take`; a handler to be run or a cell to be rung
/// for, which `ran` tells was done; a before-commit body, which asks in its turn and whose end `ran` tells; or a
/// reply. It touches no shared memory, so the same machine runs on a shared table and under a written schedule.
#[derive(Drop)]
pub struct Attempt {
    running: Running,
}

impl Model for Attempt {
    ghost use Rattle.stm_core.specs.Machine.{Machine};
    ghost use Rattle.stm_core.specs.Running.{IsSound, machine_of};

    ghost Value = { Machine };

    ghost view = { λ a. machine_of a.running };

    ghost invariant = { λ a. IsSound a.running };
}

impl Attempt {
    /// The attempt of this number among those of its caller, before its first access. The caller's number is at
    /// most `MAX_OWNER`, the attempt's at most `MAX_SERIAL`. The policy grants at most 65,534 looks, and the
    /// settings' clock is at most `MAX_VERSION`. It takes no memory yet.
    pub fn begin(alloc: Global, own: u16, serial: u64, settings: Settings) -> Attempt
        requires own { own ≤ MAX_OWNER }
        requires serial { serial ≤ MAX_SERIAL }
        requires settings { SettingsFit settings }
        ensures begins { result.attempt ≡ record (no_attempt own settings) { serial = serial; stage = Announce } }
        ensures left { result.left ≡ 2 }
    {
        Attempt {
            running: Running::new(alloc, own, serial, settings),
        }
    }

    /// Takes memory for so many first reads and first writes more, beside one that is under way.
    pub fn reserve(&mut self, reads: usize, writes: usize) -> Result<(), Memory>
        ensures same { self.new.attempt ≡ self.old.attempt }
        ensures left { self.new.left ≡ self.old.left }
        ensures ok { OnOk result (HasSpare reads writes self.new) }
        ensures succeeds { HasSpare reads writes self.old → IsOk result }
        ensures room { HasSpare self.old.spare_reads self.old.spare_writes self.new }
    {
        self.running.reserve(reads, writes)
    }

    /// How many first reads and first writes more can't be stopped by want of memory, beside one that is under
    /// way. Only a first read lowers the one, and only a first write the other, by at most one.
    pub fn room(&self) -> Room
        ensures reads { result.reads ≡ self.now.spare_reads }
        ensures writes { result.writes ≡ self.now.spare_writes }
    {
        self.running.room()
    }

    /// Begins the caller's next attempt with this one's memory, once this one is over. Its number is greater, and
    /// at most `MAX_SERIAL`. It takes no memory, and has room for as many first reads and first writes more as it
    /// had notes and writes.
    pub fn again(&mut self, serial: u64)
        requires over { self.old.attempt.stage ≡ Ended }
        requires nothing_due { self.old.attempt.due ≡ [] }
        requires greater { self.old.attempt.serial < serial }
        requires serial { serial ≤ MAX_SERIAL }
        ensures begins { self.new.attempt ≡ record (no_attempt self.old.attempt.own self.old.attempt.settings) { serial = serial; stage = Announce } }
        ensures left { self.new.left ≡ 2 }
        ensures room { HasSpare (self.old.spare_reads + length self.old.attempt.notes) (self.old.spare_writes + length self.old.attempt.now.writes) self.new }
    {
        self.running.again(serial);
    }

    /// Asks it for something, where its reply isn't the end. `Keep` and `Undo` need an open level, `Finish` ends
    /// the body and comes before the before-commit bodies alone, and `Abandon` rolls it back with a cause of the
    /// body's own or the one that it was refused with. At `DEEPEST` open levels one more is refused as too deep,
    /// and out of memory is the cause `Memory`. After any cause each later call leaves it as it is, so that the
    /// reply is the same, and `Keep` and `Undo` only close a level.
    pub fn ask(&mut self, ask: Ask)
        requires waits { AwaitsAsk self.old.attempt }
        requires may { MayAsk (2 ^ 32) self.old.attempt ask }
        ensures moves { (self.new.attempt ≡ moved self.old.attempt (Takes ask)) ⊎ IsRefused self.old.attempt ask self.new.attempt }
        ensures takes { TakesNoMemory self.old.spare_reads self.old.spare_writes self.old.attempt ask → self.new.attempt ≡ moved self.old.attempt (Takes ask) }
        ensures goes_on { IsOngoing self.new.attempt }
        ensures due { DueAfter ask self.new.attempt.due }
        ensures same { IsSameAttempt self.old.attempt self.new.attempt }
        ensures stays { (cause : Cause) → self.old.attempt.stage ≡ Stopped cause → IsCall ask → self.new.attempt ≡ self.old.attempt }
        ensures room { HasSpare (self.old.spare_reads - reads_asked self.old.attempt ask) (self.old.spare_writes - writes_asked self.old.attempt ask) self.new }
        ensures bound { self.new.left ≤ accesses_asked self.old.attempt ask }
    {
        self.running.ask(ask);
    }

    /// What it does next, which says which call may follow.
    pub fn next(&self) -> Next
        ensures next { next_of self.now.attempt ≡ Some result }
        ensures promises { Promises self.now.attempt result }
    {
        self.running.next()
    }

    /// Takes the word that its access found: the clock, where that is what it found, is at most the
    /// settings'. It takes no memory.
    pub fn take(&mut self, answer: u64)
        requires { MayTake self.old.attempt answer }
        ensures after { self.new.attempt ≡ after_word self.old.attempt answer }
        ensures same { IsSameAttempt self.old.attempt self.new.attempt }
        ensures falls { self.new.left < self.old.left }
        ensures room { HasSpare self.old.spare_reads self.old.spare_writes self.new }
    {
        self.running.take(answer);
    }

    /// What was due first was done: a handler was run, or a cell rung for. Where nothing is due, the before-commit
    /// body that has its turn is over.
    pub fn ran(&mut self)
        requires { IsToRun self.old.attempt }
        ensures does { 0 < length self.old.attempt.due → self.new.attempt ≡ moved self.old.attempt Does }
        ensures ends { AwaitsAsk self.old.attempt → self.new.attempt ≡ moved self.old.attempt EndsLate }
        ensures goes_on { AwaitsAsk self.old.attempt → IsOngoing self.new.attempt }
        ensures due { AwaitsAsk self.old.attempt → DueAfter Finish self.new.attempt.due }
        ensures same { IsSameAttempt self.old.attempt self.new.attempt }
        ensures left { 0 < length self.old.attempt.due → self.new.left ≡ self.old.left }
        ensures bound { AwaitsAsk self.old.attempt → self.new.left ≤ accesses_asked self.old.attempt Finish }
        ensures room { HasSpare self.old.spare_reads self.old.spare_writes self.new }
    {
        if self.running.has_due() {
            self.running.do_first();
        } else {
            self.running.end_late();
        }
    }

    /// How many levels are open, at most `DEEPEST`.
    pub fn depth(&self) -> u32
        ensures count { result ≡ length self.now.attempt.saved }
        ensures within { result ≤ DEEPEST }
    {
        self.running.levels.depth()
    }

    /// Whether a before-commit body has its turn, or has had it: the body itself is over.
    pub fn is_late(&self) -> bool
        ensures { IsTrue result ↔ (0 < self.now.attempt.turn) }
    {
        self.running.turn > 0
    }

    /// What it has read.
    pub fn reads(&self) -> &ReadSet
        ensures { result.now.notes ≡ self.now.attempt.notes }
    {
        &self.running.footprint.reads
    }

    /// What it has written, the cells in the order in which they came.
    pub fn writes(&self) -> &WriteBuffer
        ensures { result.now.writes ≡ self.now.attempt.now.writes }
    {
        &self.running.footprint.writes
    }

    /// What it has read, once it is over.
    pub fn into_reads(self) -> ReadSet
        requires { self.attempt.stage ≡ Ended }
        ensures { result.notes ≡ self.attempt.notes }
    {
        let running = self.running;
        let footprint = running.footprint;
        footprint.reads
    }
}

/// It tells itself, and once it has ended that there is none.
impl Shown for Attempt {
    ghost use Rattle.stm_core.specs.Machine.{in_flight};

    ghost shows = { λ a. in_flight a.attempt };
}
