//! A worker, and how it runs its scripts.
ghost use Rattle.std.specs.Prelude.{◌≡◌, length};
ghost use Rattle.bank_loads.specs.Turns.{FitsIn};
ghost use Rattle.bank.specs.Causes.{is_conflict};
ghost use Rattle.bank.specs.Ready.{IsReady};

use crate::report::Fault;
use bank_loads::{Script, Scripts};
use ref_table::{Seat, Stm};
use std::thread::yield_now;
use stm_model::{Body, Cause, Free, Quiet};
use txn_run::{Caller, Outcome, attempt};

/// A worker with its seat and its scripts.
#[derive(Drop)]
pub struct Worker {
    pub seat: Seat<Free>,
    pub scripts: Scripts,
    /// How many attempts it has made.
    pub attempts: u64,
    stopped: Option<Cause>,
    bell: Quiet,
}

impl Worker {
    /// Before its first script.
    pub fn new(seat: Seat<Free>, scripts: Scripts) -> Worker
        ensures { (result.seat ≡ seat) × (result.scripts ≡ scripts) }
    {
        Worker {
            seat,
            scripts,
            attempts: 0,
            stopped: None,
            bell: Quiet,
        }
    }

    /// Why it stopped before its last script, if it did.
    pub fn fault(&self) -> Option<Fault> {
        let cause = self.stopped?;
        Some(Fault::Stopped {
            worker: self.scripts.worker,
            cause,
        })
    }

    /// Its seat, when it is done.
    pub fn into_seat(self) -> Seat<Free>
        ensures { result ≡ self.seat }
    {
        let Worker {
            seat,
            scripts: _,
            attempts: _,
            stopped: _,
            bell: _,
        } = self;
        seat
    }

    /// Runs its scripts, one after another.
    pub fn work(&mut self, stm: &Stm<Free>)
        requires { IsReady stm.now self.old }
        ensures { IsReady stm.now self.new }
    {
        while self.scripts.number < self.scripts.task.scripts {
            let script = self.scripts.next_script();
            if let Err(cause) = self.run(stm, script) {
                self.stopped = Some(cause);
                return;
            }
        }
    }

    fn run(&mut self, stm: &Stm<Free>, script: Script) -> Result<(), Cause>
        requires ready { IsReady stm.now self.old }
        requires fits { FitsIn (length stm.now.opening) script }
        ensures ready { IsReady stm.now self.new }
        ensures scripts { self.new.scripts ≡ self.old.scripts }
    {
        match script {
            Script::Transfer(transfer) => self.settle(stm, &transfer),
            Script::Tally(tally) => self.settle(stm, &tally),
            Script::Count(count) => self.settle(stm, &count),
        }
    }

    // Tries until the attempt isn't rolled back for what others do, as often as the table lets it.
    fn settle<B: Body<Free> + Copy>(&mut self, stm: &Stm<Free>, script: &B) -> Result<(), Cause>
        requires ready { IsReady stm.now self.old }
        requires fits { B.fits script.now stm.now.law (length stm.now.opening) }
        ensures ready { IsReady stm.now self.new }
        ensures scripts { self.new.scripts ≡ self.old.scripts }
    {
        let most = stm.settings().attempts;
        for _ in 0..most {
            let mut body = *script;
            let mut caller = Caller {
                seat: &mut self.seat,
                stm,
                bell: &mut self.bell,
            };
            let outcome = attempt(&mut caller, &mut body, &mut Quiet);
            self.attempts = self.attempts.saturating_add(1);
            match outcome {
                Outcome::Committed { .. } | Outcome::Read { .. } => return Ok(()),
                Outcome::Rolled { cause, .. } if is_conflict(cause) => yield_now(),
                Outcome::Rolled { cause, .. } => return Err(cause),
            }
        }
        Err(Cause::AttemptsEnd { serial: most })
    }
}

// Whether another attempt may fare better.
fn is_conflict(cause: Cause) -> bool
    ensures { result ≡ is_conflict cause }
{
    matches!(
        cause,
        Cause::ReadConflict { .. }
            | Cause::Moved { .. }
            | Cause::Stale { .. }
            | Cause::WriteConflict { .. }
            | Cause::Doomed { .. }
            | Cause::ClockMoved { .. }
    )
}
