//! A worker of a job.
ghost use Rattle.std.specs.Prelude.{◌≡◌, ◌+◌, ◌^◌, ◌<◌, List, [], IsSomeAnd, OnOk, length};
ghost use Rattle.stm_model.specs.World.{IsCaller};
ghost use Rattle.ledger_model.specs.Allowed.{IsAllowed, first_footing};
ghost use Rattle.ledger_model.specs.Talk.{talk};
ghost use Rattle.ledger_model.specs.Traced.{access, ended_with, with_rolled, with_row};
ghost use Rattle.ledger_model.specs.declared.listing.Row.{Row};
ghost use Rattle.world_run.specs.Simulation.{MayBegin, terms_in};
ghost use Rattle.host_trace.specs.Flights.{Flies};
ghost use Rattle.host_trace.specs.Tracings.{BeginsOn, HasRun, HasSaid, IsNew, ListsOn, WorksOn};

use crate::flight::Flight;
use crate::said::Said;
use ledger_model::{Rolled, Row, RowResult, Rows, Script};
use std::alloc::Global;
use stm_model::{Cause, Ending, Free, Memory, Runs, Words};
use world_run::Simulation;

/// A worker: how many of its scripts are settled, how many attempts it has made, the one that it has in
/// flight, and those that were rolled back.
#[derive(Drop)]
pub(crate) struct Worker<'a> {
    pub settled: u32,
    pub attempts: u64,
    pub flight: Option<Flight<'a>>,
    pub rolled: Vec<Rolled>,
}

impl<'a> Worker<'a> {
    pub(crate) fn new(alloc: Global) -> Worker<'a>
        ensures { IsNew result }
    {
        Worker {
            settled: 0,
            attempts: 0,
            flight: None,
            rolled: Vec::new(alloc),
        }
    }

    /// One access of the attempt that it has in flight, and what follows it at once.
    pub(crate) fn access(
        &mut self,
        simulation: &mut Simulation<Free>,
        rows: &mut Rows,
        caller: u16,
    ) -> Result<(), Memory>
        requires caller { IsCaller (terms_in simulation.old) caller }
        requires flies { IsSomeAnd self.old.flight (Flies caller simulation.old) }
        requires room { self.old.settled + 1 < 2 ^ 32 }
        ensures { OnOk result (WorksOn caller simulation.old simulation.new rows.old rows.new self.old self.new (access caller)) }
    {
        let Some(flight) = self.flight.take() else {
            unreachable!()
        };
        let mut flight = flight;
        match flight.access(simulation, caller)? {
            None => {
                self.flight = Some(flight);
                Ok(())
            }
            Some(ending) => self.end(caller, ending, flight.said, rows),
        }
    }

    /// Its next attempt begins, of this script.
    pub(crate) fn begin(
        &mut self,
        alloc: Global,
        script: &'a Script,
        simulation: &mut Simulation<Free>,
        caller: u16,
    ) -> Result<(), Memory>
        requires caller { IsCaller (terms_in simulation.old) caller }
        requires may { MayBegin simulation.old caller }
        requires room { self.old.attempts + 1 < 2 ^ 64 }
        requires allowed { IsAllowed (length simulation.old.opening) first_footing (talk script.now.block) }
        ensures { OnOk result (BeginsOn caller script.now simulation.old simulation.new self.old self.new) }
    {
        let flight = Flight::new(alloc, script)?;
        simulation.begin(caller);
        self.attempts += 1;
        self.flight = Some(flight);
        Ok(())
    }

    // Its attempt is over.
    fn end(
        &mut self,
        caller: u16,
        ending: Ending,
        said: Said,
        rows: &mut Rows,
    ) -> Result<(), Memory>
        requires { self.old.settled + 1 < 2 ^ 32 }
        ensures { OnOk result (ListsOn caller (HasSaid caller said) rows.old rows.new self.old self.new (ended_with (Some ending) caller)) }
    {
        match ending {
            Ending::Committed { stamp } => {
                self.settle(caller, (stamp, true), RowResult::Done, said, rows)
            }
            Ending::Read { prefix } => {
                self.settle(caller, (prefix, false), RowResult::Done, said, rows)
            }
            Ending::Rolled { cause, prefix } => match cause {
                Cause::User { code } => {
                    self.settle(
                        caller,
                        (prefix, false),
                        RowResult::Fail { code },
                        undone(said),
                        rows,
                    )
                }
                Cause::ClockEnd { .. } => {
                    self.settle(
                        caller,
                        (prefix, false),
                        RowResult::Spent,
                        undone(said),
                        rows,
                    )
                }
                _ => self.roll(caller, prefix, cause, said),
            },
        }
    }

    // A script is settled, at this position, as a writer or not.
    fn settle(
        &mut self,
        caller: u16,
        place: (u64, bool),
        outcome: RowResult,
        said: Said,
        rows: &mut Rows,
    ) -> Result<(), Memory>
        requires { self.old.settled + 1 < 2 ^ 32 }
        ensures { OnOk result (ListsOn caller (HasRun caller said) rows.old rows.new self.old self.new (with_row caller place.0 place.1 outcome said.prints.items)) }
    {
        rows.push(Row {
            position: place.0,
            writer: place.1,
            worker: caller,
            number: self.settled + 1,
            result: outcome,
            prints: Words::from(said.prints),
            runs: Runs::from(said.runs),
            drawn: 0,
        })?;
        self.settled += 1;
        Ok(())
    }

    // An attempt was rolled back.
    fn roll(&mut self, caller: u16, prefix: u64, cause: Cause, said: Said) -> Result<(), Memory>
        requires { self.old.settled + 1 < 2 ^ 32 }
        ensures { OnOk result ((rows : List Row) → ListsOn caller (HasSaid caller said) rows rows self.old self.new (with_rolled caller prefix cause)) }
    {
        self.rolled.push(Rolled {
            worker: caller,
            number: self.settled + 1,
            prefix,
            cause,
            trail: Words::from(said.trail),
        })?;
        Ok(())
    }
}

// What was said, where nothing of it took place.
fn undone(said: Said) -> Said
    ensures { result ≡ record said { prints = result.prints } × (result.prints.items ≡ []) }
{
    let mut said = said;
    said.prints.clear();
    said
}
