//! An attempt of a worker in flight, with the script that it runs.
ghost use Rattle.std.specs.Prelude.{◌≡◌, [], IfOk, IsFalse, IsTrue, MatchOption, OnOk, false, length, true};
ghost use Rattle.stm_model.specs.World.{IsCaller};
ghost use Rattle.ledger_model.specs.Talk.{talk};
ghost use Rattle.ledger_model.specs.Traced.{Progress, fresh, goes_on};
ghost use Rattle.script_cursor.specs.Cursors.{talk_of};
ghost use Rattle.world_run.specs.Simulation.{attempt_in, terms_in};
ghost use Rattle.host_trace.specs.Flights.{AwaitsIn, Flies, GoesOn, HasFlown, HasHeard, Hearing, Leads, Speaks, SpeaksOut, done, flown, rest_of};
ghost use Rattle.host_trace.specs.Footings.{Expects, Rests};
ghost use Rattle.host_trace.specs.Tellings.{IsTold};

use crate::answers::{answer_in, ending_in};
use crate::moves::{do_due, end_late, give_up, request};
use crate::said::Said;
use ledger_model::Script;
use script_cursor::{Coming, Cursor};
use std::alloc::Global;
use stm_model::{Ending, Free, Memory};
use world_run::Simulation;

/// An attempt in flight: how far its script has come, and what it has said.
#[derive(Drop)]
pub(crate) struct Flight<'a> {
    /// Before the first answer it stands at the start of the script, and then at the latest request.
    cursor: Cursor<'a>,
    answered: bool,
    pub said: Said,
}

impl<'a> Flight<'a> {
    pub(crate) fn new(alloc: Global, script: &'a Script) -> Result<Flight<'a>, Memory>
        ensures talk { IfOk result (λ flight. talk_of flight.cursor ≡ talk script.now.block) }
        ensures answered { IfOk result (λ flight. flight.answered ≡ false) }
        ensures said { IfOk result (λ flight. (flight.said.runs.items ≡ []) × IsTold flight.said (fresh (talk script.now.block))) }
    {
        Ok(Flight {
            cursor: Cursor::new(alloc, script)?,
            answered: false,
            said: Said::new(alloc),
        })
    }

    /// Makes the attempt's next access, and what follows it at once. Tells how it ended, where it is over.
    pub(crate) fn access(
        &mut self,
        simulation: &mut Simulation<Free>,
        caller: u16,
    ) -> Result<Option<Ending>, Memory>
        requires caller { IsCaller (terms_in simulation.old) caller }
        requires flies { Flies caller simulation.old self.old }
        ensures leads { OnOk result (Leads caller simulation.old simulation.new
            (AwaitsIn caller simulation.old self.old) (AwaitsIn caller simulation.new self.new) (flown caller) done) }
        ensures flown { IfOk result (HasFlown caller simulation.old simulation.new self.old self.new) }
    {
        simulation.advance(caller)?;
        do_due(&mut self.said, simulation, caller)?;
        self.go_on(simulation, caller)?;
        give_up(simulation, caller);
        Ok(ending_in(simulation.next(caller)))
    }

    // The script goes on with the answer to its latest request, where that has come.
    fn go_on(&mut self, simulation: &mut Simulation<Free>, caller: u16) -> Result<(), Memory>
        requires caller { IsCaller (terms_in simulation.old) caller }
        requires expects { Expects (length simulation.old.opening) (attempt_in simulation.old caller) (rest_of self.old) }
        requires nothing_due { (attempt_in simulation.old caller).due ≡ [] }
        ensures leads { OnOk result (Leads caller simulation.old simulation.new
            (AwaitsIn caller simulation.old self.old) (AwaitsIn caller simulation.new self.new) (goes_on caller) done) }
        ensures rests { OnOk result (Rests (length simulation.new.opening) (attempt_in simulation.new caller) (rest_of self.new)) }
        ensures goes { OnOk result (GoesOn simulation.old simulation.new self.old self.new) }
    {
        match answer_in(simulation.next(caller)) {
            Some(answer) => {
                self.hear(answer)?;
                self.speak_on(simulation, caller)
            }
            None => Ok(()),
        }
    }

    // The script is given an answer. The first one only lets it begin.
    fn hear(&mut self, answer: u64) -> Result<(), Memory>
        ensures { OnOk result (HasHeard answer self.old self.new) }
    {
        if self.answered {
            return self.cursor.answer(answer);
        }
        self.answered = true;
        Ok(())
    }

    // The script goes on as far as it can without an access.
    fn speak_on(&mut self, simulation: &mut Simulation<Free>, caller: u16) -> Result<(), Memory>
        requires caller { IsCaller (terms_in simulation.old) caller }
        requires hearing { Hearing caller simulation.old self.old }
        ensures { OnOk result (SpeaksOut caller simulation.old simulation.new self.old self.new) }
    {
        while self.speak(simulation, caller)? {}
        Ok(())
    }

    // What comes next of the script. Whether it goes on behind it without an access.
    fn speak(&mut self, simulation: &mut Simulation<Free>, caller: u16) -> Result<bool, Memory>
        requires caller { IsCaller (terms_in simulation.old) caller }
        requires hearing { Hearing caller simulation.old self.old }
        ensures { IfOk result (Speaks caller simulation.old simulation.new self.old self.new) }
    {
        match self.cursor.next() {
            Coming::Says(number) => {
                self.said.say(number)?;
                self.cursor.answer(0)?;
                Ok(true)
            }
            Coming::Asks(ask) => {
                request(&mut self.said, simulation, caller, ask)?;
                self.hear_at_once(answer_in(simulation.next(caller)))
            }
            Coming::Ends => {
                end_late(&mut self.said, simulation, caller)?;
                self.hear_at_once(answer_in(simulation.next(caller)))
            }
            Coming::Over(_) => Ok(false),
        }
    }

    // The script goes on where there is an answer.
    fn hear_at_once(&mut self, answer: Option<u64>) -> Result<bool, Memory>
        ensures { IfOk result (λ goes. MatchOption answer (IsFalse goes × (self.new ≡ self.old)) (λ value. IsTrue goes × HasHeard value self.old self.new)) }
    {
        match answer {
            Some(answer) => {
                self.hear(answer)?;
                Ok(true)
            }
            None => Ok(false),
        }
    }
}
