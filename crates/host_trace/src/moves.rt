//! What an attempt does without an access, with what its worker hears of it.
ghost use Rattle.std.specs.Prelude.{◌≡◌, ◌≤◌, [], ℕ, OnOk};
ghost use Rattle.stm_model.specs.Moves.{EndsLate, Takes, moved};
ghost use Rattle.stm_model.specs.World.{IsCaller};
ghost use Rattle.ledger_model.specs.Talk.{Asks, Ends, Talk};
ghost use Rattle.ledger_model.specs.Traced.{due_done, gives_up, requested, returned};
ghost use Rattle.world_run.specs.Simulation.{attempt_in, left_of, terms_in};
ghost use Rattle.host_trace.specs.declared.flight.Flight.{Flight};
ghost use Rattle.host_trace.specs.Flights.{Awaits, AwaitsIn, Follows, GivesUp, HearsIn, Leads, done};
ghost use Rattle.host_trace.specs.Footings.{IsDone};

use crate::answers::{is_out_of_memory, refusal_in};
use crate::said::Said;
use stm_model::{Ask, Free, Memory};
use world_run::Simulation;

/// All that is due is done.
pub(crate) fn do_due(
    said: &mut Said,
    simulation: &mut Simulation<Free>,
    caller: u16,
) -> Result<(), Memory>
    requires caller { IsCaller (terms_in simulation.old) caller }
    ensures leads { OnOk result (Leads caller simulation.old simulation.new
        (Follows caller simulation.old said.old) (Follows caller simulation.new said.new) (due_done caller) done) }
    ensures attempt { OnOk result (IsDone (attempt_in simulation.old caller) (attempt_in simulation.new caller)) }
    ensures left { OnOk result (left_of simulation.new caller ≤ left_of simulation.old caller) }
{
    while said.note(simulation.next(caller))? {
        simulation.advance(caller)?;
    }
    Ok(())
}

/// The script makes a request, and what is due then is done.
pub(crate) fn request(
    said: &mut Said,
    simulation: &mut Simulation<Free>,
    caller: u16,
    ask: Ask,
) -> Result<(), Memory>
    requires caller { IsCaller (terms_in simulation.old) caller }
    requires hears { (rest : ℕ → Talk) × HearsIn caller simulation.old (Asks ask rest) }
    ensures leads { OnOk result ((rest : ℕ → Talk) → Leads caller simulation.old simulation.new
        (Follows caller simulation.old said.old) (Awaits caller simulation.new said.new rest) (requested caller ask rest) done) }
    ensures attempt { OnOk result (IsDone (moved (attempt_in simulation.old caller) (Takes ask)) (attempt_in simulation.new caller)) }
{
    said.ask(ask)?;
    simulation.ask(caller, ask);
    if is_out_of_memory(simulation.next(caller)) {
        return Err(Memory);
    }
    do_due(said, simulation, caller)
}

/// A before-commit body is over, and what is due then is done.
pub(crate) fn end_late(
    said: &mut Said,
    simulation: &mut Simulation<Free>,
    caller: u16,
) -> Result<(), Memory>
    requires caller { IsCaller (terms_in simulation.old) caller }
    requires hears { (rest : Talk) × HearsIn caller simulation.old (Ends rest) }
    ensures leads { OnOk result ((rest : Talk) → Leads caller simulation.old simulation.new
        (Follows caller simulation.old said.old) (Awaits caller simulation.new said.new (λ answer. rest)) (returned caller rest) done) }
    ensures attempt { OnOk result (IsDone (moved (attempt_in simulation.old caller) EndsLate) (attempt_in simulation.new caller)) }
{
    simulation.end_late(caller);
    do_due(said, simulation, caller)
}

/// Who was refused something is rolled back.
pub(crate) fn give_up(simulation: &mut Simulation<Free>, caller: u16)
    requires caller { IsCaller (terms_in simulation.old) caller }
    requires nothing_due { (attempt_in simulation.old caller).due ≡ [] }
    ensures leads { (flight : Flight) → Leads caller simulation.old simulation.new
        (AwaitsIn caller simulation.old flight) (AwaitsIn caller simulation.new flight) (gives_up caller) done }
    ensures gives { GivesUp caller simulation.old simulation.new }
{
    if let Some(cause) = refusal_in(simulation.next(caller)) {
        simulation.ask(caller, Ask::Abandon(cause));
    }
}
