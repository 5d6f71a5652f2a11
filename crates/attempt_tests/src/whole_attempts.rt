//! Whole attempts of an only caller, which may make two.
ghost use Rattle.std.specs.Prelude.{◌≡◌, IfOk, length};

use std::test::Fail;
use stm_model::{Addr, Ask, Cause, Ending, Free, Note, Policy, Settings};
use world_run::Simulation;
use world_run::laws::the_free_law_owes_nothing;

// Two cells with 5 and 7.
fn opened(rt: &HostRuntime) -> Result<Simulation<Free>, Fail>
    ensures callers { IfOk result (λ simulation. simulation.settings.callers ≡ 1) }
    ensures cells { IfOk result (λ simulation. length simulation.opening ≡ 2) }
{
    let settings = Settings {
        callers: 1,
        policy: Policy::GiveWay,
        tries: 0,
        clock: 9,
        attempts: 2,
    };
    Ok(Simulation::new(rt.alloc(), Free, settings, &[5, 7])?)
}

#[test]
#[tactic(auto, unfolding(stm_model::specs::Moves::MayAsk, world_run::specs::Run::AsksMeetOwed, world_run::specs::Run::ClosesOpen))]
fn a_read_and_a_write_commit_and_leave_an_entry(rt: HostRuntime) -> Result<(), Fail> {
    the_free_law_owes_nothing();
    let mut simulation = opened(&rt)?;
    let asks = [Ask::Get(Addr(0)), Ask::Set(Addr(1), 9)];
    let ending = simulation.run_attempt(1, &asks)?;
    assert_eq!(rt; ending, Some(Ending::Committed { stamp: 1 }));
    let history = &simulation.world().history;
    assert_eq!(rt; history.len(), 1);
    let noted = Note {
        addr: Addr(0),
        version: 0,
        value: 5,
    };
    assert_eq!(rt; (history[0].caller, history[0].serial), (1, 1));
    assert_eq!(rt; history[0].reads.as_slice(), [noted].as_slice());
    assert_eq!(rt; history[0].writes.as_slice(), [(1, 9)].as_slice());
    Ok(())
}

#[test]
#[tactic(auto, unfolding(stm_model::specs::Moves::MayAsk, world_run::specs::Run::AsksMeetOwed, world_run::specs::Run::ClosesOpen))]
fn who_asks_to_retry_leaves_no_entry(rt: HostRuntime) -> Result<(), Fail> {
    the_free_law_owes_nothing();
    let mut simulation = opened(&rt)?;
    let asks = [Ask::Set(Addr(1), 9), Ask::Abandon(Cause::Retry)];
    let rolled = Ending::Rolled {
        cause: Cause::Retry,
        prefix: 0,
    };
    assert_eq!(rt; simulation.run_attempt(1, &asks)?, Some(rolled));
    assert_eq!(rt; simulation.world().history.len(), 0);
    assert_eq!(rt; simulation.run_attempt(1, &asks)?, Some(rolled));
    assert_eq!(rt; simulation.run_attempt(1, &asks)?, None);
    Ok(())
}

#[test]
#[tactic(auto, unfolding(stm_model::specs::Moves::MayAsk, world_run::specs::Run::AsksMeetOwed, world_run::specs::Run::ClosesOpen))]
fn a_later_attempt_reads_what_committed(rt: HostRuntime) -> Result<(), Fail> {
    the_free_law_owes_nothing();
    let mut simulation = opened(&rt)?;
    simulation.run_attempt(1, &[Ask::Set(Addr(1), 9)])?;
    let reader = simulation.run_attempt(1, &[Ask::Get(Addr(1))])?;
    assert_eq!(rt; reader, Some(Ending::Read { prefix: 1 }));
    assert_eq!(rt; simulation.world().history.len(), 1);
    Ok(())
}
