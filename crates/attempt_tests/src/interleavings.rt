//! Two callers run a short transaction each, in every interleaving of their accesses. A schedule names who
//! makes each access, and is replayed from the opening; schedules that lead to one state are followed once.
ghost use Rattle.std.specs.Prelude.{◌≡◌, ◌<◌, ◌≤◌, IfOk};
ghost use Rattle.meta_word.specs.Policy.{looks};

use opacity::Committed;
use std::alloc::Global;
use std::collections::BTreeSet;
use std::process::Abort;
use std::test::Fail;
use stm_core::{Next, Reply};
use stm_model::{Addr, Ask, Ending, Free, HookPhase, Policy, Settings, Word};
use world_run::Simulation;
use world_run::laws::the_free_law_owes_nothing;

// Both cells hold 1 at first.
const OPENING: [u64; 2] = [1, 1];

// What a transaction does.
#[derive(Clone, Copy, Debug, PartialEq, Eq)]
enum Script {
    /// Adds one to cell 0.
    AddOne,
    /// Does the same, once it has undone a level that wrote cell 1. It has a handler of a rollback, registered in
    /// that level, and one of a commit.
    UndoAndAddOne,
    /// Puts the sum of both cells into one of them.
    PutSum(u32),
    /// Reads both cells.
    ReadBoth,
    /// Writes a value to both cells.
    WriteBoth(u64),
}

// A caller with its script: the values that it has read, how often it asked, and the words that its
// accesses found.
#[derive(Drop)]
struct Actor {
    second: bool,
    script: Script,
    asked: usize,
    values: Vec<u64>,
    found: Vec<u64>,
}

impl Actor {
    fn new(alloc: Global, second: bool, script: Script) -> Actor {
        Actor {
            second,
            script,
            asked: 0,
            values: Vec::new(alloc),
            found: Vec::new(alloc),
        }
    }

    fn caller(&self) -> u16
        ensures low { 0 < result }
        ensures high { result ≤ 2 }
    {
        if self.second { 2 } else { 1 }
    }

    // The sum of what it has read.
    fn sum(&self) -> u64 {
        let mut sum = 0u64;
        for value in &self.values {
            sum = sum.wrapping_add(*value);
        }
        sum
    }

    // What it asks next.
    fn next_ask(&self) -> Ask {
        let (zero, one) = (Addr(0), Addr(1));
        match (self.script, self.asked) {
            (Script::AddOne | Script::PutSum(_) | Script::ReadBoth, 0) => Ask::Get(zero),
            (Script::AddOne, 1) => Ask::Set(zero, self.sum().wrapping_add(1)),
            (Script::UndoAndAddOne, asked) => self.next_with_level(asked),
            (Script::PutSum(_) | Script::ReadBoth, 1) => Ask::Get(one),
            (Script::PutSum(cell), 2) => Ask::Set(Addr(cell), self.sum()),
            (Script::WriteBoth(value), 0) => Ask::Set(zero, value),
            (Script::WriteBoth(value), 1) => Ask::Set(one, value),
            _ => Ask::Finish,
        }
    }

    // What it asks behind so many asks, where it undoes a level.
    fn next_with_level(&self, asked: usize) -> Ask {
        match asked {
            0 => Ask::Get(Addr(0)),
            1 => Ask::Enter,
            2 => Ask::Set(Addr(1), 9),
            3 => Ask::Hook(HookPhase::Rollback, 1),
            4 => Ask::Undo,
            5 => Ask::Hook(HookPhase::Commit, 2),
            6 => Ask::Set(Addr(0), self.sum().wrapping_add(1)),
            _ => Ask::Finish,
        }
    }
}

// A simulation of two callers, with their scripts.
#[derive(Drop)]
struct Pair {
    simulation: Simulation<Free>,
    first: Actor,
    second: Actor,
}

// Both attempts are begun, before their first access.
fn opened(alloc: Global, policy: Policy, scripts: (Script, Script)) -> Result<Pair, Fail>
    requires { looks policy ≤ 100 }
    ensures { IfOk result (λ pair. pair.simulation.settings.callers ≡ 2) }
{
    let settings = Settings {
        callers: 2,
        policy,
        tries: 1,
        clock: 9,
        attempts: 1,
    };
    let mut simulation = Simulation::new(alloc, Free, settings, &OPENING)?;
    simulation.begin(1);
    simulation.begin(2);
    Ok(Pair {
        simulation,
        first: Actor::new(alloc, false, scripts.0),
        second: Actor::new(alloc, true, scripts.1),
    })
}

// Runs a handler that is due, which touches no shared word, or asks an attempt that waits to be asked, once it has
// taken its reply. Tells whether it did either.
fn ask_once(simulation: &mut Simulation<Free>, actor: &mut Actor) -> Result<bool, Fail>
    requires { simulation.old.settings.callers ≡ 2 }
    ensures { simulation.new.settings.callers ≡ 2 }
{
    let caller = actor.caller();
    let ask = match simulation.next(caller) {
        Some(Next::Reply(Reply::Ready)) => actor.next_ask(),
        Some(Next::Reply(Reply::Value(value))) => {
            actor.values.push(value)?;
            actor.next_ask()
        }
        Some(Next::Reply(Reply::Stopped(_))) => Ask::Finish,
        Some(Next::Run { .. }) => {
            the_free_law_owes_nothing();
            simulation.advance(caller)?;
            return Ok(true);
        }
        _ => return Ok(false),
    };
    actor.asked = actor.asked.wrapping_add(1);
    Ok(simulation.ask(caller, ask))
}

// Asks an attempt until it goes on by itself.
fn ask_on(simulation: &mut Simulation<Free>, actor: &mut Actor) -> Result<(), Fail>
    requires { simulation.old.settings.callers ≡ 2 }
    ensures { simulation.new.settings.callers ≡ 2 }
{
    for _ in 0..4 {
        if !ask_once(simulation, actor)? {
            return Ok(());
        }
    }
    Ok(())
}

// Makes the next access of an actor, or its ring. Tells whether there was one.
fn turn(simulation: &mut Simulation<Free>, actor: &mut Actor) -> Result<bool, Fail>
    requires { simulation.old.settings.callers ≡ 2 }
    ensures { simulation.new.settings.callers ≡ 2 }
{
    let caller = actor.caller();
    let found = match simulation.next(caller) {
        Some(Next::Access(access)) => simulation.word(access.word()),
        Some(Next::Decide { .. }) => simulation.word(Word::Clock),
        Some(Next::Ring(_)) => None,
        _ => return Ok(false),
    };
    the_free_law_owes_nothing();
    simulation.advance(caller)?;
    if let Some(word) = found {
        actor.found.push(word)?;
    }
    ask_on(simulation, actor)?;
    Ok(true)
}

impl Pair {
    fn turn(&mut self, second: bool) -> Result<bool, Fail>
        requires { self.old.simulation.settings.callers ≡ 2 }
        ensures { self.new.simulation.settings.callers ≡ 2 }
    {
        if second {
            turn(&mut self.simulation, &mut self.second)
        } else {
            turn(&mut self.simulation, &mut self.first)
        }
    }

    // What tells states apart: the words of the table, and what each attempt's accesses have found, since an
    // attempt is what these made of it.
    fn state(&self, alloc: Global) -> Result<Vec<u64>, Fail> {
        let mut state = Vec::from_slice(alloc, &self.simulation.world().words)?;
        state.push(self.first.found.len() as u64)?;
        state.extend_from_slice(&self.first.found)?;
        state.extend_from_slice(&self.second.found)?;
        Ok(state)
    }

    fn value(&self, cell: u32) -> Option<u64> {
        self.simulation.word(Word::Value(Addr(cell)))
    }

    fn ending(&self, second: bool) -> Option<Ending>
        requires { self.now.simulation.settings.callers ≡ 2 }
    {
        match self.simulation.next(if second { 2 } else { 1 }) {
            Some(Next::Reply(Reply::Ended(ending))) => Some(ending),
            _ => None,
        }
    }
}

// What comes of the opening by this schedule.
fn replayed(
    alloc: Global,
    policy: Policy,
    scripts: (Script, Script),
    schedule: &[bool],
) -> Result<Pair, Fail>
    requires { looks policy ≤ 100 }
    ensures { IfOk result (λ pair. pair.simulation.settings.callers ≡ 2) }
{
    let mut pair = opened(alloc, policy, scripts)?;
    for second in schedule {
        pair.turn(*second)?;
    }
    Ok(pair)
}

// A state in which both attempts are over, and how they ended.
#[derive(Drop)]
struct End {
    pair: Pair,
    endings: (Option<Ending>, Option<Ending>),
}

// The ends that are reached, how many other states were passed, and whether that is all.
#[derive(Drop)]
struct Reached {
    ends: Vec<End>,
    passed: usize,
    whole: bool,
}

// Every schedule, but that of those which lead to one state only one is followed.
fn explore(alloc: Global, policy: Policy, scripts: (Script, Script)) -> Result<Reached, Fail>
    requires { looks policy ≤ 100 }
{
    let mut seen = BTreeSet::new(alloc);
    let mut reached = Reached {
        ends: Vec::new(alloc),
        passed: 0,
        whole: false,
    };
    let mut work = Vec::new(alloc);
    work.push(Vec::new(alloc))?;
    for _ in 0..100_000 {
        let Some(schedule) = work.pop() else {
            reached.whole = true;
            return Ok(reached);
        };
        let mut ended = true;
        for second in [false, true] {
            let mut pair = replayed(alloc, policy, scripts, &schedule)?;
            if pair.turn(second)? {
                ended = false;
                if seen.insert(pair.state(alloc)?)? {
                    let mut longer = Vec::from_slice(alloc, &schedule)?;
                    longer.push(second)?;
                    work.push(longer)?;
                }
            }
        }
        if ended {
            let pair = replayed(alloc, policy, scripts, &schedule)?;
            let endings = (pair.ending(false), pair.ending(true));
            reached.ends.push(End { pair, endings })?;
        } else {
            reached.passed = reached.passed.wrapping_add(1);
        }
    }
    Ok(reached)
}

const POLICIES: [Policy; 3] = [Policy::GiveWay, Policy::Look(1), Policy::Doom(0)];

// Whether an attempt has committed, as a writer.
fn is_committed(ending: Option<Ending>) -> bool {
    matches!(ending, Some(Ending::Committed { .. }))
}

// How many of the ends have so many writers.
fn ends_with(reached: &Reached, writers: usize) -> usize {
    let mut count = 0usize;
    for end in &reached.ends {
        if end.pair.simulation.world().history.len() == writers {
            count = count.wrapping_add(1);
        }
    }
    count
}

// What the cells hold when these have put their sums, one after the other: the first cell 0, the second
// cell 1.
fn sums_in_order(history: &[Committed]) -> (u64, u64) {
    let mut cells = (OPENING[0], OPENING[1]);
    for entry in history {
        let sum = cells.0.wrapping_add(cells.1);
        if entry.caller == 1 {
            cells.0 = sum;
        } else {
            cells.1 = sum;
        }
    }
    cells
}

// All has been explored. Whoever committed has added one to cell 0, nobody has written cell 1, both have ended, and
// somewhere both have committed and somewhere one.
fn each_added_one(rt: &impl Abort, reached: &Reached) {
    assert!(rt; reached.whole);
    for end in &reached.ends {
        let committed = end.pair.simulation.world().history.len() as u64;
        assert_eq!(rt; end.pair.value(0), Some(committed.wrapping_add(1)));
        assert_eq!(rt; end.pair.value(1), Some(1));
        assert!(rt; end.endings.0.is_some() && end.endings.1.is_some());
    }
    assert!(rt; ends_with(reached, 2) > 0);
    assert!(rt; ends_with(reached, 1) > 0);
}

#[test]
fn no_update_is_lost(rt: HostRuntime) -> Result<(), Fail> {
    for policy in POLICIES {
        let reached = explore(rt.alloc(), policy, (Script::AddOne, Script::AddOne))?;
        each_added_one(&rt, &reached);
    }
    Ok(())
}

#[test]
fn no_update_is_lost_behind_a_level_that_was_undone(rt: HostRuntime) -> Result<(), Fail> {
    for policy in POLICIES {
        let scripts = (Script::UndoAndAddOne, Script::UndoAndAddOne);
        let reached = explore(rt.alloc(), policy, scripts)?;
        each_added_one(&rt, &reached);
    }
    Ok(())
}

#[test]
fn no_sum_is_skewed(rt: HostRuntime) -> Result<(), Fail> {
    for policy in POLICIES {
        let reached = explore(rt.alloc(), policy, (Script::PutSum(0), Script::PutSum(1)))?;
        assert!(rt; reached.whole);
        for End { pair, .. } in &reached.ends {
            let (zero, one) = sums_in_order(&pair.simulation.world().history);
            assert_eq!(rt; (pair.value(0), pair.value(1)), (Some(zero), Some(one)));
        }
        assert!(rt; ends_with(&reached, 2) > 0);
    }
    Ok(())
}

#[test]
fn what_is_read_is_from_one_heap(rt: HostRuntime) -> Result<(), Fail> {
    for policy in POLICIES {
        let reached = explore(rt.alloc(), policy, (Script::ReadBoth, Script::WriteBoth(5)))?;
        assert!(rt; reached.whole);
        let mut late = 0usize;
        for End { pair, endings } in &reached.ends {
            let values: &[u64] = &pair.first.values;
            let now = if is_committed(endings.1) { 5 } else { 1 };
            assert!(rt; matches!(values, [] | [1] | [5] | [1, 1] | [5, 5]));
            assert_eq!(rt; (pair.value(0), pair.value(1)), (Some(now), Some(now)));
            if let [5, 5] = values {
                late = late.wrapping_add(1);
            }
        }
        assert!(rt; late > 0);
    }
    Ok(())
}
