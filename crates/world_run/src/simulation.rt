//! A world that runs with its callers' attempts.
ghost use Rattle.std.specs.Prelude.{◌≡◌, ◌<◌, ◌≤◌, ◌-◌, ◌^◌, ◌⊎◌, [], ℕ, IfNone, IfOk, IfSome, IsFalse, IsSome, IsTrue, OnErr, OnOk, Some, length, slice_index, slice_index_or, None};
ghost use Rattle.meta_word.specs.declared.meta.TheConstants.{MAX_OWNER};
ghost use Rattle.meta_word.specs.declared.status.TheConstants.{MAX_SERIAL};
ghost use Rattle.meta_word.specs.Status.{status_of};
ghost use Rattle.opacity.specs.Plain.{history_of};
ghost use Rattle.opacity.specs.Words.{IsOfTable};
ghost use Rattle.stm_core.specs.Machine.{Decides, Makes, Promises, SettingsFit, next_of};
ghost use Rattle.stm_core.specs.declared.next.Next.TheVariants as coming;
ghost use Rattle.stm_core.specs.declared.next.Reply.TheVariants as reply;
ghost use Rattle.stm_model.specs.Attempt.{Ended};
ghost use Rattle.stm_model.specs.Moves.{AwaitsAsk, Begins, Does, EndsLate, OutOfMemory, Takes};
ghost use Rattle.stm_model.specs.World.{IsCaller, Moves, Steps, Terms, opened, place_of};
ghost use Rattle.world_run.specs.Going.{Advances, tells_end, tells_wait};
ghost use Rattle.world_run.specs.Simulation.{HasSameTerms, Happens, Invariant, IsAskable, IsOver, IsSameOf, IsToDecide, MayBegin, MeetsOwedNext, Shows, TellsTruth, WaitsLate, attempt_in, left_of, machine_at, replies, terms_in, turn_of};
ghost use Rattle.world_run.specs.Places.{HasDue, HasLate, IsAsked, IsDone, IsGivenWord, IsPastLate, MayBeAsked, MayBeGiven, TakesAsk};

use crate::causes::is_of_body;
use meta_word::unpack_status;
use opacity::World;
use std::alloc::Global;
use std::marker::Model;
use stm_core::{Attempt, Next, Reply, Written};
use stm_model::{Access, Ask, Cause, Law, Memory, Settings, Word};

/// The plain world with an attempt of each caller that has begun one. Whatever order its callers are named
/// in, it shows a safe world.
#[derive(Drop)]
pub struct Simulation<L: Law + Drop> {
    world: World<L>,
    machines: Vec<Option<Attempt>>,
    settings: Settings,
    alloc: Global,
}

impl<L: Law + Drop> Model for Simulation<L> {
    ghost use Rattle.world_run.specs.Simulation.{InvariantOn, Simulation, simulation_of};

    ghost Value = { Simulation L };

    ghost view = { λ c. simulation_of c.world c.settings c.machines.items };

    ghost invariant = { λ c. InvariantOn L.lawful L.may c.world.callers c.world.limit (simulation_of c.world c.settings c.machines.items) };
}

impl<L: Law + Drop> Simulation<L> {
    /// The simulation of callers without an attempt, over this lawful heap.
    pub fn new(
        alloc: Global,
        law: L,
        settings: Settings,
        opening: &[u64],
    ) -> Result<Simulation<L>, Memory>
        requires size { length opening.now < 2 ^ 32 }
        requires callers { settings.callers ≤ MAX_OWNER }
        requires attempts { settings.attempts ≤ MAX_SERIAL }
        requires settings { SettingsFit settings }
        requires lawful { L.lawful law opening.now }
        ensures law { IfOk result (λ simulation. simulation.law ≡ law) }
        ensures opening { IfOk result (λ simulation. simulation.opening ≡ opening.now) }
        ensures settings { IfOk result (λ simulation. simulation.settings ≡ settings) }
        ensures opens { IfOk result (λ simulation. Shows L.lawful L.may simulation (opened (terms_in simulation) settings)) }
    {
        let world = World::new(alloc, law, settings.callers, settings.clock, opening)?;
        let machines = nobody(alloc, settings.callers)?;
        Ok(Simulation {
            world,
            machines,
            settings,
            alloc,
        })
    }

    /// What a caller's latest attempt does next. There is none as long as the caller has begun none.
    pub fn next(&self, caller: u16) -> Option<Next>
        requires { IsCaller (terms_in self.now) caller }
        ensures next { result ≡ next_of (attempt_in self.now caller) }
        ensures begun { IsSome (machine_at self.now caller) → IsSome result }
        ensures none { IfNone result (IsOver (attempt_in self.now caller)) }
        ensures promises { IfSome result (Promises (attempt_in self.now caller)) }
        ensures tells { IfSome result (TellsTruth self.now.history (attempt_in self.now caller)) }
        ensures invariant { Invariant L.lawful L.may self.now }
    {
        match &self.machines[caller as usize - 1] {
            Some(attempt) => Some(attempt.next()),
            None => None,
        }
    }

    // Whether a caller's latest attempt is over.
    fn rests(&self, caller: u16) -> bool
        requires { IsCaller (terms_in self.now) caller }
        ensures over { IsTrue result → IsOver (attempt_in self.now caller) }
        ensures told { IsOver (attempt_in self.now caller) → IsTrue result }
    {
        match self.next(caller) {
            Some(next) => is_over(next),
            None => true,
        }
    }

    // The number of a caller's latest attempt that has made an access.
    #[tactic(auto, unfolding(opacity::specs::Words::IsOfTable, stm_model::specs::World::place_of))]
    fn serial(&self, caller: u16) -> u64
        requires { IsCaller (terms_in self.now) caller }
        ensures { result ≡ (status_of (slice_index self.now.words caller)).serial }
    {
        unpack_status(self.world.word(Word::Status(caller))).serial
    }

    /// Begins a caller's next attempt, and tells whether it did: it does where the latest one is over, and
    /// fewer were made than the settings allow.
    pub fn begin(&mut self, caller: u16) -> bool
        requires caller { IsCaller (terms_in self.old) caller }
        ensures begins { IsTrue result → Happens L.lawful L.may self.old (Moves caller (Begins self.old.settings)) self.new }
        ensures stays { IsFalse result → self.new ≡ self.old }
        ensures may { IsTrue result → MayBegin self.old caller }
        ensures told { MayBegin self.old caller → IsTrue result }
        ensures begun { IsTrue result → IsSome (machine_at self.new caller) }
        ensures invariant { IsTrue result → Invariant L.lawful L.may self.old }
        ensures terms { HasSameTerms self.old self.new }
    {
        if !self.rests(caller) {
            return false;
        }
        let serial = self.serial(caller);
        if serial >= self.settings.attempts {
            return false;
        }
        let attempt = Attempt::begin(self.alloc, caller, serial + 1, self.settings);
        self.machines[caller as usize - 1] = Some(attempt);
        true
    }

    /// Whether a caller's attempt waits to be asked.
    pub fn waits(&self, caller: u16) -> bool
        requires { IsCaller (terms_in self.now) caller }
        ensures waits { IsTrue result → AwaitsAsk (attempt_in self.now caller) }
        ensures told { AwaitsAsk (attempt_in self.now caller) → IsTrue result }
        ensures invariant { Invariant L.lawful L.may self.now }
    {
        match self.next(caller) {
            Some(next) => waits(next),
            None => false,
        }
    }

    // Whether a caller's attempt waits to be asked, and may take the ask.
    fn may_ask(&self, caller: u16, ask: Ask) -> bool
        requires { IsCaller (terms_in self.now) caller }
        ensures may { IsTrue result → IsAskable (length self.now.opening) (attempt_in self.now caller) ask }
        ensures told { IsAskable (length self.now.opening) (attempt_in self.now caller) ask → IsTrue result }
    {
        match &self.machines[caller as usize - 1] {
            Some(attempt) => may_take(attempt, ask, self.world.opening.len()),
            None => false,
        }
    }

    /// Asks a caller's attempt, and tells whether it was asked: it is exactly where it waits and may take
    /// such an ask. It takes it then, or refuses it, out of memory.
    pub fn ask(&mut self, caller: u16, ask: Ask) -> bool
        requires caller { IsCaller (terms_in self.old) caller }
        ensures asked { IsTrue result → Happens L.lawful L.may self.old (Moves caller (Takes ask)) self.new ⊎ Happens L.lawful L.may self.old (Moves caller (OutOfMemory ask)) self.new }
        ensures stays { IsFalse result → self.new ≡ self.old }
        ensures may { IsTrue result → IsAskable (length self.old.opening) (attempt_in self.old caller) ask }
        ensures told { IsAskable (length self.old.opening) (attempt_in self.old caller) ask → IsTrue result }
        ensures same { IsSameOf caller self.old self.new }
        ensures terms { HasSameTerms self.old self.new }
    {
        if !self.may_ask(caller, ask) {
            return false;
        }
        ask_at(&mut self.machines, caller as usize - 1, ask);
        true
    }

    // Whether a before-commit body of a caller's attempt waits to ask.
    fn waits_late(&self, caller: u16) -> bool
        requires { IsCaller (terms_in self.now) caller }
        ensures late { IsTrue result → WaitsLate (attempt_in self.now caller) }
        ensures told { WaitsLate (attempt_in self.now caller) → IsTrue result }
    {
        match &self.machines[caller as usize - 1] {
            Some(attempt) => waits(attempt.next()) && attempt.is_late(),
            None => false,
        }
    }

    /// Ends the before-commit body that has its turn in a caller's attempt, and tells whether it did: it does
    /// exactly where that body waits to ask.
    pub fn end_late(&mut self, caller: u16) -> bool
        requires caller { IsCaller (terms_in self.old) caller }
        ensures ends { IsTrue result → Happens L.lawful L.may self.old (Moves caller EndsLate) self.new }
        ensures stays { IsFalse result → self.new ≡ self.old }
        ensures late { IsTrue result → WaitsLate (attempt_in self.old caller) }
        ensures told { WaitsLate (attempt_in self.old caller) → IsTrue result }
        ensures invariant { IsTrue result → Invariant L.lawful L.may self.old }
        ensures same { IsSameOf caller self.old self.new }
        ensures terms { HasSameTerms self.old self.new }
    {
        if !self.waits_late(caller) {
            return false;
        }
        end_late_at(&mut self.machines, caller as usize - 1);
        true
    }

    /// Makes what a caller's attempt does next: its next access, or the ring or the run that is due. Where it
    /// replies, nothing happens. Where it would win the exchange of the clock, its writes have to meet what is owed.
    /// Out of memory, nothing changes.
    pub fn advance(&mut self, caller: u16) -> Result<(), Memory>
        requires caller { IsCaller (terms_in self.old) caller }
        requires owed { MeetsOwedNext L.lawful L.may self.old caller }
        ensures happens { OnOk result (Happens L.lawful L.may self.old (turn_of caller (attempt_in self.old caller).due) self.new) }
        ensures memory { OnErr result (self.new ≡ self.old) }
        ensures stays { IsTrue (replies (next_of (attempt_in self.old caller))) → self.new ≡ self.old }
        ensures wants { OnErr result (IsToDecide (next_of (attempt_in self.old caller))) }
        ensures same { IsSameOf caller self.old self.new }
        ensures falls { OnOk result (IsFalse (replies (next_of (attempt_in self.old caller))) → left_of self.new caller < left_of self.old caller) }
        ensures terms { HasSameTerms self.old self.new }
    {
        let Some(next) = self.next(caller) else {
            return Ok(());
        };
        match next {
            Next::Access(access) => self.step(caller, access),
            Next::Decide { old } => self.decide(caller, old)?,
            Next::Ring(_) | Next::Run { .. } => self.did(caller),
            Next::Before { .. } | Next::Reply(_) => {}
        }
        Ok(())
    }

    // A caller's attempt makes its next access.
    fn step(&mut self, caller: u16, access: Access)
        requires caller { IsCaller (terms_in self.old) caller }
        requires next { Makes (attempt_in self.old caller) access }
        ensures { Advances L.lawful L.may caller self.old (Steps caller) self.new }
    {
        let found = self.world.act(caller, access, &self.machines);
        take(&mut self.machines, caller as usize - 1, found);
    }

    // A caller's attempt makes the exchange of the clock.
    fn decide(&mut self, caller: u16, old: u64) -> Result<(), Memory>
        requires caller { IsCaller (terms_in self.old) caller }
        requires next { Decides (attempt_in self.old caller) old }
        requires owed { MeetsOwedNext L.lawful L.may self.old caller }
        ensures steps { OnOk result (Advances L.lawful L.may caller self.old (Steps caller) self.new) }
        ensures memory { OnErr result (self.new ≡ self.old) }
    {
        let Some(attempt) = &self.machines[caller as usize - 1] else {
            return Ok(());
        };
        let writes = Written {
            buffer: attempt.writes(),
        };
        let found = self
            .world
            .decide(caller, old, &self.machines, attempt.reads(), &writes)?;
        take(&mut self.machines, caller as usize - 1, found);
        Ok(())
    }

    // What is due first was done for a caller's attempt.
    fn did(&mut self, caller: u16)
        requires caller { IsCaller (terms_in self.old) caller }
        requires due { 0 < length (attempt_in self.old caller).due }
        ensures { Advances L.lawful L.may caller self.old (Moves caller Does) self.new }
    {
        did(&mut self.machines, caller as usize - 1);
    }
}

impl<L: Law + Drop> Simulation<L> {
    /// The words of the table and what committed.
    pub fn world(&self) -> &World<L>
        ensures law { result.now.law ≡ self.now.law }
        ensures words { result.now.words.items ≡ self.now.words }
        ensures history { history_of result.now.history.items ≡ self.now.history }
        ensures opening { result.now.opening.items ≡ self.now.opening }
        ensures callers { result.now.callers ≡ self.now.settings.callers }
        ensures limit { result.now.limit ≡ self.now.settings.clock }
    {
        &self.world
    }

    /// A word as it stands, if the table has it.
    pub fn word(&self, word: Word) -> Option<u64>
        ensures stands { IsOfTable (terms_in self.now) word → result ≡ Some (slice_index self.now.words (place_of self.now.settings.callers word)) }
        ensures none { IsSome result → IsOfTable (terms_in self.now) word }
    {
        if is_of_table(word, self.settings.callers, self.world.opening.len()) {
            Some(self.world.word(word))
        } else {
            None
        }
    }
}

// Whether a table for so many callers and cells has the word.
#[tactic(auto, unfolding(opacity::specs::Words::IsOfTable))]
fn is_of_table(word: Word, callers: u16, cells: usize) -> bool
    ensures has { (terms : Terms) → terms.callers ≡ callers → length terms.opening ≡ cells → IsTrue result → IsOfTable terms word }
    ensures told { (terms : Terms) → terms.callers ≡ callers → length terms.opening ≡ cells → IsOfTable terms word → IsTrue result }
{
    match word {
        Word::Clock => true,
        Word::Status(caller) => 0 < caller && caller <= callers,
        Word::Meta(addr) | Word::Value(addr) => (addr.0 as usize) < cells,
    }
}

// A place for the attempt of each caller.
fn nobody(alloc: Global, callers: u16) -> Result<Vec<Option<Attempt>>, Memory>
    ensures size { IfOk result (λ machines. length machines.items ≡ callers) }
    ensures each { IfOk result (λ machines. (index : ℕ) → slice_index_or machines.items index None ≡ None) }
{
    let mut machines = Vec::new(alloc);
    for _ in 0..callers {
        machines.push(None)?;
    }
    Ok(machines)
}

// The attempt at this place is given the word that its access found.
fn take(machines: &mut Vec<Option<Attempt>>, place: usize, found: u64)
    requires { MayBeGiven machines.old.items place found }
    ensures { IsGivenWord machines.old.items machines.new.items place found }
{
    if let Some(attempt) = &mut machines[place] {
        attempt.take(found);
    }
}

// What was due first was done for the attempt at this place.
#[tactic(auto, unfolding(stm_core::specs::Machine::IsToRun))]
fn did(machines: &mut Vec<Option<Attempt>>, place: usize)
    requires { HasDue machines.old.items place }
    ensures { IsDone machines.old.items machines.new.items place }
{
    if let Some(attempt) = &mut machines[place] {
        attempt.ran();
    }
}

// A before-commit body of the attempt at this place is over.
#[tactic(auto, unfolding(stm_core::specs::Machine::IsToRun))]
fn end_late_at(machines: &mut Vec<Option<Attempt>>, place: usize)
    requires { HasLate machines.old.items place }
    ensures { IsPastLate machines.old.items machines.new.items place }
{
    if let Some(attempt) = &mut machines[place] {
        attempt.ran();
    }
}

// The attempt at this place is asked.
fn ask_at(machines: &mut Vec<Option<Attempt>>, place: usize, ask: Ask)
    requires { MayBeAsked machines.old.items place ask }
    ensures { IsAsked machines.old.items machines.new.items place ask }
{
    if let Some(attempt) = &mut machines[place] {
        attempt.ask(ask);
    }
}

// Whether an attempt that does this next is over.
fn is_over(next: Next) -> bool
    ensures { result ≡ tells_end next }
{
    matches!(next, Next::Reply(Reply::Ended(_)))
}

// Whether an attempt that does this next waits to be asked.
fn waits(next: Next) -> bool
    ensures { result ≡ tells_wait next }
{
    matches!(
        next,
        Next::Reply(Reply::Ready | Reply::Value(_) | Reply::Stopped(_)) | Next::Before { .. }
    )
}

// Whether an attempt waits to be asked, and may take the ask, over so many cells.
fn may_take(attempt: &Attempt, ask: Ask, cells: usize) -> bool
    ensures may { IsTrue result → IsAskable cells attempt.now.attempt ask }
    ensures told { IsAskable cells attempt.now.attempt ask → IsTrue result }
{
    let next = attempt.next();
    waits(next) && takes(attempt, next, ask, cells)
}

// Whether an attempt that waits with this reply may take the ask, over so many cells.
#[tactic(auto, unfolding(crate::specs::Places::TakesAsk))]
fn takes(attempt: &Attempt, next: Next, ask: Ask, cells: usize) -> bool
    ensures may { IsTrue result → TakesAsk cells attempt.now.attempt next ask }
    ensures told { TakesAsk cells attempt.now.attempt next ask → IsTrue result }
{
    match ask {
        Ask::Get(addr) | Ask::Set(addr, _) => (addr.0 as usize) < cells,
        Ask::Enter | Ask::Hook(..) | Ask::Later(_) => true,
        Ask::Keep | Ask::Undo => attempt.depth() > 0,
        Ask::Finish => !attempt.is_late(),
        Ask::Abandon(cause) => is_of_body(cause) || was_refused(next, cause),
    }
}

// Whether an attempt that waits with this reply was refused with the cause.
fn was_refused(next: Next, cause: Cause) -> bool
    ensures may { IsTrue result → next ≡ coming.Reply (reply.Stopped cause) }
    ensures told { next ≡ coming.Reply (reply.Stopped cause) → IsTrue result }
{
    match next {
        Next::Reply(Reply::Stopped(refused)) => refused.is_same(cause),
        _ => false,
    }
}
