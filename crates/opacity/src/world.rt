//! The world as plain data.
ghost use Rattle.std.specs.Prelude.{◌≡◌, ◌+◌, ◌*◌, ◌<◌, ◌^◌, ◌≤◌, ◌≢◌, ℕ, List, [], IfOk, OnErr, OnOk, length, slice_index, vec_capacity, IsOk};
ghost use Rattle.meta_word.specs.declared.meta.TheConstants.{MAX_OWNER, MAX_VERSION};
ghost use Rattle.opacity.specs.Plain.{AreAttempts, MayDecide, IsUndecided, OpensTo, ShowsAccess, ShowsSafe, entry_by, entry_in, history_of, terms_of, writes_in};
ghost use Rattle.opacity.specs.Words.{BringsWords, IsOfTable, effect, table_after, word_found};
ghost use Rattle.stm_model.specs.Accesses.{word_of};
ghost use Rattle.opacity.specs.Facts.{AreWords-prop};
ghost use Rattle.stm_model.specs.Heap.{AreWords};
ghost use Rattle.stm_model.specs.History.{Entry};
ghost use Rattle.stm_model.specs.Safe.{Safe};
ghost use Rattle.stm_model.specs.declared.settings.Settings.{Settings};
ghost use Rattle.stm_model.specs.World.{IsCaller, View, opened, place_of, step, world_of};

use meta_word::unpack_status;
use std::alloc::Global;
use std::mem::replace;
use stm_model::{Access, Law, Memory, Note, Notes, Shown, Word};

/// A committed attempt: whose it was, its number among that caller's attempts, what it had read, and
/// the cells that it wrote with their values.
#[derive(Drop)]
pub struct Committed {
    pub caller: u16,
    pub serial: u64,
    pub reads: Vec<Note>,
    pub writes: Vec<(u32, u64)>,
}

/// The words of a world and its history, with what stays as it is. The callers' views stand in the
/// contracts alone.
#[derive(Drop)]
pub struct World<L: Law + Drop> {
    pub law: L,
    /// The heap with which it opened.
    pub opening: Vec<u64>,
    pub callers: u16,
    /// The limit of its clock.
    pub limit: u64,
    pub words: Vec<u64>,
    /// What committed, in order.
    pub history: Vec<Committed>,
    /// Room for the next entry, which `reserve` takes and `decide` uses up.
    pub spare: Committed,
    alloc: Global,
    ghost short: { length opening.items < 2 ^ 32 },
    ghost each: { AreWords words.items } by { AreWords-prop words.items },
    ghost size: { length words.items ≡ callers + 1 + 2 * length opening.items },
}

/// What an access makes of the word that it finds.
#[tactic(auto, unfolding(crate::specs::Words::effect, crate::specs::Words::BringsWords))]
fn made(access: Access, found: u64) -> u64
    ensures makes { result ≡ effect access found }
    ensures brings { BringsWords access }
{
    match access {
        Access::Load(_) => found,
        Access::Store(_, new) => new,
        Access::Swap(_, new) => new,
        Access::Exchange { old, new, .. } => { if found == old { new } else { found } }
        Access::SetBits(_, mask) => found | mask,
        Access::ClearBits(_, mask) => found & !mask,
    }
}

/// The words of a table of these values, before any access.
pub fn opening_words(alloc: Global, callers: u16, opening: &[u64]) -> Result<Vec<u64>, Memory>
    requires { length opening.now < 2 ^ 32 }
    ensures { IfOk result (λ words. OpensTo opening.now callers (length opening.now) words.items) }
{
    let first = callers as usize + 2;
    let mut words = vec![in alloc; 0u64; callers as usize + 1 + 2 * opening.len()]?;
    for i in 0..opening.len() {
        words[first + 2 * i] = opening[i];
    }
    Ok(words)
}

// An entry without anything, which takes no memory.
fn empty(alloc: Global) -> Committed {
    Committed {
        caller: 0,
        serial: 0,
        reads: Vec::new(alloc),
        writes: Vec::new(alloc),
    }
}

// The notes of an attempt, in the room of a list.
fn noted<N: Notes>(room: Vec<Note>, notes: &N) -> Result<Vec<Note>, Memory>
    ensures ok { IfOk result (λ list. list.items ≡ N.notes notes.now) }
    ensures succeeds { length (N.notes notes.now) ≤ vec_capacity room → IsOk result }
{
    let mut list = room;
    list.clear();
    for i in 0..notes.len() {
        list.push(notes.at(i))?;
    }
    Ok(list)
}

// The writes of an attempt, in the room of a list.
fn written<W: Notes>(room: Vec<(u32, u64)>, writes: &W) -> Result<Vec<(u32, u64)>, Memory>
    ensures ok { IfOk result (λ list. list.items ≡ writes_in (W.notes writes.now)) }
    ensures succeeds { length (W.notes writes.now) ≤ vec_capacity room → IsOk result }
{
    let mut list = room;
    list.clear();
    for i in 0..writes.len() {
        let write = writes.at(i);
        list.push((write.addr.0, write.value))?;
    }
    Ok(list)
}

impl<L: Law + Drop> World<L> {
    ghost use Rattle.opacity.specs.World.{Commits, HasRoom, IsFresh, KeepsHistory, KeepsTable, KeepsTerms, kept_terms};

    /// The world as it opens over a heap that may be committed.
    pub fn new(
        alloc: Global,
        law: L,
        callers: u16,
        limit: u64,
        opening: &[u64],
    ) -> Result<World<L>, Memory>
        requires size { length opening.now < 2 ^ 32 }
        requires callers { callers ≤ MAX_OWNER }
        requires limit { limit ≤ MAX_VERSION }
        requires lawful { L.lawful law opening.now }
        ensures fresh { IfOk result (λ world. IsFresh world law opening.now callers limit) }
        ensures opens { IfOk result (λ world. (settings : Settings) → (let terms = terms_of opening.now callers limit in
            world_of terms world.words.items [] (opened terms settings).view ≡ opened terms settings)) }
        ensures safe { IfOk result (λ world. (settings : Settings) → settings.clock ≡ limit → (let terms = terms_of opening.now callers limit in
            Safe (L.lawful law) (L.may law) terms (world_of terms world.words.items [] (opened terms settings).view))) }
    {
        let words = opening_words(alloc, callers, opening)?;
        let opening = opening.to_vec(alloc)?;
        Ok(World {
            law,
            opening,
            callers,
            limit,
            words,
            history: Vec::new(alloc),
            spare: empty(alloc),
            alloc,
        })
    }

    #[tactic(auto, unfolding(crate::specs::Words::IsOfTable, stm_model::specs::World::place_of))]
    fn place(&self, word: Word) -> usize
        requires { IsOfTable (kept_terms self.now) word }
        ensures place { result ≡ place_of self.now.callers word }
        ensures within { result < length self.now.words.items }
    {
        let callers = self.callers as usize;
        match word {
            Word::Clock => 0,
            Word::Status(caller) => caller as usize,
            Word::Meta(addr) => callers + 1 + 2 * addr.0 as usize,
            Word::Value(addr) => callers + 2 + 2 * addr.0 as usize,
        }
    }

    /// A word as it stands.
    pub fn word(&self, word: Word) -> u64
        requires { IsOfTable (kept_terms self.now) word }
        ensures { result ≡ slice_index self.now.words.items (place_of self.now.callers word) }
    {
        self.words[self.place(word)]
    }

    /// The clock.
    pub fn clock(&self) -> u64
        ensures { result ≡ slice_index self.now.words.items 0 }
    {
        self.words[0]
    }

    /// Makes an access to a word of the table, and gives the word that it found.
    fn access(&mut self, access: Access) -> u64
        requires { IsOfTable (kept_terms self.old) (word_of access) }
        ensures brings { BringsWords access }
        ensures found { result ≡ word_found (kept_terms self.old) self.old.words.items access }
        ensures words { self.new.words.items ≡ table_after (kept_terms self.old) self.old.words.items access }
        ensures keeps { KeepsHistory self.old self.new }
    {
        let place = self.place(access.word());
        let found = self.words[place];
        self.words[place] = made(access, found);
        found
    }

    /// Makes the access that a caller's shown attempt makes next, and gives the word that it found. What the
    /// words show afterwards, with the history and the views after the step, is the world after it, and safe.
    /// A caller that has none in flight may look at the clock, or wait for a cell.
    pub fn act<V: Shown>(&mut self, caller: u16, access: Access, attempts: &[V]) -> u64
        requires caller { IsCaller (kept_terms self.old) caller }
        requires word { IsOfTable (kept_terms self.old) (word_of access) }
        requires undecided { IsUndecided access }
        ensures found { result ≡ word_found (kept_terms self.old) self.old.words.items access }
        ensures words { self.new.words.items ≡ table_after (kept_terms self.old) self.old.words.items access }
        ensures keeps { KeepsHistory self.old self.new }
        ensures shows { (history : List Entry) (view : ℕ → View) → AreAttempts V.shows self.old.callers attempts.now view →
            Safe (L.lawful self.old.law) (L.may self.old.law) (kept_terms self.old) (world_of (kept_terms self.old) self.old.words.items history view) →
            ShowsAccess (L.lawful self.old.law) (L.may self.old.law) (kept_terms self.old) self.old.words.items self.new.words.items history view caller access }
    {
        self.access(access)
    }

    // What a caller's latest attempt leaves in the history with these notes and writes.
    #[tactic(auto, unfolding(crate::specs::Words::IsOfTable, stm_model::specs::World::place_of))]
    fn entry<N: Notes, W: Notes>(
        &self,
        spare: Committed,
        caller: u16,
        reads: &N,
        writes: &W,
    ) -> Result<Committed, Memory>
        requires { IsCaller (kept_terms self.now) caller }
        ensures succeeds { length (N.notes reads.now) ≤ vec_capacity spare.reads → length (W.notes writes.now) ≤ vec_capacity spare.writes → IsOk result }
        ensures entry { IfOk result (λ kept. entry_in kept ≡ entry_by self.now.words.items caller (N.notes reads.now) (W.notes writes.now)) }
    {
        let reads = noted(spare.reads, reads)?;
        let writes = written(spare.writes, writes)?;
        Ok(Committed {
            caller,
            serial: unpack_status(self.word(Word::Status(caller))).serial,
            reads,
            writes,
        })
    }

    /// Takes memory for the next exchange of the clock, with at most so many notes and writes.
    pub fn reserve(&mut self, reads: usize, writes: usize) -> Result<(), Memory>
        ensures room { OnOk result (HasRoom self.new reads writes) }
        ensures table { KeepsTable self.old self.new }
        ensures keeps { KeepsTerms self.old self.new }
    {
        self.spare.reads.clear();
        self.spare.writes.clear();
        self.spare.reads.reserve(reads)?;
        self.spare.writes.reserve(writes)?;
        self.history.reserve(1)?;
        Ok(())
    }

    /// Makes the exchange of the clock that a caller's shown attempt makes next, from `old`, and gives the
    /// clock that it found. Where it is won, the attempt's entry comes last in the history. What the words
    /// show afterwards, with the history and the views after the step, is the world after it, and safe.
    #[tactic(auto, unfolding(crate::specs::Words::IsOfTable, stm_model::specs::World::place_of))]
    pub fn decide<V: Shown, N: Notes, W: Notes>(
        &mut self,
        caller: u16,
        old: u64,
        attempts: &[V],
        reads: &N,
        writes: &W,
    ) -> Result<u64, Memory>
        requires caller { IsCaller (kept_terms self.old) caller }
        requires old { old < MAX_VERSION }
        ensures found { IfOk result (λ clock. clock ≡ slice_index self.old.words.items 0) }
        ensures memory { OnErr result (KeepsTable self.old self.new) }
        ensures succeeds { HasRoom self.old (length (N.notes reads.now)) (length (W.notes writes.now)) → IsOk result }
        ensures lost { slice_index self.old.words.items 0 ≢ old → KeepsTable self.old self.new }
        ensures won { OnOk result (slice_index self.old.words.items 0 ≡ old → Commits self.old self.new caller old (N.notes reads.now) (W.notes writes.now)) }
        ensures keeps { KeepsTerms self.old self.new }
        ensures shows { OnOk result ((view : ℕ → View) → AreAttempts V.shows self.old.callers attempts.now view →
            (let terms = kept_terms self.old in let history = history_of self.old.history.items in
            MayDecide (L.lawful self.old.law) (L.may self.old.law) terms self.old.words.items history view caller old (N.notes reads.now) (W.notes writes.now) →
            ShowsSafe (L.lawful self.old.law) (L.may self.old.law) terms self.new.words.items (history_of self.new.history.items) (step (world_of terms self.old.words.items history view) caller))) }
    {
        let spare = replace(&mut self.spare, empty(self.alloc));
        let entry = self.entry(spare, caller, reads, writes)?;
        let clock = self.clock();
        if clock != old {
            return Ok(clock);
        }
        self.history.push(entry)?;
        let place = self.place(Word::Clock);
        self.words[place] = old + 1;
        Ok(clock)
    }
}
