//! The shared words of a transactional memory: how they are made, stepped on, and closed.
ghost use Rattle.std.specs.Prelude.{◌≡◌, ◌+◌, ◌*◌, ◌<◌, ◌≤◌, ◌↔◌, ℕ, [], IfErr, IfOk, IsErrOf, IsTrue, length};
ghost use Rattle.opacity.specs.Words.{IsOfTable};
ghost use Rattle.ref_table.specs.Calls.{IsOpened};
ghost use Rattle.ref_table.specs.Keyed.{AllowsAccess, ConfirmsIn, KeepsIn, LearnsIn};
ghost use Rattle.ref_table.specs.Knowledge.{Caller};
ghost use Rattle.ref_table.specs.Parts.{number_of};
ghost use Rattle.ref_table.specs.Limits.{TableFits};
ghost use Rattle.ref_table.specs.Seats.{terms_in};
ghost use Rattle.ref_table.specs.declared.stm.MakeFault.TheVariants.{BadLayout};
ghost use Rattle.stm_model.specs.Accesses.{word_of};
ghost use Rattle.stm_model.specs.History.{state};

use crate::maker::Maker;
use crate::place::place_of;
use crate::rule::{Does, Held, Key, StmRule, Told};
use atomic_table::Table;
use meta_word::{MAX_OWNER, MAX_SERIAL, MAX_VERSION};
use opacity::opening_words;
use std::alloc::{AllocError, Global};
use std::marker::{Brand, Model, PhantomData};
use std::snapshot::Snapshot;
use stm_model::{Access, Free, Law, MOST_CELLS, Memory, Settings, Word, Words};

/// The most looks that a policy may grant after the first, and the most tries of a commit.
const MOST_TRIES: u16 = 1000;

/// Why a table isn't made.
#[derive(Clone, Copy, Debug, PartialEq, Eq)]
pub enum MakeFault {
    /// A number of cells or a setting isn't within its limits.
    BadLayout,
    /// Out of memory.
    Memory,
}

impl From<Memory> for MakeFault {
    ghost use Rattle.ref_table.specs.declared.stm.MakeFault.TheVariants as fault;

    ghost from_gives = { λ _ e. e ≡ fault.Memory };

    fn from(_memory: Memory) -> MakeFault {
        MakeFault::Memory
    }
}

impl From<AllocError> for MakeFault {
    ghost use Rattle.ref_table.specs.declared.stm.MakeFault.TheVariants as fault;

    ghost from_gives = { λ _ e. e ≡ fault.Memory };

    fn from(_error: AllocError) -> MakeFault {
        MakeFault::Memory
    }
}

/// The shared words. Threads share it by reference, and step on it by seats.
#[derive(Drop)]
pub struct Stm<L: Law> {
    pub(crate) table: Table<(), Held, Key<L>, StmRule<L>, Global>,
    settings: Settings,
    cells: u32,
    alloc: Global,
}

impl<L: Law> Model for Stm<L> {
    ghost use Rattle.ref_table.specs.Seats.{StmState};

    ghost Value = { StmState L };

    ghost use Rattle.ref_table.specs.Keyed.{HoldsTable, stm_of};

    ghost view = { λ stm. stm_of stm.table.shared.table_id stm.table.shared.key };

    ghost invariant = { λ stm. HoldsTable stm.table.shared.table_id stm.table.shared.key stm.settings stm.cells };
}

/// What is left of a table.
#[derive(Debug, Drop)]
pub struct Finished {
    /// How many writers have committed.
    pub clock: u64,
    /// The last heap.
    pub values: Words,
}

/// Whether a table of so many cells may be made under these settings.
fn fits(cells: usize, settings: Settings) -> bool
    ensures { IsTrue result ↔ TableFits cells settings }
{
    let is_set = settings.callers > 0 && settings.clock > 0 && settings.attempts > 0;
    is_set
        && cells <= MOST_CELLS as usize
        && settings.callers <= MAX_OWNER
        && settings.tries <= MOST_TRIES
        && settings.policy.looks() <= MOST_TRIES
        && settings.clock <= MAX_VERSION
        && settings.attempts <= MAX_SERIAL
}

impl Stm<Free> {
    /// A table over any heap, under the law that any heap may follow any other.
    pub fn new(
        alloc: Global,
        opening: &[u64],
        settings: Settings,
    ) -> Result<(Maker<Free>, Stm<Free>), MakeFault>
        ensures refused { IsErrOf result BadLayout ↔ ¬ TableFits (length opening.now) settings }
        ensures ok { IfOk result (λ made. IsOpened made.1.law opening.now settings made.0 made.1) }
    {
        Stm::under(alloc, Free, opening, settings)
    }
}

impl<L: Law + Drop> Stm<L> {
    /// A table over a heap that may be committed. It is refused exactly where a number of cells or a
    /// setting isn't within its limits.
    pub fn under(
        alloc: Global,
        law: L,
        opening: &[u64],
        settings: Settings,
    ) -> Result<(Maker<L>, Stm<L>), MakeFault>
        requires lawful { L.lawful law opening.now }
        ensures refused { IsErrOf result BadLayout ↔ ¬ TableFits (length opening.now) settings }
        ensures ok { IfOk result (λ made. IsOpened law opening.now settings made.0 made.1) }
    {
        if !fits(opening.len(), settings) {
            return Err(MakeFault::BadLayout);
        }
        let words = opening_words(alloc, settings.callers, opening)?;
        let heap = opening.to_vec(alloc)?;
        let key = Key {
            law: Snapshot::of(&law),
            opening: Snapshot::of(&heap),
            settings,
        };
        drop(law);
        let (table, seat) = Table::of_words(alloc, words.as_slice(), &key)?;
        let maker = Maker {
            seat,
            given: 0,
            alloc,
            of: PhantomData,
        };
        Ok((
            maker,
            Stm {
                table,
                settings,
                cells: opening.len() as u32,
                alloc,
            },
        ))
    }
}

impl<L: Law> Stm<L> {
    /// What the table is set to, which is within the limits.
    pub fn settings(&self) -> Settings
        ensures settings { result ≡ self.now.settings }
        ensures fits { TableFits (length self.now.opening) result }
    {
        self.settings
    }

    /// How many cells it has.
    pub fn cells(&self) -> u32
        ensures { result ≡ length self.now.opening }
    {
        self.cells
    }

    // One access of a seat, which tells what is picked. What is shown is for the pick alone.
    #[inline(always)]
    #[tactic(auto, unfolding(stm_model::specs::Accesses::word_of))]
    pub(crate) fn step<J: Told, V>(
        &self,
        seat: &mut atomic_table::Seat<(), Held>,
        access: Access,
        shown: &V,
    ) -> u64
        requires own { seat.old.table_id ≡ self.now.table }
        requires word { IsOfTable (terms_in self.now) (word_of access) }
        requires allows { AllowsAccess (KeepsIn L.lawful L.may self.now) self.now.settings.callers seat.old.id seat.old.me access J.told }
        ensures same { (seat.new.table_id ≡ seat.old.table_id) × (seat.new.me.1 ≡ seat.old.me.1) }
        ensures told { J.told result seat.old.me.0 seat.new.me.0 }
    {
        let _ = shown;
        let callers = self.settings.callers;
        let shared = &self.table.shared;
        match access {
            Access::Load(word) => {
                let at = place_of(callers, word);
                shared.load::<Does<J>>(seat, at)
            }
            Access::Store(word, new) => {
                let at = place_of(callers, word);
                shared.store::<Does<J>>(seat, at, new);
                new
            }
            Access::Swap(word, new) => {
                let at = place_of(callers, word);
                shared.swap::<Does<J>>(seat, at, new)
            }
            Access::Exchange { word, old, new } => {
                let at = place_of(callers, word);
                shared.compare_exchange::<Does<J>>(seat, at, old, new)
            }
            Access::SetBits(word, mask) => {
                let at = place_of(callers, word);
                shared.fetch_or::<Does<J>>(seat, at, mask)
            }
            Access::ClearBits(word, mask) => {
                let at = place_of(callers, word);
                shared.fetch_and::<Does<J>>(seat, at, !mask)
            }
        }
    }

    // A load of the clock, which leaves what a seat knows and confirms what it may rely on.
    pub(crate) fn confirm(&self, seat: &mut atomic_table::Seat<(), Held>)
        requires own { seat.old.table_id ≡ self.now.table }
        ensures same { (seat.new.table_id ≡ seat.old.table_id) × (seat.new.me ≡ seat.old.me) }
        ensures confirms { ConfirmsIn L.lawful L.may self.now self.now.table seat.new.me.0 }
    {
        self.step::<Brand, ()>(seat, Access::Load(Word::Clock), &());
    }

    // A load of the clock, by which a caller learns what was joined to its seat.
    pub(crate) fn learn(&self, seat: &mut atomic_table::Seat<(), Held>)
        requires own { seat.old.table_id ≡ self.now.table }
        requires whose { seat.old.me.0.whose ≡ Caller (number_of seat.old.me.0.whose) }
        ensures same { (seat.new.table_id ≡ seat.old.table_id) × (seat.new.me.1 ≡ seat.old.me.1) }
        ensures learns { LearnsIn L.lawful L.may self.now (number_of seat.old.me.0.whose) seat.old.me.0 seat.new.me.0 }
    {
        self.step::<Brand, ()>(seat, Access::Load(Word::Clock), &());
    }

    /// What stands in the table at the end, once the maker has gathered all seats. Where memory is out, the
    /// table and the maker come back.
    pub fn close(self, maker: Maker<L>) -> Result<Finished, (Stm<L>, Maker<L>)>
        requires own { maker.table ≡ self.table }
        requires all { length maker.gathered ≡ maker.given }
        ensures clock { IfOk result (λ finished. finished.clock ≡ length maker.seen) }
        ensures values { IfOk result (λ finished. finished.values ≡ state self.opening maker.seen (length maker.seen)) }
        ensures err { IfErr result (λ both. (both.0 ≡ self) × (both.1 ≡ maker)) }
    {
        let first = self.settings.callers as usize + 2;
        let cells = self.cells as usize;
        let Ok(mut values) = Vec::with_capacity(self.alloc, cells) else {
            return Err((self, maker));
        };
        let Stm {
            table,
            settings: _,
            cells: _,
            alloc: _,
        } = self;
        let closed = table.close_with(maker.into_base());
        let clock = closed.word(0);
        for cell in 0..cells {
            values.push_reserved(closed.word(first + 2 * cell));
        }
        closed.free();
        Ok(Finished {
            clock,
            values: Words::from(values),
        })
    }
}
