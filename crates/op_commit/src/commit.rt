//! The commit of a writer: its status is exchanged and each cell marked, what it read is validated at a clock,
//! and the exchange of that clock is the decision. Then the values are stored and the cells released. It stops
//! where handlers are to be run.
ghost use Rattle.std.specs.Prelude.{◌≡◌, ◌<◌, ◌≤◌, ◌+◌, ◌-◌, ◌*◌, [], ℕ, List, Option, IsNone, IsSome, None, drop, length};
ghost use Rattle.meta_word.specs.Meta.{meta_word};
ghost use Rattle.meta_word.specs.Status.{status_word};
ghost use Rattle.meta_word.specs.declared.meta.TheConstants.{MAX_VERSION};
ghost use Rattle.meta_word.specs.declared.status.TheConstants.{MAX_SERIAL};
ghost use Rattle.meta_word.specs.declared.status.Phase.TheVariants.{Preparing};
ghost use Rattle.stm_model.specs.declared.access.Access.TheVariants.{Exchange};
ghost use Rattle.stm_model.specs.declared.access.Word.TheVariants.{Status};
ghost use Rattle.stm_model.specs.declared.note.Note.{Note};
ghost use Rattle.stm_model.specs.Accesses.{active, next_access, released};
ghost use Rattle.stm_model.specs.After.{after_word, at, validate_on, decided, mark_on, prepared, release_on, store_on};
ghost use Rattle.stm_model.specs.Attempt.{Attempt, Prepare};
ghost use Rattle.op_commit.specs.Commit.{ClockFits, IsAlong, IsCommitting, IsInPlace, IsStop, accesses_left, committing, committing_at, due_at, due_by, end_at, end_of_commit, in_preparation, left_at, notes_to_commit, rounds, stamped};
ghost use Rattle.op_commit.specs.CommitParts.{ComesTo};
ghost use Rattle.op_commit.specs.Buffered.{ring_for};
ghost use Rattle.op_commit.specs.declared.commit.CommitEnd.TheVariants.{Bad};
ghost use Rattle.stm_model.specs.declared.cause.Addr.{Addr};
ghost use Rattle.op_commit.specs.declared.commit.CommitPlace.TheVariants as at_commit;

use crate::rings::cell_to_ring;
use meta_word::{CHANGING_BIT, Phase, pack_meta, pack_status, unpack_meta, unpack_status};
use stm_model::{Access, Addr, Cause, Meta, Notes, TxnStatus, Word};

/// How a commit ended, or where it stops.
#[derive(Clone, Copy, Debug, PartialEq, Eq)]
pub enum CommitEnd {
    /// A stop: while-preparing handlers run.
    Prepared,
    /// A stop: the commit is decided, and while-committing handlers run.
    Decided { stamp: u64 },
    Stamp(u64),
    /// The attempt is to be rolled back, at this prefix where there is a new one.
    Bad { cause: Cause, prefix: Option<u64> },
}

/// Where a commit stands. The clock was lost so many times, and was loaded last as `clock`.
#[derive(Clone, Copy)]
pub enum CommitPlace {
    Prepare,
    Mark { index: usize },
    CommitClock { lost: u16 },
    CommitNote { lost: u16, clock: u64, index: usize },
    Decide { lost: u16, clock: u64 },
    StoreValues { stamp: u64, index: usize },
    Release { stamp: u64, index: usize },
    Close { stamp: u64 },
    Ended(CommitEnd),
}

/// The commit of an attempt that has written.
#[derive(Clone, Copy)]
pub struct CommitOp {
    /// The number of the caller, and of its attempt.
    pub own: u16,
    pub serial: u64,
    /// How many times more it tries for the clock after that was lost.
    pub tries: u16,
    /// The last value that the clock may have.
    pub limit: u64,
    /// How many of the notes are buffered cells. They come first.
    pub writes: usize,
    /// The cell whose pending bit the last access found.
    pub rung: Option<Addr>,
    pub place: CommitPlace,
}

impl CommitOp {
    /// A commit that has made no access.
    #[inline(always)]
    pub fn new(own: u16, serial: u64, tries: u16, limit: u64, writes: usize) -> CommitOp
        requires serial { serial ≤ MAX_SERIAL }
        requires limit { limit ≤ MAX_VERSION }
        ensures begins { (t : Attempt) → committing result t ≡ at t Prepare }
        ensures going { end_of_commit result ≡ None }
        ensures for_attempt { (t : Attempt) → t.own ≡ own → t.serial ≡ serial → t.settings.tries ≡ tries → t.settings.clock ≡ limit →
            length t.now.writes ≡ writes → IsCommitting result t }
        ensures along { (notes : List Note) → writes ≤ length notes → IsAlong result notes }
        ensures bound { (reads : ℕ) → accesses_left result reads ≤ 3 * writes + (tries + 1) * (reads + 2) + 2 }
    {
        CommitOp {
            own,
            serial,
            tries,
            limit,
            writes,
            rung: None,
            place: CommitPlace::Prepare,
        }
    }

    /// The next access, and none at a stop and once the commit has ended.
    #[inline(always)]
    #[tactic(auto, unfolding(stm_model::specs::Accesses::next_at, stm_model::specs::Accesses::access_of))]
    pub fn next<N: Notes>(&self, notes: &N) -> Option<Access>
        requires { IsAlong self.now (N.notes notes.now) }
        ensures access { IsNone (end_of_commit self.now) → (t : Attempt) → t.due ≡ [] → IsCommitting self.now t → N.notes notes.now ≡ notes_to_commit t →
            result ≡ next_access (committing self.now t) }
        ensures end { IsSome (end_of_commit self.now) → result ≡ None }
    {
        match self.place {
            CommitPlace::Prepare => Some(self.status_exchange()),
            CommitPlace::Mark { index } => Some(Access::SetBits(
                Word::Meta(notes.at(index).addr),
                CHANGING_BIT,
            )),
            CommitPlace::CommitClock { .. } => Some(Access::Load(Word::Clock)),
            CommitPlace::CommitNote { index, .. } => {
                Some(Access::Load(Word::Meta(notes.at(index).addr)))
            }
            CommitPlace::Decide { clock, .. } => Some(Access::Exchange {
                word: Word::Clock,
                old: clock,
                new: clock + 1,
            }),
            CommitPlace::StoreValues { index, .. } => {
                let note = notes.at(index);
                Some(Access::Store(Word::Value(note.addr), note.value))
            }
            CommitPlace::Release { stamp, index } => Some(Access::Swap(
                Word::Meta(notes.at(index).addr),
                released_word(stamp),
            )),
            CommitPlace::Close { .. } => Some(Access::Store(
                Word::Status(self.own),
                self.status_as(Phase::Idle),
            )),
            CommitPlace::Ended(_) => None,
        }
    }

    // The exchange of the own status from active to preparing.
    #[inline(always)]
    fn status_exchange(&self) -> Access
        requires { self.now.serial ≤ MAX_SERIAL }
        ensures { result ≡ Exchange (Status self.now.own) (status_word (active self.now.serial)) (status_word (record { serial = self.now.serial; phase = Preparing })) }
    {
        Access::Exchange {
            word: Word::Status(self.own),
            old: self.status_as(Phase::Active),
            new: self.status_as(Phase::Preparing),
        }
    }

    // The attempt's status word in this phase.
    #[inline(always)]
    fn status_as(&self, phase: Phase) -> u64
        requires { self.now.serial ≤ MAX_SERIAL }
        ensures { result ≡ status_word (record { serial = self.now.serial; phase = phase }) }
    {
        pack_status(TxnStatus {
            serial: self.serial,
            phase,
        })
    }

    /// Takes the word that the access found.
    #[inline(always)]
    #[tactic(auto, unfolding(stm_model::specs::After::after_at, stm_model::specs::After::final_runs, stm_model::specs::Accesses::next_at, stm_model::specs::Accesses::answer_of))]
    pub fn take<N: Notes>(&mut self, notes: &N, answer: u64)
        requires along { IsAlong self.old (N.notes notes.now) }
        requires going { IsNone (end_of_commit self.old) }
        requires clock { ClockFits self.old.place self.old.limit answer }
        ensures along { IsAlong self.new (N.notes notes.now) }
        ensures after { (t : Attempt) → t.due ≡ [] → IsCommitting self.old t → N.notes notes.now ≡ notes_to_commit t →
            after_word (committing self.old t) answer ≡ committing self.new (record t { due = due_by self.new t }) }
        ensures same { (t : Attempt) → IsCommitting self.old t → IsCommitting self.new t }
        ensures falls { (reads : ℕ) → length (N.notes notes.now) ≡ self.old.writes + reads → accesses_left self.new reads < accesses_left self.old reads }
    {
        let count = notes.len();
        self.rung = None;
        match self.place {
            CommitPlace::Prepare => self.place = self.after_prepare(unpack_status(answer)),
            CommitPlace::Mark { index } => self.place = self.mark_from(index + 1),
            CommitPlace::CommitClock { lost } => {
                self.place = self.validate_from(lost, answer, self.writes, count);
            }
            CommitPlace::CommitNote { lost, clock, index } => {
                let note = notes.at(index);
                let found = unpack_meta(answer);
                if found.still_has(self.own, note.version) {
                    self.place = self.validate_from(lost, clock, index + 1, count);
                } else {
                    self.place = refused(note.stale(found));
                }
            }
            CommitPlace::Decide { lost, clock } => self.place = self.after_decide(
                lost, clock, answer,
            ),
            CommitPlace::StoreValues { stamp, index } => self.place = self.store_from(
                stamp,
                index + 1,
            ),
            CommitPlace::Release { stamp, index } => {
                self.rung = cell_to_ring(unpack_meta(answer), notes.at(index).addr);
                self.place = self.release_from(stamp, index + 1);
            }
            CommitPlace::Close { stamp } => self.place = CommitPlace::Ended(CommitEnd::Stamp(
                stamp,
            )),
            CommitPlace::Ended(_) => {}
        }
    }

    // The exchange of its status found this.
    #[inline(always)]
    #[tactic(auto, unfolding(stm_model::specs::After::prepared))]
    fn after_prepare(&self, found: TxnStatus) -> CommitPlace
        ensures shows { (t : Attempt) → t.due ≡ [] → IsCommitting self.now t →
            prepared t found ≡ committing_at result self.now.writes (record t { due = due_at result None t }) }
        ensures in_place { (count : ℕ) → IsInPlace result self.now.writes self.now.limit count }
        ensures left { (reads : ℕ) → left_at result self.now.writes self.now.tries reads ≤ self.now.writes + rounds (self.now.tries + 1) self.now.writes reads }
    {
        if found.serial == self.serial && found.phase == Phase::Active {
            CommitPlace::Ended(CommitEnd::Prepared)
        } else {
            refused(Cause::Doomed { status: found })
        }
    }

    // The cells before this index are marked.
    #[inline(always)]
    fn mark_from(&self, index: usize) -> CommitPlace
        requires { index ≤ self.now.writes }
        ensures comes { ComesTo self.now result (λ t. mark_on (in_preparation t) (drop index t.now.writes)) }
        ensures going { IsNone (end_at result) }
        ensures in_place { (count : ℕ) → IsInPlace result self.now.writes self.now.limit count }
        ensures left { (reads : ℕ) → left_at result self.now.writes self.now.tries reads ≡ left_at (at_commit.Mark index) self.now.writes self.now.tries reads }
    {
        if index < self.writes {
            CommitPlace::Mark { index }
        } else {
            CommitPlace::CommitClock { lost: 0 }
        }
    }

    // Of so many notes, those before this index hold good at the clock.
    #[inline(always)]
    #[tactic(auto, unfolding(stm_model::specs::After::validate_on))]
    fn validate_from(&self, lost: u16, clock: u64, index: usize, count: usize) -> CommitPlace
        requires behind { self.now.writes ≤ index }
        requires within { index ≤ count }
        requires clock { clock ≤ self.now.limit }
        ensures shows { (t : Attempt) → IsCommitting self.now t → count ≡ self.now.writes + length t.notes →
            validate_on (in_preparation t) lost clock (drop (index - self.now.writes) t.notes) ≡ committing_at result self.now.writes t }
        ensures due { (t : Attempt) → due_at result None t ≡ [] }
        ensures in_place { IsInPlace result self.now.writes self.now.limit count }
        ensures left { (reads : ℕ) → count ≡ self.now.writes + reads →
            left_at result self.now.writes self.now.tries reads ≤ left_at (at_commit.CommitNote lost clock index) self.now.writes self.now.tries reads }
    {
        if index < count {
            CommitPlace::CommitNote { lost, clock, index }
        } else if clock == self.limit {
            CommitPlace::Ended(CommitEnd::Bad {
                cause: Cause::ClockEnd { clock },
                prefix: Some(clock),
            })
        } else {
            CommitPlace::Decide { lost, clock }
        }
    }

    // The exchange of the clock found this.
    #[inline(always)]
    #[tactic(auto, unfolding(stm_model::specs::After::decided))]
    fn after_decide(&self, lost: u16, clock: u64, found: u64) -> CommitPlace
        requires { clock < self.now.limit }
        ensures shows { (t : Attempt) → t.due ≡ [] → IsCommitting self.now t →
            decided (in_preparation t) lost clock found ≡ committing_at result self.now.writes (record t { due = due_at result None t }) }
        ensures in_place { (count : ℕ) → IsInPlace result self.now.writes self.now.limit count }
        ensures left { (reads : ℕ) → left_at result self.now.writes self.now.tries reads ≤ rounds (self.now.tries - lost) self.now.writes reads }
    {
        if found == clock {
            CommitPlace::Ended(CommitEnd::Decided { stamp: clock + 1 })
        } else if lost < self.tries {
            CommitPlace::CommitClock { lost: lost + 1 }
        } else {
            refused(Cause::ClockMoved {
                first: clock,
                second: found,
            })
        }
    }

    // The values before this index are stored.
    #[inline(always)]
    fn store_from(&self, stamp: u64, index: usize) -> CommitPlace
        requires { index ≤ self.now.writes }
        ensures comes { ComesTo self.now result (λ t. store_on (stamped t stamp) (drop index t.now.writes)) }
        ensures going { IsNone (end_at result) }
        ensures in_place { stamp ≤ self.now.limit → (count : ℕ) → IsInPlace result self.now.writes self.now.limit count }
        ensures left { (reads : ℕ) → left_at result self.now.writes self.now.tries reads ≡ left_at (at_commit.StoreValues stamp index) self.now.writes self.now.tries reads }
    {
        if index < self.writes {
            CommitPlace::StoreValues { stamp, index }
        } else {
            self.release_from(stamp, 0)
        }
    }

    // The cells before this index are released.
    #[inline(always)]
    fn release_from(&self, stamp: u64, index: usize) -> CommitPlace
        requires { index ≤ self.now.writes }
        ensures comes { ComesTo self.now result (λ t. release_on (stamped t stamp) (drop index t.now.writes)) }
        ensures going { IsNone (end_at result) }
        ensures in_place { stamp ≤ self.now.limit → (count : ℕ) → IsInPlace result self.now.writes self.now.limit count }
        ensures left { (reads : ℕ) → left_at result self.now.writes self.now.tries reads ≡ left_at (at_commit.Release stamp index) self.now.writes self.now.tries reads }
    {
        if index < self.writes {
            CommitPlace::Release { stamp, index }
        } else {
            CommitPlace::Close { stamp }
        }
    }

    /// Goes on after the handlers of a stop have run.
    #[inline(always)]
    pub fn resume(&mut self)
        requires stop { IsStop self.old.place }
        ensures shows { (t : Attempt) → IsCommitting self.old t → committing self.new t ≡ committing self.old t }
        ensures going { IsNone (end_of_commit self.new) }
        ensures rings { self.new.rung ≡ self.old.rung }
        ensures same { (t : Attempt) → IsCommitting self.old t → IsCommitting self.new t }
        ensures along { (notes : List Note) → IsAlong self.old notes → IsAlong self.new notes }
        ensures left { (reads : ℕ) → accesses_left self.new reads ≡ accesses_left self.old reads }
    {
        if let CommitPlace::Ended(CommitEnd::Prepared) = self.place {
            self.place = self.mark_from(0);
        } else if let CommitPlace::Ended(CommitEnd::Decided { stamp }) = self.place {
            self.place = self.store_from(stamp, 0);
        }
    }

    /// The cell whose pending bit the last access found.
    #[inline(always)]
    pub fn rings(&self) -> Option<Addr>
        ensures { result ≡ self.now.rung }
    {
        self.rung
    }

    /// How the commit ended, once it has, and where it stops.
    #[inline(always)]
    pub fn end(&self) -> Option<CommitEnd>
        ensures { result ≡ end_of_commit self.now }
    {
        match self.place {
            CommitPlace::Ended(end) => Some(end),
            _ => None,
        }
    }
}

// The attempt is to be rolled back at the prefix that it has.
#[inline(always)]
fn refused(cause: Cause) -> CommitPlace
    ensures { result ≡ at_commit.Ended (Bad cause None) }
{
    CommitPlace::Ended(CommitEnd::Bad {
        cause,
        prefix: None,
    })
}

// The word of a cell of this version that nobody owns or waits for.
#[inline(always)]
fn released_word(version: u64) -> u64
    requires { version ≤ MAX_VERSION }
    ensures { result ≡ meta_word (released version) }
{
    pack_meta(Meta {
        changing: false,
        pending: false,
        owner: 0,
        version,
    })
}
