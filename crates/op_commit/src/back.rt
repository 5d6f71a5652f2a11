//! The release of a level's cells, and the rollback of an attempt: the owner's bits of one cell after another
//! are cleared, the first ones first. A rollback then stores that the attempt is over.
ghost use Rattle.std.specs.Prelude.{◌≡◌, ◌<◌, ◌≤◌, ◌+◌, [], ◌∷◌, ℕ, true, false, List, Option, IsNone, IsSome, None, drop, length};
ghost use Rattle.meta_word.specs.declared.status.TheConstants.{MAX_SERIAL};
ghost use Rattle.stm_model.specs.declared.cause.Addr.{Addr};
ghost use Rattle.stm_model.specs.declared.note.Note.{Note};
ghost use Rattle.stm_model.specs.Accesses.{next_access};
ghost use Rattle.stm_model.specs.After.{after_word, roll_on};
ghost use Rattle.stm_model.specs.Attempt.{Attempt};
ghost use Rattle.stm_model.specs.CellsState.{Book};
ghost use Rattle.stm_model.specs.Moves.{undo_level};
ghost use Rattle.op_commit.specs.Back.{IsAlong, IsBacking, IsInPlace, accesses_left, backing, backing_at, due_at, due_by, end_of_back, left_at};
ghost use Rattle.op_commit.specs.Buffered.{buffered, ring_for};
ghost use Rattle.op_commit.specs.declared.back.BackPlace.TheVariants as at_back;

use crate::rings::cell_to_ring;
use meta_word::{OWNER_AND_CHANGING_BITS, Phase, pack_status, unpack_meta};
use stm_model::{Access, Addr, Notes, TxnStatus, Word};

/// How it ended.
#[derive(Clone, Copy, Debug, PartialEq, Eq)]
pub enum BackEnd {
    Back,
}

/// Where it stands.
#[derive(Clone, Copy)]
pub enum BackPlace {
    /// The cell of this index is next, and behind the last one the status.
    Cell { index: usize },
    Ended(BackEnd),
}

/// The release of a level, or the rollback of an attempt, over buffered cells.
#[derive(Clone, Copy)]
pub struct BackOp {
    /// The number of the caller, and of its attempt.
    pub own: u16,
    pub serial: u64,
    /// It is a rollback: the attempt is over with it.
    pub whole: bool,
    /// The cell whose pending bit the last access found.
    pub rung: Option<Addr>,
    pub place: BackPlace,
}

impl BackOp {
    /// It has made no access. The cells before `first` stay owned; where it is `whole`, it is a rollback.
    pub fn new(own: u16, serial: u64, first: usize, whole: bool) -> BackOp
        requires { serial ≤ MAX_SERIAL }
        ensures undoes { whole ≡ false → (t : Attempt) (former : Book) (books : List Book) → t.saved ≡ former ∷ books → length former.writes ≡ first →
            backing result t ≡ undo_level t t.saved }
        ensures rolls { whole ≡ true → (t : Attempt) → backing result t ≡ roll_on t (drop first t.now.writes) }
        ensures going { end_of_back result ≡ None }
        ensures whole { result.whole ≡ whole }
        ensures for_attempt { (t : Attempt) → t.own ≡ own → t.serial ≡ serial → IsBacking result t }
        ensures along { (notes : List Note) → first < length notes → IsAlong result notes }
        ensures to_the_end { whole ≡ true → (notes : List Note) → first ≤ length notes → IsAlong result notes }
        ensures bound { (writes : ℕ) → accesses_left result writes ≤ writes + 1 }
    {
        BackOp {
            own,
            serial,
            whole,
            rung: None,
            place: BackPlace::Cell { index: first },
        }
    }

    /// The next access, and none once it has ended.
    #[tactic(auto, unfolding(stm_model::specs::Accesses::next_at, stm_model::specs::Accesses::access_of))]
    pub fn next<N: Notes>(&self, notes: &N) -> Option<Access>
        requires { IsAlong self.now (N.notes notes.now) }
        ensures access { IsNone (end_of_back self.now) → (t : Attempt) → t.due ≡ [] → IsBacking self.now t → N.notes notes.now ≡ buffered t.now.writes →
            result ≡ next_access (backing self.now t) }
        ensures end { IsSome (end_of_back self.now) → result ≡ None }
    {
        match self.place {
            BackPlace::Cell { index } if index < notes.len() => Some(Access::ClearBits(
                Word::Meta(notes.at(index).addr),
                OWNER_AND_CHANGING_BITS,
            )),
            BackPlace::Cell { .. } => Some(Access::Store(
                Word::Status(self.own),
                pack_status(TxnStatus {
                    serial: self.serial,
                    phase: Phase::Idle,
                }),
            )),
            BackPlace::Ended(_) => None,
        }
    }

    /// Takes the word that the access found.
    #[tactic(auto, unfolding(stm_model::specs::After::after_at, stm_model::specs::Accesses::next_at, stm_model::specs::Accesses::answer_of))]
    pub fn take<N: Notes>(&mut self, notes: &N, answer: u64)
        requires along { IsAlong self.old (N.notes notes.now) }
        requires going { IsNone (end_of_back self.old) }
        ensures along { IsAlong self.new (N.notes notes.now) }
        ensures after { (t : Attempt) → t.due ≡ [] → IsBacking self.old t → N.notes notes.now ≡ buffered t.now.writes →
            after_word (backing self.old t) answer ≡ backing self.new (record t { due = due_by self.new t }) }
        ensures same { (t : Attempt) → IsBacking self.old t → IsBacking self.new t }
        ensures whole { self.new.whole ≡ self.old.whole }
        ensures falls { accesses_left self.new (length (N.notes notes.now)) < accesses_left self.old (length (N.notes notes.now)) }
    {
        let count = notes.len();
        match self.place {
            BackPlace::Cell { index } if index < count => {
                self.rung = cell_to_ring(unpack_meta(answer), notes.at(index).addr);
                self.place = self.release_from(index + 1, count);
            }
            BackPlace::Cell { .. } => {
                self.rung = None;
                self.place = BackPlace::Ended(BackEnd::Back);
            }
            BackPlace::Ended(_) => {}
        }
    }

    // Of so many cells, those before this index are released.
    fn release_from(&self, index: usize, count: usize) -> BackPlace
        requires { index ≤ count }
        ensures shows { (t : Attempt) → length t.now.writes ≡ count →
            backing_at (at_back.Cell index) self.now.whole t ≡ backing_at result self.now.whole t }
        ensures due { (t : Attempt) (rung : Option Addr) → due_at result self.now.whole rung t ≡ ring_for rung }
        ensures in_place { (notes : List Note) → length notes ≡ count → IsInPlace result self.now.whole notes }
        ensures left { left_at result self.now.whole count ≡ left_at (at_back.Cell index) self.now.whole count }
    {
        if index < count || self.whole {
            BackPlace::Cell { index }
        } else {
            BackPlace::Ended(BackEnd::Back)
        }
    }

    /// The cell whose pending bit the last access found.
    pub fn rings(&self) -> Option<Addr>
        ensures { result ≡ self.now.rung }
    {
        self.rung
    }

    /// How it ended, once it has.
    pub fn end(&self) -> Option<BackEnd>
        ensures { result ≡ end_of_back self.now }
    {
        match self.place {
            BackPlace::Ended(end) => Some(end),
            BackPlace::Cell { .. } => None,
        }
    }
}
