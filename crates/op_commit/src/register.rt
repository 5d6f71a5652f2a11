//! The wait for a change of what was read: the pending bit is set on each noted cell, until one shows
//! that it has changed or is about to.
ghost use Rattle.std.specs.Prelude.{◌≡◌, ◌<◌, ◌≤◌, ◌+◌, ◌-◌, ℕ, List, IsNone, drop, length};
ghost use Rattle.stm_model.specs.declared.note.Note.{Note};
ghost use Rattle.stm_model.specs.Accesses.{packed};
ghost use Rattle.stm_model.specs.Waiting.{next_wait, watch};
ghost use Rattle.op_commit.specs.Register.{IsAlong, accesses_left, end_of_register, registering};
ghost use Rattle.op_commit.specs.Waits.{wait_word};

use meta_word::{PENDING_BIT, unpack_meta};
use stm_model::{Access, Addr, Meta, Note, Notes, Word};

/// How the round over the notes ended.
#[derive(Clone, Copy, Debug, PartialEq, Eq)]
pub enum WatchEnd {
    /// Nothing has changed, and the caller is rung for once something does.
    Watching,
    /// The cell had another version before, or is about to change.
    Changed { addr: Addr, before: u64, meta: Meta },
}

/// Where it stands.
#[derive(Clone, Copy)]
pub enum RegisterPlace {
    /// The note of this index is next.
    Note { index: usize },
    Watching,
    Changed { note: Note, meta: Meta },
}

/// The round over the notes of what was read. There is a note at least.
#[derive(Clone, Copy)]
pub struct RegisterOp {
    /// The number of the caller that waits.
    pub own: u16,
    pub place: RegisterPlace,
}

impl RegisterOp {
    /// A round that has made no access.
    pub fn new(own: u16) -> RegisterOp
        ensures begins { (notes : List Note) → registering result notes ≡ watch notes }
        ensures own { result.own ≡ own }
        ensures along { (notes : List Note) → 0 < length notes → IsAlong result notes }
        ensures bound { (reads : ℕ) → accesses_left result reads ≤ reads }
    {
        RegisterOp {
            own,
            place: RegisterPlace::Note { index: 0 },
        }
    }

    /// The next access, and none once the round has ended.
    #[tactic(auto, unfolding(stm_model::specs::Waiting::next_wait, stm_model::specs::Accesses::access_of))]
    pub fn next<N: Notes>(&self, notes: &N) -> Option<Access>
        requires { IsAlong self.now (N.notes notes.now) }
        ensures { result ≡ packed (next_wait (registering self.now (N.notes notes.now))) }
    {
        match self.place {
            RegisterPlace::Note { index } => Some(Access::SetBits(
                Word::Meta(notes.at(index).addr),
                PENDING_BIT,
            )),
            RegisterPlace::Watching | RegisterPlace::Changed { .. } => None,
        }
    }

    /// Takes the word that the access found.
    #[tactic(auto, unfolding(stm_model::specs::Waiting::next_wait, stm_model::specs::Waiting::after_wait, stm_model::specs::Accesses::answer_of))]
    pub fn take<N: Notes>(&mut self, notes: &N, answer: u64)
        requires along { IsAlong self.old (N.notes notes.now) }
        requires going { IsNone (end_of_register self.old) }
        ensures after { wait_word self.old.own (registering self.old (N.notes notes.now)) answer ≡ registering self.new (N.notes notes.now) }
        ensures own { self.new.own ≡ self.old.own }
        ensures along { IsAlong self.new (N.notes notes.now) }
        ensures falls { accesses_left self.new (length (N.notes notes.now)) < accesses_left self.old (length (N.notes notes.now)) }
    {
        let count = notes.len();
        if let RegisterPlace::Note { index } = self.place {
            let note = notes.at(index);
            let found = unpack_meta(answer);
            if found.still_has(self.own, note.version) {
                self.watch_from(index + 1, count);
            } else {
                self.place = RegisterPlace::Changed { note, meta: found };
            }
        }
    }

    // Of so many notes, those before this index still hold good.
    fn watch_from(&mut self, index: usize, count: usize)
        requires { index ≤ count }
        ensures after { (notes : List Note) → length notes ≡ count → watch (drop index notes) ≡ registering self.new notes }
        ensures own { self.new.own ≡ self.old.own }
        ensures along { (notes : List Note) → length notes ≡ count → IsAlong self.new notes }
        ensures left { accesses_left self.new count ≡ count - index }
    {
        self.place = if index < count {
            RegisterPlace::Note { index }
        } else {
            RegisterPlace::Watching
        };
    }

    /// How the round ended, once it has.
    pub fn end(&self) -> Option<WatchEnd>
        ensures { result ≡ end_of_register self.now }
    {
        match self.place {
            RegisterPlace::Note { .. } => None,
            RegisterPlace::Watching => Some(WatchEnd::Watching),
            RegisterPlace::Changed { note, meta } => Some(WatchEnd::Changed {
                addr: note.addr,
                before: note.version,
                meta,
            }),
        }
    }
}
