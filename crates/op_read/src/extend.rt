//! The extension of the prefix: the clock is loaded, and then each note is validated.
ghost use Rattle.std.specs.Prelude.{◌≡◌, ◌<◌, ◌≤◌, ◌+◌, [], ℕ, List, IfSome, IsNone, IsSome, None, drop, length, ◌-◌};
ghost use Rattle.meta_word.specs.declared.meta.Meta.{Meta};
ghost use Rattle.stm_model.specs.declared.note.Note.{Note};
ghost use Rattle.stm_model.specs.Accesses.{next_access};
ghost use Rattle.stm_model.specs.After.{after_word, at, extend_on};
ghost use Rattle.stm_model.specs.Attempt.{Attempt, ExtendClock};
ghost use Rattle.op_read.specs.Read.{IsLoad};
ghost use Rattle.op_read.specs.Extend.{IsAlong, IsExtending, end_of_extension, extending, accesses_left};

use meta_word::unpack_meta;
use stm_model::{Access, Cause, Notes, Word};

/// How an extension ended.
#[derive(Clone, Copy, Debug, PartialEq, Eq)]
pub enum ExtendEnd {
    /// All notes hold good at this prefix.
    Prefix(u64),
    Bad(Cause),
}

/// Where an extension stands.
#[derive(Clone, Copy)]
pub enum ExtendPlace {
    ExtendClock,
    /// It validates the note of this index, after the clock was loaded.
    ExtendNote { clock: u64, index: usize },
    Ended(ExtendEnd),
}

/// The extension of an attempt's prefix over its notes.
#[derive(Clone, Copy)]
pub struct ExtendOp {
    /// The number of the caller that reads.
    pub own: u16,
    pub place: ExtendPlace,
}

impl ExtendOp {
    /// An extension that has made no access.
    pub fn new(own: u16) -> ExtendOp
        ensures begins { (t : Attempt) (cell left : ℕ) (first : Meta) → extending result cell left first t ≡ at t (ExtendClock cell left first) }
        ensures going { end_of_extension result ≡ None }
        ensures along { (notes : List Note) → IsAlong result notes }
        ensures for_attempt { (t : Attempt) → t.own ≡ own → IsExtending result t }
        ensures bound { (reads : ℕ) → accesses_left result reads ≤ 1 + reads }
    {
        ExtendOp {
            own,
            place: ExtendPlace::ExtendClock,
        }
    }

    /// The next access, and none once the extension has ended.
    #[tactic(auto, unfolding(stm_model::specs::Accesses::next_at, stm_model::specs::Accesses::access_of))]
    pub fn next<N: Notes>(&self, notes: &N) -> Option<Access>
        requires { IsAlong self.now (N.notes notes.now) }
        ensures access { IsNone (end_of_extension self.now) → (t : Attempt) (cell left : ℕ) (first : Meta) → t.due ≡ [] → t.notes ≡ N.notes notes.now →
            result ≡ next_access (extending self.now cell left first t) }
        ensures end { IsSome (end_of_extension self.now) → result ≡ None }
        ensures loads { IfSome result IsLoad }
    {
        match self.place {
            ExtendPlace::ExtendClock => Some(Access::Load(Word::Clock)),
            ExtendPlace::ExtendNote { index, .. } => Some(Access::Load(Word::Meta(
                notes.at(index).addr,
            ))),
            ExtendPlace::Ended(_) => None,
        }
    }

    /// Takes the word that the access found.
    #[tactic(auto, unfolding(stm_model::specs::After::after_at, stm_model::specs::After::extended, stm_model::specs::Accesses::next_at, stm_model::specs::Accesses::answer_of))]
    pub fn take<N: Notes>(&mut self, notes: &N, answer: u64)
        requires along { IsAlong self.old (N.notes notes.now) }
        requires going { IsNone (end_of_extension self.old) }
        ensures along { IsAlong self.new (N.notes notes.now) }
        ensures after { (t : Attempt) (cell left : ℕ) (first : Meta) → t.due ≡ [] → t.notes ≡ N.notes notes.now → IsExtending self.old t →
            after_word (extending self.old cell left first t) answer ≡ extending self.new cell left first t }
        ensures same { (t : Attempt) → IsExtending self.old t → IsExtending self.new t }
        ensures falls { accesses_left self.new (length (N.notes notes.now)) < accesses_left self.old (length (N.notes notes.now)) }
    {
        let count = notes.len();
        match self.place {
            ExtendPlace::ExtendClock => self.validate_from(answer, 0, count),
            ExtendPlace::ExtendNote { clock, index } => {
                let note = notes.at(index);
                let found = unpack_meta(answer);
                if found.still_has(self.own, note.version) {
                    self.validate_from(clock, index + 1, count);
                } else {
                    self.place = ExtendPlace::Ended(ExtendEnd::Bad(note.stale(found)));
                }
            }
            ExtendPlace::Ended(_) => {}
        }
    }

    // Of so many notes, those before this index hold good at the clock.
    fn validate_from(&mut self, clock: u64, index: usize, count: usize)
        requires { index ≤ count }
        ensures along { (notes : List Note) → length notes ≡ count → IsAlong self.new notes }
        ensures after { (t : Attempt) (cell left : ℕ) (first : Meta) → length t.notes ≡ count →
            extend_on t cell left first clock (drop index t.notes) ≡ extending self.new cell left first t }
        ensures own { self.new.own ≡ self.old.own }
        ensures left { accesses_left self.new count ≡ count - index }
    {
        self.place = if index < count {
            ExtendPlace::ExtendNote { clock, index }
        } else {
            ExtendPlace::Ended(ExtendEnd::Prefix(clock))
        };
    }

    /// How the extension ended, once it has.
    pub fn end(&self) -> Option<ExtendEnd>
        ensures { result ≡ end_of_extension self.now }
    {
        match self.place {
            ExtendPlace::Ended(end) => Some(end),
            _ => None,
        }
    }
}
