//! The wait for a cell to be released: one access, which sets the pending bit.
ghost use Rattle.std.specs.Prelude.{◌≡◌, IsNone, IsSome};
ghost use Rattle.stm_model.specs.Accesses.{packed};
ghost use Rattle.stm_model.specs.Waiting.{Await, next_wait};
ghost use Rattle.op_commit.specs.Free.{end_of_free, freeing};
ghost use Rattle.op_commit.specs.Waits.{wait_word};

use meta_word::{PENDING_BIT, unpack_meta};
use stm_model::{Access, Addr, Meta, Notes, Word};

/// What the access found.
#[derive(Clone, Copy, Debug, PartialEq, Eq)]
pub enum FreeEnd {
    /// Another owns the cell, and the caller is rung for once it is released.
    Held { meta: Meta },
    Released { meta: Meta },
}

/// Where it stands.
#[derive(Clone, Copy)]
pub enum FreePlace {
    Await,
    Ended(FreeEnd),
}

/// The wait for a cell that another owned.
#[derive(Clone, Copy)]
pub struct FreeOp {
    pub addr: Addr,
    /// The number of the caller that waits.
    pub own: u16,
    pub place: FreePlace,
}

impl FreeOp {
    /// It has made no access.
    pub fn new(addr: Addr, own: u16) -> FreeOp
        ensures begins { freeing result ≡ Await addr.0 }
        ensures own { result.own ≡ own }
    {
        FreeOp {
            addr,
            own,
            place: FreePlace::Await,
        }
    }

    /// The next access, and none once it has ended.
    #[tactic(auto, unfolding(stm_model::specs::Waiting::next_wait, stm_model::specs::Accesses::access_of))]
    pub fn next<N: Notes>(&self, _notes: &N) -> Option<Access>
        ensures { result ≡ packed (next_wait (freeing self.now)) }
    {
        match self.place {
            FreePlace::Await => Some(Access::SetBits(Word::Meta(self.addr), PENDING_BIT)),
            FreePlace::Ended(_) => None,
        }
    }

    /// Takes the word that the access found.
    #[tactic(auto, unfolding(stm_model::specs::Waiting::next_wait, stm_model::specs::Waiting::after_wait, stm_model::specs::Accesses::answer_of))]
    pub fn take<N: Notes>(&mut self, _notes: &N, answer: u64)
        requires { IsNone (end_of_free self.old) }
        ensures after { wait_word self.old.own (freeing self.old) answer ≡ freeing self.new }
        ensures own { self.new.own ≡ self.old.own }
        ensures ended { IsSome (end_of_free self.new) }
    {
        let meta = unpack_meta(answer);
        self.place = if meta.is_owned_by_another(self.own) {
            FreePlace::Ended(FreeEnd::Held { meta })
        } else {
            FreePlace::Ended(FreeEnd::Released { meta })
        };
    }

    /// What the access found, once it was made.
    pub fn end(&self) -> Option<FreeEnd>
        ensures { result ≡ end_of_free self.now }
    {
        match self.place {
            FreePlace::Await => None,
            FreePlace::Ended(end) => Some(end),
        }
    }
}
