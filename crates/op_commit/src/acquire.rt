//! The first write of a cell: its meta word is loaded, and a compare-exchange makes the caller its owner.
//! Where another owns the cell, that one may be doomed, once. A round that is lost is followed by another,
//! as often as the policy grants one.
ghost use Rattle.std.specs.Prelude.{◌≡◌, ◌<◌, ◌≤◌, ◌+◌, ◌*◌, ◌^◌, [], ℕ, false, IfSome, IsNone, IsSome, IsTrue, None, Some};
ghost use Rattle.meta_word.specs.Meta.{MetaFits, meta_word, owned_by_another};
ghost use Rattle.meta_word.specs.Policy.{looks};
ghost use Rattle.meta_word.specs.Status.{StatusFits};
ghost use Rattle.meta_word.specs.declared.meta.Meta.{Meta};
ghost use Rattle.meta_word.specs.declared.meta.TheConstants.{MAX_OWNER};
ghost use Rattle.stm_model.specs.declared.access.Access.TheVariants.{Exchange};
ghost use Rattle.stm_model.specs.Accesses.{meta_of_cell, next_access, owned};
ghost use Rattle.stm_model.specs.After.{meta_acquired, after_word, at, note_of, owner_status_loaded, owner_validated, exchanged, acquire_again, write_refused};
ghost use Rattle.stm_model.specs.Attempt.{AcquireMeta, Attempt};
ghost use Rattle.op_commit.specs.Acquire.{IsAcquiring, IsWithin, accesses_left, acquiring, end_of_acquire, rounds_left, version_in};
ghost use Rattle.op_commit.specs.AcquireParts.{IsUnowned, Keeps, met};
ghost use Rattle.op_commit.specs.declared.acquire.AcquireEnd.TheVariants.{Owned};
ghost use Rattle.op_commit.specs.declared.acquire.AcquirePlace.TheVariants as at_acquire;

use conflict_policy::{Move, next_move};
use meta_word::{Phase, Policy, pack_meta, pack_status, unpack_meta, unpack_status};
use stm_model::{Access, Addr, Cause, Meta, Notes, TxnStatus, Word};

/// How a first write ended.
#[derive(Clone, Copy, Debug, PartialEq, Eq)]
pub enum AcquireEnd {
    /// The caller owns the cell. The exchange that was won replaced this word.
    Owned { meta: Meta },
    Bad(Cause),
}

/// Where a first write stands. The round began with the meta word `first`.
#[derive(Clone, Copy)]
pub enum AcquirePlace {
    AcquireMeta,
    /// It exchanges the word that it expects, again where the pending bit alone was set since.
    Acquire {
        first: Meta,
        expected: Meta,
        again: bool,
    },
    /// It loads the owner's status, to see whether that one can be doomed.
    OwnerStatus {
        first: Meta,
    },
    OwnerMeta {
        first: Meta,
        status: TxnStatus,
    },
    DoomOwner {
        first: Meta,
        second: Meta,
        status: TxnStatus,
    },
    Ended(AcquireEnd),
}

/// The first write of a cell.
#[derive(Clone, Copy)]
pub struct AcquireOp {
    pub addr: Addr,
    /// The number of the caller that writes.
    pub own: u16,
    pub policy: Policy,
    /// The version that was noted of the cell.
    pub noted: Option<u64>,
    /// How many rounds are over.
    pub rounds_done: u16,
    pub doom_tried: bool,
    pub place: AcquirePlace,
}

impl AcquireOp {
    /// A first write that has made no access.
    #[inline(always)]
    pub fn new(addr: Addr, own: u16, policy: Policy, noted: Option<u64>) -> AcquireOp
        requires own { own ≤ MAX_OWNER }
        requires looks { looks policy + 1 < 2 ^ 16 }
        ensures begins { (t : Attempt) (value : ℕ) → acquiring result value t ≡ at t (AcquireMeta addr.0 value (looks policy) false) }
        ensures cell { result.addr ≡ addr }
        ensures going { end_of_acquire result ≡ None }
        ensures for_attempt { (t : Attempt) → t.own ≡ own → t.settings.policy ≡ policy → version_in (note_of t.notes addr.0) ≡ noted → IsAcquiring result t }
        ensures within { IsWithin result }
        ensures bound { accesses_left result ≤ (looks policy + 1) * 4 }
    {
        AcquireOp {
            addr,
            own,
            policy,
            noted,
            rounds_done: 0,
            doom_tried: false,
            place: AcquirePlace::AcquireMeta,
        }
    }

    /// The next access, and none once the first write has ended.
    #[inline(always)]
    #[tactic(auto, unfolding(stm_model::specs::Accesses::next_at, stm_model::specs::Accesses::access_of))]
    pub fn next<N: Notes>(&self, _notes: &N) -> Option<Access>
        requires { IsWithin self.now }
        ensures access { IsNone (end_of_acquire self.now) → (t : Attempt) (value : ℕ) → t.due ≡ [] → IsAcquiring self.now t →
            result ≡ next_access (acquiring self.now value t) }
        ensures end { IsSome (end_of_acquire self.now) → result ≡ None }
    {
        match self.place {
            AcquirePlace::AcquireMeta | AcquirePlace::OwnerMeta { .. } => {
                Some(Access::Load(Word::Meta(self.addr)))
            }
            AcquirePlace::Acquire { expected, .. } => Some(Access::Exchange {
                word: Word::Meta(self.addr),
                old: pack_meta(expected),
                new: pack_meta(Meta {
                    owner: self.own,
                    ..expected
                }),
            }),
            AcquirePlace::OwnerStatus { first } => Some(Access::Load(Word::Status(first.owner))),
            AcquirePlace::DoomOwner { first, status, .. } => Some(Access::Exchange {
                word: Word::Status(first.owner),
                old: pack_status(status),
                new: pack_status(TxnStatus {
                    phase: Phase::Doomed,
                    ..status
                }),
            }),
            AcquirePlace::Ended(_) => None,
        }
    }

    /// Takes the word that the access found.
    #[inline(always)]
    #[tactic(auto, unfolding(stm_model::specs::After::after_at, stm_model::specs::Accesses::next_at, stm_model::specs::Accesses::answer_of))]
    pub fn take<N: Notes>(&mut self, _notes: &N, answer: u64)
        requires going { IsNone (end_of_acquire self.old) }
        requires within { IsWithin self.old }
        ensures after { (t : Attempt) (value : ℕ) → t.due ≡ [] → IsAcquiring self.old t →
            after_word (acquiring self.old value t) answer ≡ acquiring self.new value t }
        ensures owned { (meta : Meta) → end_of_acquire self.new ≡ Some (Owned meta) → (t : Attempt) (value : ℕ) → t.due ≡ [] → IsAcquiring self.old t →
            next_access (acquiring self.old value t) ≡ Some (Exchange (meta_of_cell self.old.addr.0) answer (meta_word (owned self.old.own meta))) }
        ensures cell { self.new.addr ≡ self.old.addr }
        ensures same { (t : Attempt) → IsAcquiring self.old t → IsAcquiring self.new t }
        ensures within { IsWithin self.new }
        ensures falls { accesses_left self.new < accesses_left self.old }
    {
        match self.place {
            AcquirePlace::AcquireMeta => self.load_meta(unpack_meta(answer)),
            AcquirePlace::Acquire {
                first,
                expected,
                again,
            } => { self.exchange(first, expected, again, unpack_meta(answer)) }
            AcquirePlace::OwnerStatus { first } => self.load_owner_status(
                first,
                unpack_status(answer),
            ),
            AcquirePlace::OwnerMeta { first, status } => {
                self.validate_owner(first, status, unpack_meta(answer))
            }
            AcquirePlace::DoomOwner { first, second, .. } => self.end_round(first, second),
            AcquirePlace::Ended(_) => {}
        }
    }

    // The round begins: this meta word was loaded.
    #[inline(always)]
    #[tactic(auto, unfolding(stm_model::specs::After::acquiring))]
    fn load_meta(&mut self, first: Meta)
        requires place { self.old.place ≡ at_acquire.AcquireMeta }
        requires within { IsWithin self.old }
        requires fits { MetaFits first }
        ensures after { (t : Attempt) (value : ℕ) → IsAcquiring self.old t →
            meta_acquired t self.old.addr.0 value (rounds_left self.old) self.old.doom_tried (note_of t.notes self.old.addr.0) first ≡ acquiring self.new value t }
        ensures unowned { IsUnowned self.new.place }
        ensures keeps { Keeps self.old self.new }
        ensures falls { accesses_left self.new < accesses_left self.old }
    {
        match self.noted {
            Some(version) if version != first.version => {
                self.place = AcquirePlace::Ended(AcquireEnd::Bad(Cause::Stale {
                    addr: self.addr,
                    version,
                    meta: first,
                }));
            }
            _ if first.owner == 0 => {
                self.place = AcquirePlace::Acquire {
                    first,
                    expected: first,
                    again: false,
                };
            }
            _ => self.doom_or_again(first),
        }
    }

    // The cell has an owner: another, that may be doomed, or the caller itself.
    fn doom_or_again(&mut self, first: Meta)
        requires place { self.old.place ≡ at_acquire.AcquireMeta }
        requires within { IsWithin self.old }
        ensures after { (t : Attempt) (value : ℕ) → IsAcquiring self.old t →
            met t self.old.addr.0 value (rounds_left self.old) self.old.doom_tried first ≡ acquiring self.new value t }
        ensures unowned { IsUnowned self.new.place }
        ensures keeps { Keeps self.old self.new }
        ensures falls { accesses_left self.new < accesses_left self.old }
    {
        let step = next_move(
            self.policy,
            self.rounds_done + 1,
            self.doom_tried,
            first,
            self.own,
        );
        if let Move::TryDoom { .. } = step {
            self.doom_tried = true;
            self.place = AcquirePlace::OwnerStatus { first };
        } else {
            self.end_round(first, first);
        }
    }

    // The compare-exchange of the meta word found this.
    #[inline(always)]
    #[tactic(auto, unfolding(stm_model::specs::After::exchanged))]
    fn exchange(&mut self, first: Meta, expected: Meta, again: bool, found: Meta)
        requires place { self.old.place ≡ at_acquire.Acquire first expected again }
        requires within { IsWithin self.old }
        requires fits { MetaFits found }
        ensures after { (t : Attempt) (value : ℕ) → IsAcquiring self.old t →
            exchanged t self.old.addr.0 value (rounds_left self.old) self.old.doom_tried first expected again found ≡ acquiring self.new value t }
        ensures owned { (meta : Meta) → end_of_acquire self.new ≡ Some (Owned meta) → (meta ≡ found) × (found ≡ expected) }
        ensures keeps { Keeps self.old self.new }
        ensures falls { accesses_left self.new < accesses_left self.old }
    {
        let is_close = found.is_same_but_pending(expected);
        if is_close && found.pending == expected.pending {
            self.place = AcquirePlace::Ended(AcquireEnd::Owned { meta: found });
        } else if is_close && !again {
            self.place = AcquirePlace::Acquire {
                first,
                expected: found,
                again: true,
            };
        } else {
            self.end_round(first, found);
        }
    }

    // The owner's status was loaded. Only the hold of an active owner is validated.
    #[tactic(auto, unfolding(stm_model::specs::After::owner_status_loaded))]
    fn load_owner_status(&mut self, first: Meta, status: TxnStatus)
        requires place { self.old.place ≡ at_acquire.OwnerStatus first }
        requires within { IsWithin self.old }
        requires fits { StatusFits status }
        ensures after { (t : Attempt) (value : ℕ) → IsAcquiring self.old t →
            owner_status_loaded t self.old.addr.0 value (rounds_left self.old) first status ≡ acquiring self.new value t }
        ensures unowned { IsUnowned self.new.place }
        ensures keeps { Keeps self.old self.new }
        ensures falls { accesses_left self.new < accesses_left self.old }
    {
        if status.phase == Phase::Active {
            self.place = AcquirePlace::OwnerMeta { first, status };
        } else {
            self.end_round(first, first);
        }
    }

    // The meta word was loaded again. Only an owner that still holds the cell, and isn't changing it, is doomed.
    #[tactic(auto, unfolding(stm_model::specs::After::owner_validated))]
    fn validate_owner(&mut self, first: Meta, status: TxnStatus, second: Meta)
        requires place { self.old.place ≡ at_acquire.OwnerMeta first status }
        requires within { IsWithin self.old }
        ensures after { (t : Attempt) (value : ℕ) → IsAcquiring self.old t →
            owner_validated t self.old.addr.0 value (rounds_left self.old) first status second ≡ acquiring self.new value t }
        ensures unowned { IsUnowned self.new.place }
        ensures keeps { Keeps self.old self.new }
        ensures falls { accesses_left self.new < accesses_left self.old }
    {
        if second.owner == first.owner && !second.changing {
            self.place = AcquirePlace::DoomOwner {
                first,
                second,
                status,
            };
        } else {
            self.end_round(first, second);
        }
    }

    // A round is over, and this is its last word. At the end of a round nobody is doomed.
    fn end_round(&mut self, first: Meta, latest: Meta)
        requires { IsWithin self.old }
        ensures after { (t : Attempt) (value : ℕ) → IsAcquiring self.old t →
            acquire_again t self.old.addr.0 value (rounds_left self.old) self.old.doom_tried first latest ≡ acquiring self.new value t }
        ensures unowned { IsUnowned self.new.place }
        ensures keeps { Keeps self.old self.new }
        ensures falls { accesses_left self.new ≤ 4 * rounds_left self.old }
    {
        let step = next_move(self.policy, self.rounds_done + 1, true, latest, self.own);
        if let Move::Again = step {
            self.rounds_done += 1;
            self.place = AcquirePlace::AcquireMeta;
        } else {
            self.place = AcquirePlace::Ended(AcquireEnd::Bad(self.refusal(first, latest)));
        }
    }

    // Why the first write is refused, the last round having ended with this word.
    fn refusal(&self, first: Meta, latest: Meta) -> Cause
        ensures { result ≡ write_refused self.now.own self.now.addr.0 first latest }
    {
        if latest.is_owned_by_another(self.own) {
            Cause::WriteConflict {
                addr: self.addr,
                meta: latest,
            }
        } else {
            Cause::Moved {
                addr: self.addr,
                first,
                second: latest,
            }
        }
    }

    /// How the first write ended, once it has.
    #[inline(always)]
    pub fn end(&self) -> Option<AcquireEnd>
        ensures { result ≡ end_of_acquire self.now }
    {
        match self.place {
            AcquirePlace::Ended(end) => Some(end),
            _ => None,
        }
    }
}
