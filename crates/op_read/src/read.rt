//! The read of a cell: its meta word and its value are loaded, and then the meta word is validated: it has to
//! show the same version still. A round that is lost is followed by another, as often as the policy grants one.
ghost use Rattle.std.specs.Prelude.{◌≡◌, ◌<◌, ◌≤◌, ◌+◌, ◌*◌, [], ℕ, IfSome, IsNone, IsSome, None, Some};
ghost use Rattle.stm_model.specs.Accesses.{next_access};
ghost use Rattle.stm_model.specs.After.{after_word, at, read_again, meta_read, validated};
ghost use Rattle.stm_model.specs.Attempt.{Attempt, ReadValue, ReadMeta};
ghost use Rattle.meta_word.specs.declared.meta.Meta.{Meta};
ghost use Rattle.op_read.specs.declared.read.ReadEnd.TheVariants.{NeedExtension};
ghost use Rattle.op_read.specs.declared.read.ReadPlace.TheVariants as at_read;
ghost use Rattle.op_read.specs.Read.{IsLoad, IsReading, IsToExtend, accesses_left, end_of_read, reading};
ghost use Rattle.op_read.specs.ReadParts.{Keeps};

use meta_word::unpack_meta;
use stm_model::{Access, Addr, Cause, Meta, Notes, Word};

/// How a read ended.
#[derive(Clone, Copy, Debug, PartialEq, Eq)]
pub enum ReadEnd {
    /// The value, which is the cell's at this version.
    Got { value: u64, version: u64 },
    /// The cell's version is past the prefix. The read goes on by `resume` once the prefix was extended.
    NeedExtension { meta: Meta },
    Bad(Cause),
}

/// Where a read stands.
#[derive(Clone, Copy)]
pub enum ReadPlace {
    ReadMeta,
    ReadValue { first: Meta },
    Validate { first: Meta, value: u64 },
    Ended(ReadEnd),
}

/// The read of a cell that is neither buffered nor noted.
#[derive(Clone, Copy)]
pub struct ReadOp {
    pub addr: Addr,
    /// The number of the caller that reads.
    pub own: u16,
    pub prefix: u64,
    /// How many rounds may follow this one.
    pub left: u16,
    pub place: ReadPlace,
}

impl ReadOp {
    /// A read that has made no access. It has one round more than `looks`.
    #[inline(always)]
    pub fn new(addr: Addr, own: u16, prefix: u64, looks: u16) -> ReadOp
        ensures begins { (t : Attempt) → reading result t ≡ at t (ReadMeta addr.0 looks) }
        ensures cell { result.addr ≡ addr }
        ensures going { end_of_read result ≡ None }
        ensures for_attempt { (t : Attempt) → t.own ≡ own → t.prefix ≡ prefix → IsReading result t }
        ensures bound { (reads : ℕ) → accesses_left result reads ≤ (looks + 1) * (4 + reads) }
    {
        ReadOp {
            addr,
            own,
            prefix,
            left: looks,
            place: ReadPlace::ReadMeta,
        }
    }

    /// The next access, and none once the read has ended.
    #[inline(always)]
    #[tactic(auto, unfolding(stm_model::specs::Accesses::next_at, stm_model::specs::Accesses::access_of))]
    pub fn next<N: Notes>(&self, _notes: &N) -> Option<Access>
        ensures access { IsNone (end_of_read self.now) → (t : Attempt) → t.due ≡ [] → result ≡ next_access (reading self.now t) }
        ensures end { IsSome (end_of_read self.now) → result ≡ None }
        ensures loads { IfSome result IsLoad }
    {
        match self.place {
            ReadPlace::ReadMeta | ReadPlace::Validate { .. } => {
                Some(Access::Load(Word::Meta(self.addr)))
            }
            ReadPlace::ReadValue { .. } => Some(Access::Load(Word::Value(self.addr))),
            ReadPlace::Ended(_) => None,
        }
    }

    /// Takes the word that the access found.
    #[inline(always)]
    #[tactic(auto, unfolding(stm_model::specs::After::after_at, stm_model::specs::Accesses::next_at, stm_model::specs::Accesses::answer_of))]
    pub fn take<N: Notes>(&mut self, _notes: &N, answer: u64)
        requires { IsNone (end_of_read self.old) }
        ensures after { (t : Attempt) → t.due ≡ [] → IsReading self.old t → after_word (reading self.old t) answer ≡ reading self.new t }
        ensures cell { self.new.addr ≡ self.old.addr }
        ensures same { (t : Attempt) → IsReading self.old t → IsReading self.new t }
        ensures falls { (reads : ℕ) → accesses_left self.new reads < accesses_left self.old reads }
    {
        match self.place {
            ReadPlace::ReadMeta => self.load_meta(unpack_meta(answer)),
            ReadPlace::ReadValue { first } => {
                self.place = ReadPlace::Validate {
                    first,
                    value: answer,
                }
            }
            ReadPlace::Validate { first, value } => {
                self.validate(first, value, unpack_meta(answer))
            }
            ReadPlace::Ended(_) => {}
        }
    }

    // The round begins: this meta word was loaded.
    #[inline(always)]
    #[tactic(auto, unfolding(stm_model::specs::After::meta_read))]
    fn load_meta(&mut self, first: Meta)
        requires { self.old.place ≡ at_read.ReadMeta }
        ensures after { (t : Attempt) → IsReading self.old t → meta_read t self.old.addr.0 self.old.left first ≡ reading self.new t }
        ensures keeps { Keeps self.old self.new }
        ensures falls { (reads : ℕ) → accesses_left self.new reads < accesses_left self.old reads }
    {
        if first.is_changing_by_another(self.own) {
            self.end_round(Cause::ReadConflict {
                addr: self.addr,
                meta: first,
            });
        } else if first.version > self.prefix {
            self.place = ReadPlace::Ended(ReadEnd::NeedExtension { meta: first });
        } else {
            self.place = ReadPlace::ReadValue { first };
        }
    }

    // The meta word was loaded again, as this.
    #[inline(always)]
    #[tactic(auto, unfolding(stm_model::specs::After::validated))]
    fn validate(&mut self, first: Meta, value: u64, second: Meta)
        requires { self.old.place ≡ at_read.Validate first value }
        ensures after { (t : Attempt) → IsReading self.old t → validated t self.old.addr.0 self.old.left first value second ≡ reading self.new t }
        ensures keeps { Keeps self.old self.new }
        ensures falls { (reads : ℕ) → accesses_left self.new reads < accesses_left self.old reads }
    {
        if second.still_has(self.own, first.version) {
            self.place = ReadPlace::Ended(ReadEnd::Got {
                value,
                version: first.version,
            });
        } else {
            self.end_round(Cause::Moved {
                addr: self.addr,
                first,
                second,
            });
        }
    }

    // The round is over: one more, or the read is refused.
    fn end_round(&mut self, cause: Cause)
        ensures after { (t : Attempt) → read_again t self.old.addr.0 self.old.left cause ≡ reading self.new t }
        ensures keeps { Keeps self.old self.new }
        ensures falls { (reads : ℕ) → accesses_left self.new reads ≤ self.old.left * (4 + reads) }
    {
        if self.left == 0 {
            self.place = ReadPlace::Ended(ReadEnd::Bad(cause));
        } else {
            self.left -= 1;
            self.place = ReadPlace::ReadMeta;
        }
    }

    /// Goes on after an extension, with the prefix that it led to.
    pub fn resume(&mut self, prefix: u64)
        requires { IsToExtend self.old.place }
        ensures place { (meta : Meta) → end_of_read self.old ≡ Some (NeedExtension meta) → (t : Attempt) →
            reading self.new t ≡ at t (ReadValue self.old.addr.0 self.old.left meta) }
        ensures cell { self.new.addr ≡ self.old.addr }
        ensures going { end_of_read self.new ≡ None }
        ensures for_attempt { (t : Attempt) → t.own ≡ self.old.own → t.prefix ≡ prefix → IsReading self.new t }
        ensures falls { (reads : ℕ) → accesses_left self.new reads + 1 + reads ≤ accesses_left self.old reads }
    {
        self.prefix = prefix;
        if let ReadPlace::Ended(ReadEnd::NeedExtension { meta }) = self.place {
            self.place = ReadPlace::ReadValue { first: meta };
        }
    }

    /// How the read ended, once it has.
    #[inline(always)]
    pub fn end(&self) -> Option<ReadEnd>
        ensures { result ≡ end_of_read self.now }
    {
        match self.place {
            ReadPlace::Ended(end) => Some(end),
            _ => None,
        }
    }
}
