//! A cell's metadata word. It stands beside the word with the cell's value, begins as 0, and says
//! who may write the cell and which committed write its value is from.
//!
//! | bits | field | set | cleared |
//! |---|---|---|---|
//! | 63 | changing | by the owner, in a commit, before it loads the clock | with the owner |
//! | 62 | pending | by any caller that is to wait, at any time | with a new version |
//! | 51 to 61 | owner | by a caller, to its own number, before its first write of the cell, where nobody owns it | by the owner, once the write is committed, undone or rolled back |
//! | 0 to 50 | version | by the owner, to its stamp, once the cell's new value is stored | never |
//!
//! The word is changed by one access at a time:
//! - to acquire the cell is to exchange the word that was loaded for the same with an owner;
//! - to mark it is to set the changing bit, and to wait is to set the pending bit;
//! - to release it unwritten is to clear the owner's bits and the changing bit;
//! - to release it written is to swap in the new version, with every other bit 0.
//!
//! Where the word was pending when the cell was released, that caller rings for those who wait.

ghost use Rattle.std.specs.Prelude.{◌≡◌};
ghost use Rattle.meta_word.specs.Meta.{MetaFits, changing_by_another, meta_of, meta_word, owned_by_another, same_but_pending, still_has};

// Where the fields begin. The version begins at bit 0.
const OWNER_AT: u32 = 51;

const PENDING_AT: u32 = 62;

const CHANGING_AT: u32 = 63;

/// The greatest number that an owner may have: callers are numbered from 1.
pub const MAX_OWNER: u16 = u16::MAX >> (u16::BITS - (PENDING_AT - OWNER_AT));

/// The greatest version, and so the greatest value that the clock may have.
pub const MAX_VERSION: u64 = (1 << OWNER_AT) - 1;

/// The pending bit, which is set to wait.
pub const PENDING_BIT: u64 = 1 << PENDING_AT;

/// The changing bit, which is set to mark a cell.
pub const CHANGING_BIT: u64 = 1 << CHANGING_AT;

/// The owner's bits and the changing bit, which are cleared to release a cell unwritten.
pub const OWNER_AND_CHANGING_BITS: u64 = CHANGING_BIT | ((MAX_OWNER as u64) << OWNER_AT);

/// A cell's metadata word, unpacked.
#[derive(Clone, Copy, Debug, PartialEq, Eq)]
pub struct Meta {
    /// The owner is about to store the cell's new value, and until it has, no other caller reads the
    /// cell. Set only with an owner, and only once its attempt can't be doomed any more.
    pub changing: bool,
    /// Somebody waits for the cell to change or to be released. It says nothing of the cell itself,
    /// and stays where the cell is acquired, marked or released unwritten.
    pub pending: bool,
    /// The caller that may write the cell, or 0 for nobody. While the cell is owned, all but the
    /// pending bit is the owner's alone to change. Others may read the cell until it is changing.
    pub owner: u16,
    /// The stamp of the last committed write of the cell, or 0 where there is none. It only rises,
    /// and wherever the word isn't changing, the cell's value is that write's.
    pub version: u64,
}

impl Meta {
    /// Whether a caller other than this one owns the cell.
    pub fn is_owned_by_another(&self, own: u16) -> bool
        ensures { result ≡ owned_by_another own self.now }
    {
        self.owner != 0 && self.owner != own
    }

    /// Whether a caller other than this one is about to store a value.
    pub fn is_changing_by_another(&self, own: u16) -> bool
        ensures { result ≡ changing_by_another own self.now }
    {
        self.changing && self.is_owned_by_another(own)
    }

    /// Whether the cell still has this version, and no caller other than this one is about to change it.
    pub fn still_has(&self, own: u16, version: u64) -> bool
        ensures { result ≡ still_has own version self.now }
    {
        self.version == version && !self.is_changing_by_another(own)
    }

    /// Whether this is the same word as another, but perhaps for the pending bit.
    pub fn is_same_but_pending(&self, other: Meta) -> bool
        ensures { result ≡ same_but_pending self.now other }
    {
        self.changing == other.changing
            && self.owner == other.owner
            && self.version == other.version
    }
}

/// The word of these fields.
pub fn pack_meta(meta: Meta) -> u64
    requires { MetaFits meta }
    ensures word { result ≡ meta_word meta }
    ensures comes_back { meta_of result ≡ meta }
{
    (u64::from(meta.changing) << CHANGING_AT)
        | (u64::from(meta.pending) << PENDING_AT)
        | (u64::from(meta.owner) << OWNER_AT)
        | meta.version
}

/// The fields of this word. Every word has some.
pub fn unpack_meta(word: u64) -> Meta
    ensures fields { result ≡ meta_of word }
    ensures fits { MetaFits result }
    ensures comes_back { meta_word result ≡ word }
{
    Meta {
        changing: word & CHANGING_BIT != 0,
        pending: word & PENDING_BIT != 0,
        owner: ((word >> OWNER_AT) & u64::from(MAX_OWNER)) as u16,
        version: word & MAX_VERSION,
    }
}
