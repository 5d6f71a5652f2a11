//! The laws of words. Each function does nothing: its clauses are theorems over all words and fields.

ghost use Rattle.std.specs.Prelude.{◌≡◌, ◌<◌, ◌^◌, ℕ, true, false, bit_and, bit_or};
ghost use Rattle.std.specs.Int.{bit_not, w64};
ghost use Rattle.meta_word.specs.Meta.{MetaFits, meta_of, meta_word};
ghost use Rattle.meta_word.specs.Status.{StatusFits, status_of, status_word};
ghost use Rattle.meta_word.specs.declared.meta.Meta.{Meta};
ghost use Rattle.meta_word.specs.declared.status.Phase.TheVariants.{Idle};
ghost use Rattle.meta_word.specs.declared.status.TxnStatus.{TxnStatus};

use crate::{CHANGING_BIT, OWNER_AND_CHANGING_BITS, PENDING_BIT};

/// Fields that fit come back from their word, and a word comes back from its fields.
pub fn meta_words_come_back()
    ensures below { (meta : Meta) → MetaFits meta → meta_word meta < 2 ^ 64 }
    ensures fits { (word : ℕ) → MetaFits (meta_of word) }
    ensures fields { (meta : Meta) → MetaFits meta → meta_of (meta_word meta) ≡ meta }
    ensures word { (word : ℕ) → word < 2 ^ 64 → meta_word (meta_of word) ≡ word }
{}

/// The same of status words.
pub fn status_words_come_back()
    ensures below { (status : TxnStatus) → StatusFits status → status_word status < 2 ^ 64 }
    ensures fits { (word : ℕ) → word < 2 ^ 64 → StatusFits (status_of word) }
    ensures fields { (status : TxnStatus) → StatusFits status → status_of (status_word status) ≡ status }
    ensures word { (word : ℕ) → word < 2 ^ 64 → status_word (status_of word) ≡ word }
{}

/// The word 0, with which a table begins: a cell that nobody owns and no commit has written, and a
/// caller without an attempt.
pub fn words_begin_empty()
    ensures meta { meta_of 0 ≡ record { changing = false; pending = false; owner = 0; version = 0 } }
    ensures status { status_of 0 ≡ record { serial = 0; phase = Idle } }
{}

/// Setting a bit sets its field, and nothing else.
pub fn a_set_bit_is_a_set_field()
    ensures changing { (word : ℕ) → word < 2 ^ 64
        → meta_of (bit_or word CHANGING_BIT) ≡ record (meta_of word) { changing = true } }
    ensures pending { (word : ℕ) → word < 2 ^ 64
        → meta_of (bit_or word PENDING_BIT) ≡ record (meta_of word) { pending = true } }
    ensures changing_packed { (meta : Meta) → MetaFits meta
        → bit_or (meta_word meta) CHANGING_BIT ≡ meta_word (record meta { changing = true }) }
    ensures pending_packed { (meta : Meta) → MetaFits meta
        → bit_or (meta_word meta) PENDING_BIT ≡ meta_word (record meta { pending = true }) }
{}

/// Clearing the owner's bits and the changing bit leaves nobody, who changes nothing, and all else.
pub fn cleared_bits_leave_nobody()
    ensures fields { (word : ℕ) → word < 2 ^ 64
        → meta_of (bit_and word (bit_not w64 OWNER_AND_CHANGING_BITS))
        ≡ record (meta_of word) { changing = false; owner = 0 } }
    ensures packed { (meta : Meta) → MetaFits meta
        → bit_and (meta_word meta) (bit_not w64 OWNER_AND_CHANGING_BITS)
        ≡ meta_word (record meta { changing = false; owner = 0 }) }
{}
