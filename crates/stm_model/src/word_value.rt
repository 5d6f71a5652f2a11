//! Types whose values a word can hold.
ghost use Rattle.std.specs.Prelude.{◌≡◌, ◌^◌, ℕ, Option, Some, false, true, nat_lt};
ghost use Rattle.std.proofs.Common.{arith, sym};
ghost use Rattle.std.proofs.lemmas.Bool.Decides.{nat_tests};
ghost use Rattle.std.proofs.lemmas.Option.{cond_some, same_Some};
ghost use Rattle.stm_model.specs.WordValue.{bool_value, bool_word, char_value, u32_value};
ghost use lib.Utf8.{scalar};

/// A type each of whose values is one word, and of no two values the same.
pub trait WordValue: Copy {
    /// The word of a value.
    ghost word_of: { Self → ℕ };

    /// The value whose word this is, if there is one.
    ghost value_of: { ℕ → Option Self };

    fn to_word(self) -> u64
        ensures word { result ≡ word_of self }
        ensures comes_back { value_of result ≡ Some self };

    /// None exactly where the word is no value's.
    fn from_word(word: u64) -> Option<Self>
        ensures { result ≡ value_of word };

    /// A word that stands for a value is that value's word.
    ghost is_its_word: { (word : ℕ) (value : Self) → value_of word ≡ Some value → word_of value ≡ word };
}

impl WordValue for u64 {
    ghost word_of = { λ value. value };

    ghost value_of = { λ word. Some word };

    ghost is_its_word = { λ word value is. sym (same_Some word value is) };

    fn to_word(self) -> u64 {
        self
    }

    fn from_word(word: u64) -> Option<u64> {
        Some(word)
    }
}

impl WordValue for u32 {
    ghost word_of = { λ value. value };

    ghost value_of = { u32_value };

    ghost is_its_word = { λ word value is. sym (cond_some (nat_lt word (2 ^ 32)) word value is).1 };

    fn to_word(self) -> u64 {
        u64::from(self)
    }

    fn from_word(word: u64) -> Option<u32> {
        u32::try_from(word).ok()
    }
}

/// False is 0 and true is 1.
impl WordValue for bool {
    ghost word_of = { bool_word };

    ghost value_of = { bool_value };

    ghost is_its_word = { λ word. elim [
      | false ↦ λ is. Prim.grind (arith, nat_tests)
      | true ↦ λ is. Prim.grind (arith, nat_tests)
    ] };

    fn to_word(self) -> u64 {
        u64::from(self)
    }

    fn from_word(word: u64) -> Option<bool> {
        match word {
            0 => Some(false),
            1 => Some(true),
            _ => None,
        }
    }
}

/// A character is its code.
impl WordValue for char {
    ghost word_of = { λ value. value };

    ghost value_of = { char_value };

    ghost is_its_word = { λ word value is. sym (cond_some (scalar word) word value is).1 };

    fn to_word(self) -> u64 {
        u64::from(self)
    }

    fn from_word(word: u64) -> Option<char> {
        char::from_u32(u32::from_word(word)?)
    }
}
