//! Appending to a text. A row is its first word by `put` or `put_number`, each further one by
//! `put_word` or `put_number_word`, and `end_line`. The only error is being out of memory.

ghost use Rattle.std.specs.Prelude.{◌≡◌, ◌⊎◌, [], ◌∷◌, ◌++◌, decimal, OnOk, OnErr};

use itoa::Buffer;
use std::alloc::AllocError;

/// Appends bytes as they are.
pub fn put(text: &mut Vec<u8>, bytes: &[u8]) -> Result<(), AllocError>
    ensures ok { OnOk result (text.new.items ≡ text.old.items ++ bytes.now) }
    ensures err { OnErr result (text.new.items ≡ text.old.items) }
{
    text.extend_from_slice(bytes)
}

/// Appends a number in decimal, without leading zeros.
pub fn put_number(text: &mut Vec<u8>, number: u64) -> Result<(), AllocError>
    ensures ok { OnOk result (text.new.items ≡ text.old.items ++ decimal number) }
    ensures err { OnErr result (text.new.items ≡ text.old.items) }
{
    let mut buffer = Buffer::new();
    put(text, buffer.format(number).as_bytes())
}

/// Appends a space and a word.
pub fn put_word(text: &mut Vec<u8>, word: &[u8]) -> Result<(), AllocError>
    ensures ok { OnOk result (text.new.items ≡ text.old.items ++ 32 ∷ word.now) }
    // The space may stand there already.
    ensures err { OnErr result ((text.new.items ≡ text.old.items)
        ⊎ (text.new.items ≡ text.old.items ++ 32 ∷ [])) }
{
    put(text, b" ")?;
    put(text, word)
}

/// Appends a space and a number in decimal.
pub fn put_number_word(text: &mut Vec<u8>, number: u64) -> Result<(), AllocError>
    ensures ok { OnOk result (text.new.items ≡ text.old.items ++ 32 ∷ decimal number) }
    // The space may stand there already.
    ensures err { OnErr result ((text.new.items ≡ text.old.items)
        ⊎ (text.new.items ≡ text.old.items ++ 32 ∷ [])) }
{
    let mut buffer = Buffer::new();
    put_word(text, buffer.format(number).as_bytes())
}

/// Appends the line feed that ends a line.
pub fn end_line(text: &mut Vec<u8>) -> Result<(), AllocError>
    ensures ok { OnOk result (text.new.items ≡ text.old.items ++ 10 ∷ []) }
    ensures err { OnErr result (text.new.items ≡ text.old.items) }
{
    put(text, b"\n")
}
