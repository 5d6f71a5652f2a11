//! Cutting the first line off a text and the first field or word off a line, and reading a number.

ghost use Rattle.std.specs.Prelude.{◌≡◌, ◌^◌, ◌<◌, ◌↔◌, [], ◌∷◌, ◌++◌, Some, None, false, not, length, map, nat_eq, nat_lt, position, slice_index, if◌then◌else◌, ◌&&◌, IsTrue, IfSome, MatchOption};
ghost use Rattle.std.specs.Char.{is_ascii_digit};
ghost use Rattle.std.specs.List.{before_first, after_first, list_all};
ghost use Rattle.std.specs.Str.Parse.{digits_value};
ghost use Rattle.text_lines.specs.Lines.{lines, fields, words, text_of, is_feed, is_space, is_nonempty, ends_every_line};
ghost use Rattle.text_lines.specs.Numbers.{number_of};

fn byte_at(bytes: &[u8], byte: u8) -> Option<usize>
    ensures { result ≡ position (λ b. nat_eq b byte) bytes.now }
{
    bytes.iter().position(|b| *b == byte)
}

fn other_at(bytes: &[u8], byte: u8) -> Option<usize>
    ensures { result ≡ position (λ b. not (nat_eq b byte)) bytes.now }
{
    bytes.iter().position(|b| *b != byte)
}

/// The first line of a text that is not empty, without its line feed, and what stands behind that.
pub fn cut_line(text: &[u8]) -> (&[u8], &[u8])
    requires { 0 < length text.now }
    ensures lines { lines text.now ≡ result.0.now ∷ lines result.1.now }
    ensures line { result.0.now ≡ before_first is_feed text.now }
    ensures rest { result.1.now ≡ after_first is_feed text.now }
    ensures shorter { length result.1.now < length text.now }
{
    match byte_at(text, b'\n') {
        Some(end) => (&text[..end], &text[end + 1..]),
        None => (text, &text[text.len()..]),
    }
}

/// The first field of a line, and what stands behind the space that ends it; `None` at the last field.
pub fn cut_field(line: &[u8]) -> (&[u8], Option<&[u8]>)
    ensures fields { MatchOption result.1
        (fields line.now ≡ result.0.now ∷ [])
        (λ rest. fields line.now ≡ result.0.now ∷ fields rest.now) }
    ensures bytes { MatchOption result.1
        (line.now ≡ result.0.now)
        (λ rest. line.now ≡ result.0.now ++ 32 ∷ rest.now) }
    ensures shorter { IfSome result.1 (λ rest. length rest.now < length line.now) }
{
    match byte_at(line, b' ') {
        Some(end) => (&line[..end], Some(&line[end + 1..])),
        None => (line, None),
    }
}

/// The first word of a line, and what stands behind it and its space; `None` where there is no word.
pub fn cut_word(line: &[u8]) -> Option<(&[u8], &[u8])>
    ensures words { MatchOption result
        (words line.now ≡ [])
        (λ cut. words line.now ≡ cut.0.now ∷ words cut.1.now) }
    ensures shorter { IfSome result (λ cut. length cut.1.now < length line.now) }
{
    match other_at(line, b' ') {
        Some(start) => Some(first_word(&line[start..])),
        None => None,
    }
}

/// The word that a line begins with, and what stands behind it and its space.
fn first_word(line: &[u8]) -> (&[u8], &[u8])
    requires some { 0 < length line.now }
    requires begins { is_space (slice_index line.now 0) ≡ false }
    ensures cut { words line.now ≡ result.0.now ∷ words result.1.now }
    ensures shorter { length result.1.now < length line.now }
{
    match cut_field(line) {
        (word, Some(rest)) => (word, rest),
        (word, None) => (word, &line[line.len()..]),
    }
}

/// Whether each line of a text has its line feed. Just such a text is the one that its fields make.
pub fn ends_every_line(text: &[u8]) -> bool
    ensures exact { IsTrue result ↔ (text_of (map fields (lines text.now)) ≡ text.now) }
    ensures last_byte { result ≡ ends_every_line text.now }
{
    match text.last() {
        Some(last) => *last == b'\n',
        None => true,
    }
}

/// The number that a word says: 1 to 20 decimal digits below 2^64, leading zeros allowed.
pub fn number_of(word: &[u8]) -> Option<u64>
    ensures { result ≡ number_of word.now }
{
    if word.len() > 20 || !has_only_digits(word) {
        return None;
    }
    value_of_digits(word)
}

fn has_only_digits(word: &[u8]) -> bool
    ensures { result ≡ list_all (λ b. is_ascii_digit b) word.now }
{
    word.iter().all(|b| b.is_ascii_digit())
}

fn value_of_digits(digits: &[u8]) -> Option<u64>
    requires { IsTrue (list_all (λ b. is_ascii_digit b) digits.now) }
    ensures { let value = digits_value 10 digits.now in
        result ≡ (if is_nonempty digits.now && nat_lt value (2 ^ 64) then Some value else None) }
{
    match str::from_utf8(digits) {
        Ok(text) => text.parse::<u64>().ok(),
        Err(_) => None,
    }
}
