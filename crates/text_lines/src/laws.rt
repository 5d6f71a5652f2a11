//! The laws of lines, words and numbers. Each function does nothing: its clauses are theorems
//! over all texts, rows or numbers, in the words that reading and writing are stated by.

ghost use Rattle.std.specs.Prelude.{◌≡◌, ◌↔◌, ◌^◌, ◌<◌, ℕ, List, [], ◌∷◌, ◌++◌, map, decimal, Some, None, IsTrue, if◌then◌else◌};
ghost use Rattle.std.specs.List.{AllByRecursion};
ghost use Rattle.text_lines.specs.Lines.{Row, lines, fields, words, line_of, text_of, spaced, ends_every_line, is_word, AreWords, AreFields};
ghost use Rattle.text_lines.specs.Numbers.{number_of, plain_word};

/// Rows of words come back as the words of their text's lines.
pub fn words_come_back()
    ensures { (rows : List Row) → AllByRecursion AreWords rows
        → map words (lines (text_of rows)) ≡ rows }
{}

/// Rows come back as the fields of their text's lines where each is a row of fields, and only there.
pub fn fields_come_back()
    ensures { (rows : List Row) →
        (map fields (lines (text_of rows)) ≡ rows) ↔ AllByRecursion AreFields rows }
{}

/// Rows that differ have texts that differ, for rows of words and for rows of fields.
pub fn texts_differ()
    ensures words { (xs ys : List Row) → AllByRecursion AreWords xs → AllByRecursion AreWords ys
        → text_of xs ≡ text_of ys → xs ≡ ys }
    ensures fields { (xs ys : List Row) → AllByRecursion AreFields xs → AllByRecursion AreFields ys
        → text_of xs ≡ text_of ys → xs ≡ ys }
{}

/// A text comes back from its fields, with a line feed more where its last line lacks it.
pub fn text_comes_back()
    ensures { (text : List ℕ) → text_of (map fields (lines text))
        ≡ (if ends_every_line text then text else text ++ 10 ∷ []) }
{}

/// A line may be written word by word: the first, each further one behind a space, and the line feed.
pub fn line_by_words()
    ensures { (word : List ℕ) (more : Row) →
        line_of (word ∷ more) ≡ word ++ spaced more ++ 10 ∷ [] }
{}

/// A number's decimal digits are a word that says this number.
pub fn decimal_says_its_number()
    ensures word { (n : ℕ) → n < 2 ^ 64 → IsTrue (is_word (decimal n)) }
    ensures number { (n : ℕ) → n < 2 ^ 64 → number_of (decimal n) ≡ Some n }
    ensures differ { (m n : ℕ) → m < 2 ^ 64 → n < 2 ^ 64 → decimal m ≡ decimal n → m ≡ n }
{}

/// A word in its plain form says the same number, or is the same word.
pub fn plain_says_the_same()
    ensures number { (word : List ℕ) (n : ℕ) →
        number_of word ≡ Some n → plain_word word ≡ decimal n }
    ensures other { (word : List ℕ) → number_of word ≡ None → plain_word word ≡ word }
    ensures same { (word : List ℕ) → number_of (plain_word word) ≡ number_of word }
    ensures again { (word : List ℕ) → plain_word (plain_word word) ≡ plain_word word }
    ensures word { (word : List ℕ) → IsTrue (is_word word) → IsTrue (is_word (plain_word word)) }
{}
