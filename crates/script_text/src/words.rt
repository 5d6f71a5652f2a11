//! What single words of a line say.

ghost use Rattle.std.specs.Prelude.{◌≡◌, length};
ghost use Rattle.text_lines.specs.Lines.{words};
ghost use Rattle.script_text.specs.Words.{both, number, below, from_one_to, leads_with_zero, register_number, register, operand_of, code_of, phase_of, no_word, one_word, two_words, three_words};
ghost use Rattle.script_text.specs.Given.{Gives};

use ledger_model::{Operand, Reason};
use stm_model::HookPhase;
use text_lines::{cut_word, number_of};

/// The greatest code that a script can fail with.
const MOST_CODE: u16 = 65_535;

/// Both, or why not: that a word is no number comes before that a number is out of range.
pub fn both<A: Copy, B: Copy>(a: Result<A, Reason>, b: Result<B, Reason>) -> Result<(A, B), Reason>
    ensures { result ≡ both a b }
{
    match (a, b) {
        (Ok(x), Ok(y)) => Ok((x, y)),
        (Ok(_), Err(reason)) => Err(reason),
        (Err(reason), Ok(_)) => Err(reason),
        (Err(_), Err(Reason::Number)) => Err(Reason::Number),
        (Err(reason), Err(_)) => Err(reason),
    }
}

/// All three, or why not, likewise.
pub fn all_three<A: Copy, B: Copy, C: Copy>(
    a: Result<A, Reason>,
    b: Result<B, Reason>,
    c: Result<C, Reason>,
) -> Result<(A, (B, C)), Reason>
    ensures { result ≡ both a (both b c) }
{
    both(a, both(b, c))
}

pub fn number(word: &[u8]) -> Result<u64, Reason>
    ensures { result ≡ number word.now }
{
    number_of(word).ok_or(Reason::Number)
}

/// A number below the limit.
pub fn below(limit: u32, word: &[u8]) -> Result<u32, Reason>
    ensures { result ≡ below limit word.now }
{
    let n = number(word)?;
    if n < u64::from(limit) {
        Ok(n as u32)
    } else {
        Err(Reason::Range)
    }
}

/// A number from 1 to this one.
pub fn from_one_to(most: u16, word: &[u8]) -> Result<u16, Reason>
    ensures { result ≡ from_one_to most word.now }
{
    let n = number(word)?;
    if 1 <= n && n <= u64::from(most) {
        Ok(n as u16)
    } else {
        Err(Reason::Range)
    }
}

fn leads_with_zero(digits: &[u8]) -> bool
    ensures { result ≡ leads_with_zero digits.now }
{
    digits.len() > 1 && digits[0] == b'0'
}

fn register_number(digits: &[u8]) -> Result<u8, Reason>
    ensures { result ≡ register_number digits.now }
{
    let n = number(digits)?;
    if n > 15 {
        return Err(Reason::Range);
    }
    if leads_with_zero(digits) {
        return Err(Reason::Number);
    }
    Ok(n as u8)
}

/// `r0` to `r15`.
pub fn register(word: &[u8]) -> Result<u8, Reason>
    ensures { result ≡ register word.now }
{
    match word {
        [b'r', digits @ ..] => register_number(digits),
        _ => Err(Reason::Number),
    }
}

/// A register or a number.
pub fn operand_of(word: &[u8]) -> Result<Operand, Reason>
    ensures { result ≡ operand_of word.now }
{
    match word {
        [b'r', digits @ ..] => Ok(Operand::Reg(register_number(digits)?)),
        _ => Ok(Operand::Number(number(word)?)),
    }
}

/// A code to fail with.
pub fn code_of(word: &[u8]) -> Result<u16, Reason>
    ensures { result ≡ code_of word.now }
{
    from_one_to(MOST_CODE, word)
}

pub fn phase_of(word: &[u8]) -> Result<HookPhase, Reason>
    ensures { result ≡ phase_of word.now }
{
    match word {
        b"preparing" => Ok(HookPhase::Preparing),
        b"committing" => Ok(HookPhase::Committing),
        b"commit" => Ok(HookPhase::Commit),
        b"rollback" => Ok(HookPhase::Rollback),
        b"completion" => Ok(HookPhase::Completion),
        _ => Err(Reason::Number),
    }
}

/// How many words a line has.
pub fn count_words(line: &[u8]) -> usize
    ensures { result ≡ length (words line.now) }
{
    let mut count: usize = 0;
    let mut rest = line;
    while let Some((_, after)) = cut_word(rest) {
        count += 1;
        rest = after;
    }
    count
}

pub fn no_word(line: &[u8]) -> Result<(), Reason>
    ensures { Gives (λ _. tt) result (no_word (words line.now)) }
{
    match cut_word(line) {
        Some(_) => Err(Reason::Count),
        None => Ok(()),
    }
}

pub fn one_word(line: &[u8]) -> Result<&[u8], Reason>
    ensures { Gives (λ w. w.now) result (one_word (words line.now)) }
{
    match cut_word(line) {
        Some((first, rest)) => {
            no_word(rest)?;
            Ok(first)
        }
        None => Err(Reason::Count),
    }
}

pub fn two_words(line: &[u8]) -> Result<(&[u8], &[u8]), Reason>
    ensures { Gives (λ w. (w.0.now, w.1.now)) result (two_words (words line.now)) }
{
    match cut_word(line) {
        Some((first, rest)) => {
            let second = one_word(rest)?;
            Ok((first, second))
        }
        None => Err(Reason::Count),
    }
}

pub fn three_words(line: &[u8]) -> Result<(&[u8], &[u8], &[u8]), Reason>
    ensures { Gives (λ w. (w.0.now, w.1.now, w.2.now)) result (three_words (words line.now)) }
{
    match cut_word(line) {
        Some((first, rest)) => {
            let (second, third) = two_words(rest)?;
            Ok((first, second, third))
        }
        None => Err(Reason::Count),
    }
}
