//! What a line says by its words.

ghost use Rattle.std.specs.Prelude.{◌≡◌};
ghost use Rattle.text_lines.specs.Lines.{words};
ghost use Rattle.script_text.specs.Line.{workers_of, steps_of, statement_on, statement_of, said};
ghost use Rattle.script_text.specs.Given.{Says};

use crate::fault::Fault;
use crate::keyword::Keyword;
use crate::words::{
    all_three, below, both, code_of, count_words, from_one_to, no_word, number, one_word,
    operand_of, phase_of, register, three_words, two_words,
};
use ledger_model::{Reason, Statement, Steps};
use std::alloc::Global;
use text_lines::cut_word;

/// One more than the number of references that a job may have.
const REFS_END: u32 = 65_537;

/// How many numbers a line of steps may have.
const MOST_STEPS_OF_LINE: usize = 64;

/// What a line says.
#[derive(Drop)]
pub enum Line {
    /// The text is a job.
    Head,
    /// There are so many references.
    Refs(u32),
    /// The reference begins with the value.
    Opening(u32, u64),
    /// Scripts of a further worker follow.
    Worker,
    /// A script begins.
    Script,
    /// The innermost block ends, or the script.
    End,
    /// Workers make an access each in this order.
    Steps(Steps),
    /// A nested block begins, with the register for its code.
    Inner(u8),
    /// The first part of alternatives begins.
    Either,
    /// A further part begins.
    Or,
    /// A before-commit body begins.
    Late,
    /// A statement that stands on one line.
    Plain(Statement),
}

/// What a keyword and the words behind it say, where there are so many references and workers.
pub fn said(
    alloc: Global,
    refs: u32,
    workers: u16,
    keyword: Keyword,
    args: &[u8],
) -> Result<Line, Fault>
    ensures { Says result (said refs workers keyword (words args.now)) }
{
    match keyword {
        Keyword::Refs => Ok(Line::Refs(below(REFS_END, one_word(args)?)?)),
        Keyword::Ref => {
            let (cell, number_word) = two_words(args)?;
            let (cell, n) = both(below(refs, cell), number(number_word))?;
            Ok(Line::Opening(cell, n))
        }
        Keyword::Worker => {
            no_word(args)?;
            Ok(Line::Worker)
        }
        Keyword::Script => {
            no_word(args)?;
            Ok(Line::Script)
        }
        Keyword::End => {
            no_word(args)?;
            Ok(Line::End)
        }
        Keyword::Steps => Ok(Line::Steps(steps_of(alloc, workers, args)?)),
        Keyword::Inner => Ok(Line::Inner(register(one_word(args)?)?)),
        Keyword::Either => {
            no_word(args)?;
            Ok(Line::Either)
        }
        Keyword::Or => {
            no_word(args)?;
            Ok(Line::Or)
        }
        Keyword::Late => {
            no_word(args)?;
            Ok(Line::Late)
        }
        _ => Ok(Line::Plain(statement_of(refs, keyword, args)?)),
    }
}

/// 1 to 64 worker numbers.
fn steps_of(alloc: Global, workers: u16, args: &[u8]) -> Result<Steps, Fault>
    ensures { Says result (steps_of workers (words args.now)) }
{
    let count = count_words(args);
    if count == 0 || count > MOST_STEPS_OF_LINE {
        return Err(Fault::Refused(Reason::Count));
    }
    workers_of(alloc, workers, args)
}

fn workers_of(alloc: Global, workers: u16, args: &[u8]) -> Result<Steps, Fault>
    ensures { Says result (workers_of workers (words args.now)) }
{
    let mut numbers = Steps::new(alloc);
    let mut in_range = true;
    let mut rest = args;
    while let Some((word, after)) = cut_word(rest) {
        match from_one_to(workers, word) {
            Ok(n) => numbers.push(n)?,
            Err(reason) => match reason {
                Reason::Number => return Err(Fault::Refused(reason)),
                _ => in_range = false,
            },
        }
        rest = after;
    }
    if in_range {
        Ok(numbers)
    } else {
        Err(Fault::Refused(Reason::Range))
    }
}

/// The statement of a keyword and the words behind it.
fn statement_of(refs: u32, keyword: Keyword, args: &[u8]) -> Result<Statement, Reason>
    ensures { result ≡ statement_of refs keyword (words args.now) }
{
    match keyword {
        Keyword::Const => {
            let (r, n) = two_words(args)?;
            let (reg, number) = both(register(r), number(n))?;
            Ok(Statement::Const { reg, number })
        }
        Keyword::Add => {
            let (r, x) = two_words(args)?;
            let (reg, value) = both(register(r), operand_of(x))?;
            Ok(Statement::Add { reg, value })
        }
        Keyword::Sub => {
            let (r, x) = two_words(args)?;
            let (reg, value) = both(register(r), operand_of(x))?;
            Ok(Statement::Sub { reg, value })
        }
        Keyword::Print => {
            let value = operand_of(one_word(args)?)?;
            Ok(Statement::Print { value })
        }
        Keyword::Check => {
            let (x, y, c) = three_words(args)?;
            match all_three(operand_of(x), operand_of(y), code_of(c)) {
                Ok((left, (right, code))) => Ok(Statement::Check { left, right, code }),
                Err(reason) => Err(reason),
            }
        }
        Keyword::Need => {
            let (x, y) = two_words(args)?;
            let (left, right) = both(operand_of(x), operand_of(y))?;
            Ok(Statement::Need { left, right })
        }
        Keyword::Hook => {
            let (p, n) = two_words(args)?;
            let (phase, token) = both(phase_of(p), number(n))?;
            Ok(Statement::Hook { phase, token })
        }
        _ => statement_on(refs, keyword, args),
    }
}

/// The statements that name references; other keywords begin none.
fn statement_on(refs: u32, keyword: Keyword, args: &[u8]) -> Result<Statement, Reason>
    ensures { result ≡ statement_on refs keyword (words args.now) }
{
    match keyword {
        Keyword::Read => {
            let (r, a) = two_words(args)?;
            let (reg, cell) = both(register(r), below(refs, a))?;
            Ok(Statement::Read { reg, cell })
        }
        Keyword::Write => {
            let (a, x) = two_words(args)?;
            let (cell, value) = both(below(refs, a), operand_of(x))?;
            Ok(Statement::Write { cell, value })
        }
        Keyword::Move => {
            let (a, b, x) = three_words(args)?;
            match all_three(below(refs, a), below(refs, b), operand_of(x)) {
                Ok((from, (into, value))) => Ok(Statement::Move { from, into, value }),
                Err(reason) => Err(reason),
            }
        }
        _ => Err(Reason::Unbuilt),
    }
}
