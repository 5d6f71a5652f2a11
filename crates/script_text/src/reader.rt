//! What the lines of a job have said so far, and what a further line makes of it.

ghost use Rattle.std.specs.Prelude.{◌≡◌, ◌+◌, ◌<◌, true, false, ◌++◌, [], ◌∷◌, nat_lt, OnOk, Some, length, map};
ghost use Rattle.std.specs.List.{list_all};
ghost use Rattle.text_lines.specs.Lines.{words};
ghost use Rattle.script_text.specs.declared.line.Line.TheVariants as says;
ghost use Rattle.script_text.specs.Standing.{rank, in_script, in_part, falls_below, out_of_order, too_deep, too_many, misplaced, is_head, said_at, read_row};
ghost use Rattle.script_text.specs.JobText.{may_occur, begins_with_hash};
ghost use Rattle.script_text.specs.Frames.{opener_of};
ghost use Rattle.script_text.specs.Reading.{fresh, come_to, standing_of, may_come, Took, Follows, Reads, Finishes, began, with_part, ended, workers_so_far};

use crate::fault::Fault;
use crate::frames::{Begun, Frame, Frames};
use crate::keyword::{Keyword, keyword_of};
use crate::line::{Line, said};
use crate::section::Section;
use crate::words::{count_words, one_word};
use ledger_model::{
    Block, Job, Openings, Parts, Reason, Script, Scripts, Statement, Steps, Workers,
};
use std::alloc::Global;
use std::mem;
use stm_model::Memory;
use text_lines::{cut_word, number_of};

const MOST_WORKERS: u16 = 16;

/// The scripts of one worker.
const MOST_SCRIPTS: u16 = 4_096;

const MOST_STEPS: usize = 262_144;

/// The blocks of a script that may be open, one in another.
const MOST_DEPTH: usize = 32;

/// What the lines so far have said.
#[derive(Drop)]
pub struct Reader {
    pub come_to: Section,
    /// What the line of references says, where there was one.
    pub refs: Option<u32>,
    /// The least reference that may be opened next.
    pub next: u64,
    pub openings: Openings,
    pub worker_count: u16,
    /// The workers before the last one.
    pub workers: Workers,
    /// The scripts of the last worker, with the one that is open.
    pub script_count: u16,
    /// The scripts of the last worker that are ended.
    pub scripts: Scripts,
    /// The statements so far of the innermost block that is open.
    pub block: Block,
    pub frames: Frames,
    pub steps: Steps,
}

impl Reader {
    pub fn new(alloc: Global) -> Reader
        ensures { result ≡ fresh }
    {
        Reader {
            come_to: Section::Start,
            refs: None,
            next: 0,
            openings: Openings::new(alloc),
            worker_count: 0,
            workers: Workers::new(alloc),
            script_count: 0,
            scripts: Scripts::new(alloc),
            block: Block::new(alloc),
            frames: Frames::new(alloc),
            steps: Steps::new(alloc),
        }
    }

    /// Reads the next line.
    #[tactic(auto, using(crate::proofs::GoingOn::line_empty))]
    pub fn line(&mut self, alloc: Global, line: &[u8]) -> Result<(), Fault>
        ensures { Reads result self.old self.new (words line.now) }
    {
        if !is_clean(line) {
            return Err(Fault::Refused(Reason::Byte));
        }
        match cut_word(line) {
            Some((word, args)) => {
                if begins_with_hash(word) {
                    Ok(())
                } else {
                    self.row(alloc, word, args)
                }
            }
            None => Ok(()),
        }
    }

    /// The job, where no further line comes.
    #[tactic(auto, using(crate::proofs::GoingOn::no_head, crate::proofs::GoingOn::unclosed, crate::proofs::GoingOn::whole))]
    pub fn finish(mut self, alloc: Global) -> Result<Job, Fault>
        ensures { Finishes result self }
    {
        if self.rank() == 0 {
            return Err(Fault::Refused(Reason::Head));
        }
        if self.is_in_script() {
            return Err(Fault::Refused(Reason::Unclosed));
        }
        self.end_worker(alloc)?;
        Ok(Job {
            refs: self.refs.unwrap_or(0),
            maps: 0,
            snaps: 0,
            blocks: 0,
            openings: self.openings,
            workers: self.workers,
            steps: self.steps,
        })
    }

    /// Reads a line of these words.
    #[tactic(auto, using(crate::proofs::GoingOn::head_row, crate::proofs::GoingOn::no_head_row, crate::proofs::GoingOn::other_row))]
    fn row(&mut self, alloc: Global, word: &[u8], args: &[u8]) -> Result<(), Fault>
        ensures { Follows result self.old self.new (read_row (standing_of self.old) (word.now ∷ words args.now)) }
    {
        if self.rank() == 0 {
            if !is_head(word, args) {
                return Err(Fault::Refused(Reason::Head));
            }
            self.take(alloc, Line::Head)?;
            return Ok(());
        }
        match keyword_of(word) {
            Some(keyword) => self.keyword_line(alloc, keyword, args),
            None => Err(Fault::Refused(Reason::Word)),
        }
    }

    #[tactic(auto, using(crate::proofs::Placing::may_come_said, crate::proofs::GoingOn::keyword_said))]
    fn keyword_line(&mut self, alloc: Global, keyword: Keyword, args: &[u8]) -> Result<(), Fault>
        ensures { Follows result self.old self.new (said_at (standing_of self.old) (Some keyword) (words args.now)) }
    {
        if let Some(reason) = self.misplaced(keyword, args) {
            return Err(Fault::Refused(reason));
        }
        let line = said(
            alloc,
            self.refs.unwrap_or(0),
            self.worker_count,
            keyword,
            args,
        )?;
        self.take(alloc, line)?;
        Ok(())
    }

    // ---- why a line may not stand here

    /// Why a line of this keyword may not stand here.
    fn misplaced(&self, keyword: Keyword, args: &[u8]) -> Option<Reason>
        ensures { result ≡ misplaced (standing_of self.now) keyword (words args.now) }
    {
        if keyword.is_unbuilt() {
            Some(Reason::Unbuilt)
        } else if self.is_out_of_order(keyword, args) {
            Some(Reason::Order)
        } else if self.is_too_deep(keyword) {
            Some(Reason::Depth)
        } else if self.is_too_many(keyword, args) {
            Some(Reason::Many)
        } else {
            None
        }
    }

    /// How many sections there are before the one come to.
    fn rank(&self) -> u8
        ensures { result ≡ rank (come_to self.now.come_to self.now.refs) }
    {
        match self.come_to {
            Section::Start | Section::Head if self.refs.is_some() => 2,
            Section::Start => 0,
            Section::Head => 1,
            Section::Refs => 2,
            Section::Openings => 3,
            Section::Workers => 4,
            Section::Steps => 5,
        }
    }

    fn is_in_script(&self) -> bool
        ensures { result ≡ in_script (standing_of self.now) }
    {
        self.frames.len() != 0
    }

    /// Whether the first word is a number below the least that may be opened.
    fn falls_below(&self, args: &[u8]) -> bool
        ensures { result ≡ falls_below self.now.next (words args.now) }
    {
        match cut_word(args) {
            Some((word, _)) => match number_of(word) {
                Some(n) => n < self.next,
                None => false,
            },
            None => false,
        }
    }

    fn is_out_of_order(&self, keyword: Keyword, args: &[u8]) -> bool
        ensures { result ≡ out_of_order (standing_of self.now) keyword (words args.now) }
    {
        match keyword {
            Keyword::Stm => true,
            Keyword::Refs => self.rank() > 1,
            Keyword::Ref => self.rank() > 3 || self.falls_below(args),
            Keyword::Worker => self.is_in_script() || self.rank() > 4,
            Keyword::Script => self.is_in_script() || self.rank() != 4,
            Keyword::Steps => self.is_in_script(),
            Keyword::Or => !self.frames.are_in_part(),
            Keyword::End => !self.frames.may_end(),
            _ => !self.is_in_script(),
        }
    }

    fn is_too_deep(&self, keyword: Keyword) -> bool
        ensures { result ≡ too_deep (standing_of self.now) keyword }
    {
        match keyword {
            Keyword::Inner | Keyword::Either | Keyword::Late => self.frames.len() > MOST_DEPTH,
            _ => false,
        }
    }

    fn is_too_many(&self, keyword: Keyword, args: &[u8]) -> bool
        ensures { result ≡ too_many (standing_of self.now) keyword (words args.now) }
    {
        match keyword {
            Keyword::Worker => self.worker_count >= MOST_WORKERS,
            Keyword::Script => self.script_count >= MOST_SCRIPTS,
            Keyword::Steps => self.has_no_room(count_words(args)),
            _ => false,
        }
    }

    /// Whether there may not be so many steps more.
    fn has_no_room(&self, more: usize) -> bool
        ensures { result ≡ nat_lt 262144 (length self.now.steps + more) }
    {
        let steps = self.steps.len();
        steps > MOST_STEPS || more > MOST_STEPS - steps
    }

    // ---- taking a line that may stand here

    #[tactic(auto, using(crate::proofs::Taking::took_head, crate::proofs::Taking::took_refs))]
    fn take(&mut self, alloc: Global, line: Line) -> Result<(), Memory>
        requires { may_come (standing_of self.old) line ≡ true }
        ensures { OnOk result (Took self.old self.new line) }
    {
        match line {
            Line::Head => {
                self.come_to = Section::Head;
                Ok(())
            }
            Line::Refs(refs) => {
                self.come_to = Section::Refs;
                self.refs = Some(refs);
                Ok(())
            }
            Line::Opening(cell, number) => self.take_opening(cell, number),
            Line::Worker => self.take_worker(alloc),
            Line::Script => self.take_script(alloc),
            Line::End => self.take_end(),
            Line::Inner(reg) => {
                self.begin(alloc, Begun::Inner(reg))?;
                Ok(())
            }
            Line::Either => {
                self.begin(alloc, Begun::Either(Parts::new(alloc)))?;
                Ok(())
            }
            Line::Or => self.take_or(alloc),
            Line::Late => {
                self.begin(alloc, Begun::Late)?;
                Ok(())
            }
            Line::Steps(numbers) => self.take_steps(&numbers),
            Line::Plain(statement) => {
                self.block.push(statement)?;
                Ok(())
            }
        }
    }

    #[tactic(auto, using(crate::proofs::Taking::took_opening))]
    fn take_opening(&mut self, cell: u32, number: u64) -> Result<(), Memory>
        ensures { OnOk result (Took self.old self.new (says.Opening cell number)) }
    {
        self.come_to = Section::Openings;
        self.next = u64::from(cell) + 1;
        if number == 0 {
            return Ok(());
        }
        self.openings.push((cell, number))?;
        Ok(())
    }

    /// Puts the last worker, if there is one, behind the others.
    fn end_worker(&mut self, alloc: Global) -> Result<(), Memory>
        ensures { OnOk result (self.new ≡ record self.old { workers = workers_so_far self.old; scripts = [] }) }
    {
        let scripts = mem::replace(&mut self.scripts, Scripts::new(alloc));
        if self.worker_count != 0 {
            self.workers.push(scripts)?;
        }
        Ok(())
    }

    #[tactic(auto, using(crate::proofs::Taking::took_worker))]
    fn take_worker(&mut self, alloc: Global) -> Result<(), Memory>
        requires free { in_script (standing_of self.old) ≡ false }
        requires room { self.old.worker_count < 16 }
        ensures { OnOk result (Took self.old self.new says.Worker) }
    {
        self.end_worker(alloc)?;
        self.come_to = Section::Workers;
        self.worker_count += 1;
        self.script_count = 0;
        Ok(())
    }

    #[tactic(auto, using(crate::proofs::Taking::took_script))]
    fn take_script(&mut self, alloc: Global) -> Result<(), Memory>
        requires free { in_script (standing_of self.old) ≡ false }
        requires room { self.old.script_count < 4096 }
        ensures { OnOk result (Took self.old self.new says.Script) }
    {
        self.script_count += 1;
        self.begin(alloc, Begun::Script)?;
        Ok(())
    }

    #[tactic(auto, using(crate::proofs::Taking::took_steps))]
    fn take_steps(&mut self, numbers: &Steps) -> Result<(), Memory>
        ensures { OnOk result (Took self.old self.new (says.Steps numbers.now)) }
    {
        self.come_to = Section::Steps;
        append(&mut self.steps, numbers.as_slice())?;
        Ok(())
    }

    fn begin(&mut self, alloc: Global, begun: Begun) -> Result<(), Memory>
        ensures { OnOk result (self.new ≡ began self.old begun) }
    {
        let outer = mem::replace(&mut self.block, Block::new(alloc));
        self.frames.push(Frame { begun, outer })?;
        Ok(())
    }

    /// The innermost block becomes a part behind these, and a further one begins.
    fn begin_part(&mut self, alloc: Global, mut parts: Parts, outer: Block) -> Result<(), Memory>
        ensures { OnOk result (self.new ≡ with_part self.old parts outer) }
    {
        let part = mem::replace(&mut self.block, Block::new(alloc));
        parts.push(part)?;
        let begun = Begun::Either(parts);
        self.frames.push(Frame { begun, outer })?;
        Ok(())
    }

    #[tactic(auto, using(crate::proofs::Taking::took_or))]
    fn take_or(&mut self, alloc: Global) -> Result<(), Memory>
        requires { in_part (map opener_of self.old.frames) ≡ true }
        ensures { OnOk result (Took self.old self.new says.Or) }
    {
        match self.frames.pop() {
            Some(frame) => {
                let Frame { begun, outer } = frame;
                match begun {
                    Begun::Either(parts) => {
                        self.begin_part(alloc, parts, outer)?;
                        Ok(())
                    }
                    _ => Ok(()),
                }
            }
            None => Ok(()),
        }
    }

    #[tactic(auto, using(crate::proofs::Taking::took_end, crate::proofs::Taking::took_no_end))]
    fn take_end(&mut self) -> Result<(), Memory>
        ensures { OnOk result (Took self.old self.new says.End) }
    {
        match self.frames.pop() {
            Some(frame) => {
                let block = mem::replace(&mut self.block, frame.outer);
                self.end_block(frame.begun, block)?;
                Ok(())
            }
            None => Ok(()),
        }
    }

    /// Puts a block that has ended where it belongs.
    fn end_block(&mut self, begun: Begun, block: Block) -> Result<(), Memory>
        ensures { OnOk result (self.new ≡ ended self.old begun block) }
    {
        match begun {
            Begun::Script => self.scripts.push(Script { block })?,
            Begun::Inner(reg) => self.block.push(Statement::Inner { reg, block })?,
            Begun::Either(mut parts) => {
                parts.push(block)?;
                self.block.push(Statement::Either { parts })?
            }
            Begun::Late => self.block.push(Statement::Late { block })?,
        }
        Ok(())
    }
}

fn append(steps: &mut Steps, numbers: &[u16]) -> Result<(), Memory>
    ensures { OnOk result (steps.new ≡ steps.old ++ numbers.now) }
{
    for number in numbers {
        steps.push(*number)?;
    }
    Ok(())
}

fn is_clean(line: &[u8]) -> bool
    ensures { result ≡ list_all (λ b. may_occur b) line.now }
{
    line.iter().all(|b| *b >= 0x20 && *b <= 0x7e)
}

fn begins_with_hash(word: &[u8]) -> bool
    ensures { result ≡ begins_with_hash word.now }
{
    match word {
        [b'#', ..] => true,
        _ => false,
    }
}

fn is_head(word: &[u8], args: &[u8]) -> bool
    ensures { result ≡ is_head (word.now ∷ words args.now) }
{
    match one_word(args) {
        Ok(version) => word == b"stm".as_slice() && version == b"1".as_slice(),
        Err(_) => false,
    }
}
