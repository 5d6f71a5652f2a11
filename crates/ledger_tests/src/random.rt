//! Texts made at random of a job's words and numbers, most of them jobs. They are the same at each run.
ghost use Rattle.std.specs.Prelude.{◌≤◌, ◌<◌};

use std::alloc::{AllocError, Global};

/// Numbers that look random: each is the last one, shifted and mixed with itself.
#[derive(Clone, Copy)]
pub(crate) struct Random {
    pub(crate) state: u64,
}

impl Random {
    fn next(&mut self) -> u64 {
        self.state ^= self.state << 13;
        self.state ^= self.state >> 7;
        self.state ^= self.state << 17;
        self.state
    }

    fn below(&mut self, limit: u64) -> u64
        requires { 1 ≤ limit }
        ensures { result < limit }
    {
        self.next() % limit
    }

    // Once in so many times.
    fn is_time(&mut self, times: u64) -> bool
        requires { 1 ≤ times }
    {
        self.below(times) == 0
    }

    fn pick(&mut self, words: &[&'static str]) -> &'static str {
        let count = words.len() as u64;
        if count == 0 {
            return "";
        }
        let index = self.below(count) as usize;
        words.get(index).copied().unwrap_or("")
    }

    fn number(&mut self) -> u64 {
        match self.below(4) {
            0 => self.below(10),
            1 => self.below(70_000),
            2 => u64::MAX - self.below(3),
            _ => self.next(),
        }
    }
}

// What stands in the place of a word now and then.
const STRAY_WORDS: &[&'static str] = &[
    "#",
    "x",
    "r16",
    "r01",
    "0",
    "end",
    "or",
    "stm",
    "65537",
    "18446744073709551616",
    "worker",
    "maps",
    "inner",
    "-1",
    "hook",
    "r7",
];

// What stands between two lines now and then: most of it is refused in most places, the rest is skipped.
const STRAY_LINES: &[&'static str] = &[
    "end",
    "or",
    "worker",
    "script",
    "refs 1",
    "ref 0 1",
    "steps 1",
    "late",
    "stm 1",
    "print 1",
    "put 0 1 2",
];

const SKIPPED: &[&'static str] = &["\n", "   \n", "# none\n", "   #end\n", "# 1 2\n"];

const SPACES: &[&'static str] = &[" ", "  ", "         "];

const PHASES: &[&'static str] = &[
    "preparing",
    "committing",
    "commit",
    "rollback",
    "completion",
];

// The forms of statements: a capital stands for a word of its kind.
const STATEMENTS: &[&'static str] = &[
    "const R N",
    "read R A",
    "write A X",
    "add R X",
    "sub R X",
    "print X",
    "check X X C",
    "need X X",
    "move A A X",
    "hook P N",
];

// What is open: an `either` of one part, one of more parts, or another block.
#[derive(Clone, Copy, PartialEq, Eq)]
enum Opened {
    OnePart,
    MoreParts,
    Other,
}

// A text that is being written.
#[derive(Drop)]
struct Draft {
    alloc: Global,
    random: Random,
    text: Vec<u8>,
    opened: Vec<Opened>,
    refs: u64,
    workers: u64,
}

impl Draft {
    fn put(&mut self, bytes: &str) -> Result<(), AllocError> {
        self.text.extend_from_slice(bytes.as_bytes())
    }

    // A word behind those of the line, or a stray one in its place.
    fn word(&mut self, word: &str) -> Result<(), AllocError> {
        if !self.text.is_empty() && !self.text.ends_with(b"\n") {
            self.put(" ")?;
        }
        if self.random.is_time(8) {
            let spaces = self.random.pick(SPACES);
            self.put(spaces)?;
        }
        if self.random.is_time(400) {
            let stray = self.random.pick(STRAY_WORDS);
            self.put(stray)
        } else {
            self.put(word)
        }
    }

    fn number(&mut self, number: u64) -> Result<(), AllocError> {
        let digits = format!(in self.alloc; "{number}")?;
        let zeros = self.random.is_time(8) && digits.len() < 18;
        let word = format!(in self.alloc; "{}{digits}", if zeros { "00" } else { "" })?;
        self.word(&word)
    }

    fn register(&mut self) -> Result<(), AllocError> {
        let word = format!(in self.alloc; "r{}", self.random.below(16))?;
        self.word(&word)
    }

    // The line ends, and skipped or stray ones may follow.
    fn end_line(&mut self) -> Result<(), AllocError> {
        if self.random.is_time(8) {
            self.put("   ")?;
        }
        self.put("\n")?;
        if self.random.is_time(10) {
            let skipped = self.random.pick(SKIPPED);
            self.put(skipped)?;
        }
        if self.random.is_time(200) {
            let stray = self.random.pick(STRAY_LINES);
            self.put(stray)?;
            self.put("\n")?;
        }
        Ok(())
    }

    // A word of this kind: a register, a number, either of them, a reference, a code, a worker, a phase, or itself.
    fn word_of(&mut self, kind: &str) -> Result<(), AllocError> {
        if kind == "R" || (kind == "X" && self.random.is_time(2)) {
            return self.register();
        }
        let number = match kind {
            "N" | "X" => self.random.number(),
            "A" => self.random.below(self.refs.max(1)),
            "C" => 1 + self.random.below(65_535),
            "W" => 1 + self.random.below(self.workers.clamp(1, 16)),
            "P" => {
                let phase = self.random.pick(PHASES);
                return self.word(phase);
            }
            _ => return self.word(kind),
        };
        self.number(number)
    }

    // A line of this form.
    fn line(&mut self, form: &str) -> Result<(), AllocError> {
        for kind in form.split(' ') {
            self.word_of(kind)?;
        }
        self.end_line()
    }

    fn open(&mut self, block: Opened, form: &str) -> Result<(), AllocError> {
        self.opened.push(block)?;
        self.line(form)
    }

    // The innermost block ends, an `either` with two parts at least.
    fn close(&mut self) -> Result<(), AllocError> {
        match self.opened.pop() {
            None => Ok(()),
            Some(Opened::OnePart) => {
                self.line("or")?;
                self.line("end")
            }
            Some(_) => self.line("end"),
        }
    }

    // A further part, where the innermost block is an `either`.
    fn part(&mut self) -> Result<(), AllocError> {
        match self.opened.pop() {
            None => Ok(()),
            Some(Opened::Other) => {
                self.opened.push(Opened::Other)?;
                Ok(())
            }
            Some(_) => self.open(Opened::MoreParts, "or"),
        }
    }

    // A line of a script.
    fn inside(&mut self) -> Result<(), AllocError> {
        match self.random.below(10) {
            0 => self.open(Opened::Other, "inner R"),
            1 => self.open(Opened::OnePart, "either"),
            2 => self.open(Opened::Other, "late"),
            3 => self.close(),
            4 => self.part(),
            _ => {
                let form = self.random.pick(STATEMENTS);
                self.line(form)
            }
        }
    }

    fn script(&mut self) -> Result<(), AllocError> {
        self.line("script")?;
        let count = self.random.below(12);
        for _ in 0..count {
            self.inside()?;
        }
        for _ in 0..count {
            self.close()?;
        }
        self.line("end")
    }

    fn worker(&mut self) -> Result<(), AllocError> {
        self.line("worker")?;
        let count = self.random.below(3);
        for _ in 0..count {
            self.script()?;
        }
        Ok(())
    }

    fn openings(&mut self) -> Result<(), AllocError> {
        for cell in 0..self.refs {
            if self.random.is_time(3) {
                self.word("ref")?;
                self.number(cell)?;
                self.line("N")?;
            }
        }
        Ok(())
    }

    fn steps(&mut self) -> Result<(), AllocError> {
        if self.workers == 0 {
            return Ok(());
        }
        self.word("steps")?;
        let count = self.random.below(40);
        for _ in 0..count {
            self.word_of("W")?;
        }
        self.line("W")
    }

    fn job(&mut self) -> Result<(), AllocError> {
        self.line("stm 1")?;
        self.word("refs")?;
        self.number(self.refs)?;
        self.end_line()?;
        self.openings()?;
        for _ in 0..self.workers {
            self.worker()?;
        }
        let count = self.random.below(3);
        for _ in 0..count {
            self.steps()?;
        }
        Ok(())
    }
}

/// A text, and the numbers that come next.
pub(crate) fn random_text(alloc: Global, random: Random) -> Result<(Vec<u8>, Random), AllocError> {
    let mut random = random;
    let refs = if random.is_time(8) {
        0
    } else {
        random.below(5)
    };
    let workers = random.below(4);
    let mut draft = Draft {
        alloc,
        random,
        text: Vec::new(alloc),
        opened: Vec::new(alloc),
        refs,
        workers,
    };
    if draft.random.is_time(10) {
        draft.put("# a job\n\n")?;
    }
    draft.job()?;
    if draft.random.is_time(8) {
        draft.text.pop();
    }
    Ok((draft.text, draft.random))
}
