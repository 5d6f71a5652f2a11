//! Attempts by hand, word by word: caller 7 makes its third attempt, and the clock may come to 9. Words are
//! written out by their bits.
ghost use Rattle.std.specs.Prelude.{◌≡◌, ◌^◌, IsTrue};
ghost use Rattle.stm_model.specs.Moves.{MayAsk};

use meta_word::{Phase, Policy};
use std::alloc::Global;
use std::process::Abort;
use std::test::Fail;
use stm_core::{Ask, Attempt, Ending, Next, Reply};
use stm_model::{Access, Addr, Cause, HookPhase, Meta, Note, Settings, TxnStatus, Word};

mod commits;
mod ends;
mod handlers;
mod large;
mod levels;
mod refusals;

// The lowest bit of the owner, and the bits above it.
const OWNER: u64 = 2_251_799_813_685_248;

const PENDING: u64 = 4_611_686_018_427_387_904;

const CHANGING: u64 = 9_223_372_036_854_775_808;

const OWNER_AND_CHANGING: u64 = 13_832_806_255_468_478_464;

const CLOCK: Next = Next::Access(Access::Load(Word::Clock));

// The third attempt of caller 7, whose rounds and tries are few.
fn begin(alloc: Global) -> Attempt
    ensures clock { result.attempt.settings.clock ≡ 9 }
    ensures serial { result.attempt.serial ≡ 3 }
{
    let settings = Settings {
        callers: 8,
        policy: Policy::GiveWay,
        tries: 1,
        clock: 9,
        attempts: 5,
    };
    Attempt::begin(alloc, 7, 3, settings)
}

// The same once it has found this clock.
fn begun(rt: &impl Abort, alloc: Global, clock: u64) -> Attempt
    ensures { result.attempt.settings.clock ≡ 9 }
{
    let mut attempt = begin(alloc);
    go(
        rt,
        &mut attempt,
        &[(store(Word::Status(7), 13), 8), (CLOCK, clock)],
    );
    attempt
}

// The attempt does these things, and finds these words.
fn go(rt: &impl Abort, attempt: &mut Attempt, steps: &[(Next, u64)])
    requires { attempt.old.attempt.settings.clock ≡ 9 }
    ensures { attempt.new.attempt.settings.clock ≡ 9 }
{
    for (next, word) in steps {
        assert_eq!(rt; attempt.next(), *next);
        answer(rt, attempt, *word);
    }
}

// What the attempt does next is done, and this word is found.
#[tactic(auto, unfolding(stm_core::specs::Machine::IsToRun))]
fn answer(rt: &impl Abort, attempt: &mut Attempt, word: u64)
    requires { attempt.old.attempt.settings.clock ≡ 9 }
    ensures clock { attempt.new.attempt.settings.clock ≡ 9 }
    ensures serial { attempt.new.attempt.serial ≡ attempt.old.attempt.serial }
{
    match attempt.next() {
        Next::Access(Access::Load(Word::Clock)) | Next::Decide { .. } => {
            assert!(rt; word <= 9);
            attempt.take(word);
        }
        Next::Access(_) => attempt.take(word),
        Next::Ring(_) | Next::Run { .. } => attempt.ran(),
        Next::Before { .. } | Next::Reply(_) => assert!(rt; false, "it waits to be asked"),
    }
}

// The attempt, which waits for it, is asked for something.
fn ask(rt: &impl Abort, attempt: &mut Attempt, ask: Ask)
    requires { attempt.old.attempt.settings.clock ≡ 9 }
    ensures clock { attempt.new.attempt.settings.clock ≡ 9 }
    ensures serial { attempt.new.attempt.serial ≡ attempt.old.attempt.serial }
{
    match attempt.next() {
        Next::Before { .. } | Next::Reply(Reply::Ready | Reply::Value(_) | Reply::Stopped(_)) => {
            assert!(rt; may_ask(attempt, ask), "it may not be asked so");
            attempt.ask(ask);
        }
        _ => assert!(rt; false, "it can't be asked"),
    }
}

// Whether an attempt that waits for it may take the ask.
#[tactic(auto, unfolding(stm_model::specs::Moves::MayAsk))]
fn may_ask(attempt: &Attempt, ask: Ask) -> bool
    ensures { IsTrue result → MayAsk (2 ^ 32) attempt.now.attempt ask }
{
    match ask {
        Ask::Get(_) | Ask::Set(_, _) | Ask::Enter | Ask::Hook(_, _) | Ask::Later(_) => true,
        Ask::Keep | Ask::Undo => attempt.depth() > 0,
        Ask::Finish => !attempt.is_late(),
        Ask::Abandon(cause) => matches!(cause, Cause::Retry | Cause::User { .. }),
    }
}

// The attempt is asked for these things, none of which needs an access, and each is done.
fn do_at_once(rt: &impl Abort, attempt: &mut Attempt, asks: &[Ask])
    requires { attempt.old.attempt.settings.clock ≡ 9 }
    ensures { attempt.new.attempt.settings.clock ≡ 9 }
{
    for asked in asks {
        ask(rt, attempt, *asked);
        assert_eq!(rt; attempt.next(), Next::Reply(Reply::Ready));
    }
}

// The before-commit body that has its turn is over.
#[tactic(auto, unfolding(stm_core::specs::Machine::IsToRun))]
fn end_late(rt: &impl Abort, attempt: &mut Attempt)
    requires { attempt.old.attempt.settings.clock ≡ 9 }
    ensures { attempt.new.attempt.settings.clock ≡ 9 }
{
    assert!(rt; attempt.is_late());
    match attempt.next() {
        Next::Before { .. } | Next::Reply(Reply::Ready | Reply::Stopped(_)) => attempt.ran(),
        _ => assert!(rt; false, "no body has its turn"),
    }
}

// The attempt goes on to its reply, alone on cells of version 0 whose values are twice their numbers. These
// are the accesses that it makes, with those before.
fn settle(rt: &impl Abort, attempt: &mut Attempt, before: u32) -> u32
    requires { attempt.old.attempt.settings.clock ≡ 9 }
    ensures clock { attempt.new.attempt.settings.clock ≡ 9 }
    ensures serial { attempt.new.attempt.serial ≡ attempt.old.attempt.serial }
{
    let mut accesses = before;
    for _ in 0..10_000 {
        match attempt.next() {
            Next::Access(access) => answer(rt, attempt, found(access)),
            Next::Decide { old } => answer(rt, attempt, old),
            _ => break,
        }
        accesses = accesses.saturating_add(1);
    }
    accesses
}

// The word that an access finds.
fn found(access: Access) -> u64 {
    match access {
        Access::Load(Word::Value(cell)) => 2 * u64::from(cell.0),
        Access::Exchange { old, .. } => old,
        _ => 0,
    }
}

// A cell is read, and these are its metadata word and its value.
fn read(rt: &impl Abort, attempt: &mut Attempt, cell: u32, meta: u64, value: u64)
    requires { attempt.old.attempt.settings.clock ≡ 9 }
    ensures { attempt.new.attempt.settings.clock ≡ 9 }
{
    ask(rt, attempt, Ask::Get(Addr(cell)));
    go(
        rt,
        attempt,
        &[
            (look(cell), meta),
            (load(Word::Value(Addr(cell))), value),
            (look(cell), meta),
        ],
    );
    assert_eq!(rt; attempt.next(), Next::Reply(Reply::Value(value)));
}

// A free cell of this version is written for the first time.
fn write(rt: &impl Abort, attempt: &mut Attempt, cell: u32, version: u64, value: u64)
    requires { attempt.old.attempt.settings.clock ≡ 9 }
    ensures { attempt.new.attempt.settings.clock ≡ 9 }
{
    ask(rt, attempt, Ask::Set(Addr(cell), value));
    go(
        rt,
        attempt,
        &[(look(cell), version), (own(cell, version), version)],
    );
    assert_eq!(rt; attempt.next(), Next::Reply(Reply::Ready));
}

fn load(word: Word) -> Next {
    Next::Access(Access::Load(word))
}

fn look(cell: u32) -> Next {
    load(Word::Meta(Addr(cell)))
}

fn store(word: Word, new: u64) -> Next {
    Next::Access(Access::Store(word, new))
}

// The exchange that makes caller 7 the owner.
fn own(cell: u32, old: u64) -> Next {
    Next::Access(Access::Exchange {
        word: Word::Meta(Addr(cell)),
        old,
        new: old.wrapping_add(7 * OWNER),
    })
}

// The exchange from active to preparing.
fn prepare() -> Next {
    Next::Access(Access::Exchange {
        word: Word::Status(7),
        old: 13,
        new: 14,
    })
}

// The changing bit of a cell is set.
fn mark(cell: u32) -> Next {
    Next::Access(Access::SetBits(Word::Meta(Addr(cell)), CHANGING))
}

// The owner's bits and the changing bit of a cell are cleared.
fn release(cell: u32) -> Next {
    Next::Access(Access::ClearBits(Word::Meta(Addr(cell)), OWNER_AND_CHANGING))
}

// The status is stored as idle.
fn close() -> Next {
    store(Word::Status(7), 12)
}

fn run(phase: HookPhase, token: u64) -> Next {
    Next::Run { phase, token }
}

// The attempt is over, and has ended so.
fn ended(rt: &impl Abort, attempt: &Attempt, ending: Ending) {
    assert_eq!(rt; attempt.next(), Next::Reply(Reply::Ended(ending)));
}
