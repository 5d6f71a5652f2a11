//! Attempts on a table of two cells, under the law that any heap may follow any other. An attempt is driven to
//! its reply, access by access.
ghost use Rattle.std.specs.Prelude.{◌≡◌, ◌≢◌, ◌^◌, IsTrue, length};
ghost use Rattle.opacity.specs.Words.{IsOfTable};
ghost use Rattle.ref_table.specs.Seats.{IsSameSeat, terms_in};
ghost use Rattle.stm_model.specs.Attempt.{Ended};
ghost use Rattle.stm_model.specs.Moves.{AwaitsAsk, MayAsk};
ghost use Rattle.stm_model.specs.World.{Terms, cells_in};
ghost use Rattle.table_tests.specs.Driving.{IsOn, Rests};

use meta_word::{MAX_OWNER, MAX_SERIAL, MAX_VERSION};
use ref_table::{Seat, Stm};
use std::alloc::Global;
use std::process::Abort;
use stm_core::{Ask, Attempt, Ending, Next, Reply};
use stm_model::{Access, Addr, Free, Word};

pub const ZERO: Addr = Addr(0);

pub const ONE: Addr = Addr(1);

/// The most accesses and rings of an attempt between two replies.
const MOST_STEPS: u32 = 100_000;

/// What came of an ask: the reply, and how often the attempt rang on the way.
#[derive(Clone, Copy, Debug, PartialEq, Eq)]
pub struct Told {
    pub reply: Reply,
    pub rings: u32,
}

// Whether a table of two cells and so many callers has the word.
#[tactic(auto, unfolding(opacity::specs::Words::IsOfTable))]
fn is_of_table(word: Word, callers: u16) -> bool
    ensures { (terms : Terms) → terms.callers ≡ callers → cells_in terms ≡ 2 → IsTrue result → IsOfTable terms word }
{
    match word {
        Word::Clock => true,
        Word::Status(caller) => 0 < caller && caller <= callers,
        Word::Meta(addr) | Word::Value(addr) => addr.0 < 2,
    }
}

// Whether it may be asked so, over two cells.
#[tactic(auto, unfolding(stm_model::specs::Moves::MayAsk))]
fn may_ask(attempt: &Attempt, ask: Ask) -> bool
    ensures cells { IsTrue result → MayAsk 2 attempt.now.attempt ask }
    ensures any { IsTrue result → MayAsk (2 ^ 32) attempt.now.attempt ask }
{
    match ask {
        Ask::Get(addr) => addr.0 < 2,
        Ask::Set(addr, _) => addr.0 < 2,
        Ask::Finish => !attempt.is_late(),
        _ => false,
    }
}

// Whether the attempt makes an access next, or waits to be asked.
#[tactic(auto, using(crate::proofs::Driven::goes_so))]
fn goes_on(attempt: &Attempt) -> bool
    ensures { IsTrue result → attempt.now.attempt.stage ≢ Ended }
{
    match attempt.next() {
        Next::Access(_) => true,
        Next::Decide { .. } => true,
        Next::Reply(Reply::Ready) => true,
        Next::Reply(Reply::Value(_)) => true,
        Next::Reply(Reply::Stopped(_)) => true,
        _ => false,
    }
}

// Whether the attempt waits to be asked.
fn waits(attempt: &Attempt) -> bool
    ensures { IsTrue result → AwaitsAsk attempt.now.attempt }
{
    match attempt.next() {
        Next::Reply(Reply::Ready) => true,
        Next::Reply(Reply::Value(_)) => true,
        Next::Reply(Reply::Stopped(_)) => true,
        _ => false,
    }
}

// The next access of the attempt, or its next ring. Tells whether it was a ring.
fn advance(rt: &impl Abort, stm: &Stm<Free>, seat: &mut Seat<Free>, attempt: &mut Attempt) -> bool
    requires own { seat.old.table ≡ stm.now.table }
    requires cells { length stm.now.opening ≡ 2 }
    requires is_on { IsOn (terms_in stm.now) seat.old attempt.old.attempt }
    ensures same { IsSameSeat seat.old seat.new }
    ensures is_on { IsOn (terms_in stm.now) seat.new attempt.new.attempt }
{
    match attempt.next() {
        Next::Access(access) => {
            assert!(rt;
                is_of_table(access.word(), stm.settings().callers),
                "no such word"
            );
            let found = seat.perform(stm, access, &*attempt);
            attempt.take(found);
            false
        }
        Next::Decide { old } => {
            assert!(rt; old < MAX_VERSION);
            let access = Access::Exchange {
                word: Word::Clock,
                old,
                new: old + 1,
            };
            let found = seat.perform(stm, access, &*attempt);
            attempt.take(found);
            false
        }
        Next::Ring(_) => {
            attempt.ran();
            assert!(rt; goes_on(attempt), "it is over by a ring");
            true
        }
        _ => {
            assert!(rt; false, "it waits");
            false
        }
    }
}

// The attempt is driven to its reply.
fn settle(rt: &impl Abort, stm: &Stm<Free>, seat: &mut Seat<Free>, attempt: &mut Attempt) -> Told
    requires own { seat.old.table ≡ stm.now.table }
    requires cells { length stm.now.opening ≡ 2 }
    requires is_on { IsOn (terms_in stm.now) seat.old attempt.old.attempt }
    ensures same { IsSameSeat seat.old seat.new }
    ensures is_on { IsOn (terms_in stm.now) seat.new attempt.new.attempt }
{
    let mut rings = 0u32;
    for _ in 0..MOST_STEPS {
        if let Next::Reply(reply) = attempt.next() {
            return Told { reply, rings };
        }
        if advance(rt, stm, seat, attempt) {
            rings = rings.saturating_add(1);
        }
    }
    panic!(rt; "it doesn't come to a reply")
}

/// The caller's next attempt begins.
pub fn begin(rt: &impl Abort, alloc: Global, stm: &Stm<Free>, seat: &mut Seat<Free>) -> Attempt
    requires own { seat.old.table ≡ stm.now.table }
    requires cells { length stm.now.opening ≡ 2 }
    requires rests { Rests seat.old }
    ensures same { IsSameSeat seat.old seat.new }
    ensures is_on { IsOn (terms_in stm.now) seat.new result.attempt }
{
    let settings = stm.settings();
    let serial = seat.serial();
    assert!(rt; settings.policy.looks() <= 1000 && settings.clock <= MAX_VERSION);
    assert!(rt; settings.attempts <= MAX_SERIAL);
    assert!(rt; serial < settings.attempts, "all attempts were made");
    let number = seat.number();
    assert!(rt; number <= MAX_OWNER);
    let mut attempt = Attempt::begin(alloc, number, serial + 1, settings);
    settle(rt, stm, seat, &mut attempt);
    attempt
}

// The attempt is asked for something, where it waits to be asked.
fn put(rt: &impl Abort, stm: &Stm<Free>, seat: &Seat<Free>, attempt: &mut Attempt, ask: Ask)
    requires cells { length stm.now.opening ≡ 2 }
    requires is_on { IsOn (terms_in stm.now) seat.now attempt.old.attempt }
    ensures { IsOn (terms_in stm.now) seat.now attempt.new.attempt }
{
    let _ = (stm, seat);
    if !waits(attempt) {
        return;
    }
    assert!(rt; may_ask(attempt, ask), "it may not be asked so");
    attempt.ask(ask);
    assert!(rt; goes_on(attempt), "something is due");
}

/// The attempt is asked for something, where it waits to be asked, and driven to its reply.
pub fn ask(
    rt: &impl Abort,
    stm: &Stm<Free>,
    seat: &mut Seat<Free>,
    attempt: &mut Attempt,
    ask: Ask,
) -> Told
    requires own { seat.old.table ≡ stm.now.table }
    requires cells { length stm.now.opening ≡ 2 }
    requires is_on { IsOn (terms_in stm.now) seat.old attempt.old.attempt }
    ensures same { IsSameSeat seat.old seat.new }
    ensures is_on { IsOn (terms_in stm.now) seat.new attempt.new.attempt }
{
    put(rt, stm, seat, attempt, ask);
    settle(rt, stm, seat, attempt)
}

/// The attempt's body is over, and it commits or is rolled back. Tells how often it rang.
pub fn finish(
    rt: &impl Abort,
    stm: &Stm<Free>,
    seat: &mut Seat<Free>,
    mut attempt: Attempt,
) -> (Ending, u32)
    requires own { seat.old.table ≡ stm.now.table }
    requires cells { length stm.now.opening ≡ 2 }
    requires is_on { IsOn (terms_in stm.now) seat.old attempt.attempt }
    ensures same { IsSameSeat seat.old seat.new }
    ensures rests { Rests seat.new }
{
    let told = ask(rt, stm, seat, &mut attempt, Ask::Finish);
    let Next::Reply(Reply::Ended(ending)) = attempt.next() else {
        panic!(rt; "it isn't over")
    };
    (ending, told.rings)
}
