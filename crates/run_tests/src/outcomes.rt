//! How attempts end.
ghost use Rattle.std.specs.Prelude.{◌≡◌, length};
ghost use Rattle.stm_model.specs.Refusing.{IsOfBody};
ghost use Rattle.run_tests.specs.Tables.{Begins};

use crate::bodies::{Codes, Deep, Fails, Gets, Sets};
use crate::guide::tables::{ONE, SETTINGS, ZERO, next_seat, noted_once, try_once, wait_for};
use ref_views::Ref;
use std::process::Abort;
use std::test::Fail;
use stm_model::{Free, Note, Settings};
use txn_run::{Cause, Outcome, Seat, Stm};

// Writes 5 to cell 0.
fn five() -> Sets
    ensures { result.cell.addr.0 ≡ 0 }
{
    Sets {
        cell: Ref::new(ZERO),
        value: 5,
    }
}

// Reads cell 0.
fn zero() -> Gets
    ensures { result.cell.addr.0 ≡ 0 }
{
    Gets {
        cell: Ref::new(ZERO),
    }
}

// Reads cell 1, writes to it and answers the cause.
fn fails_with(cause: Cause) -> Fails
    ensures { (result.cell.addr.0 ≡ 1) × (result.cause ≡ cause) }
{
    Fails {
        cell: Ref::new(ONE),
        cause,
    }
}

#[test]
fn a_writer_has_its_stamp_and_a_reader_its_prefix(rt: HostRuntime) -> Result<(), Fail> {
    let alloc = rt.alloc();
    let (mut maker, stm) = Stm::new(alloc, &[0, 0], SETTINGS)?;
    let mut seat = next_seat(&rt, &mut maker, &stm);
    let outcome = try_once(&stm, &mut seat, &mut five());
    assert_eq!(rt; outcome, Outcome::Committed { out: (), stamp: 1 });
    let outcome = try_once(&stm, &mut seat, &mut zero());
    assert_eq!(rt; outcome, Outcome::Read { out: 5, prefix: 1 });
    Ok(())
}

// An attempt whose body answers the cause, after one writer.
fn for_cause(rt: &impl Abort, stm: &Stm<Free>, seat: &mut Seat<Free>, cause: Cause)
    requires begins { Begins stm.now seat.old }
    requires cells { length stm.now.opening ≡ 2 }
    requires body { IsOfBody cause }
    ensures begins { Begins stm.now seat.new }
{
    let outcome = try_once(stm, seat, &mut fails_with(cause));
    assert_eq!(rt; outcome, Outcome::Rolled { cause, prefix: 1 });
}

#[test]
fn what_a_body_answers_rolls_its_attempt_back(rt: HostRuntime) -> Result<(), Fail> {
    let alloc = rt.alloc();
    let (mut maker, stm) = Stm::new(alloc, &[0, 0], SETTINGS)?;
    let mut seat = next_seat(&rt, &mut maker, &stm);
    try_once(&stm, &mut seat, &mut five());
    for_cause(&rt, &stm, &mut seat, Cause::User { code: 7 });
    for_cause(&rt, &stm, &mut seat, Cause::Retry);
    for_cause(&rt, &stm, &mut seat, Cause::Full { used: 6, blocks: 6 });
    let outcome = try_once(&stm, &mut seat, &mut zero());
    assert_eq!(rt; outcome, Outcome::Read { out: 5, prefix: 1 });
    Ok(())
}

#[test]
fn a_retry_hands_back_what_it_read(rt: HostRuntime) -> Result<(), Fail> {
    let alloc = rt.alloc();
    let (mut maker, stm) = Stm::new(alloc, &[0, 0], SETTINGS)?;
    let mut seat = next_seat(&rt, &mut maker, &stm);
    let cause = Cause::Retry;
    let rolled = Outcome::Rolled { cause, prefix: 0 };
    let mut body = fails_with(cause);
    assert_eq!(rt; try_once(&stm, &mut seat, &mut body), rolled);
    let (outcome, reads) = noted_once(&stm, &mut seat, &mut body);
    assert_eq!(rt; outcome, rolled);
    assert_eq!(rt; reads.len(), 1);
    let noted = Note {
        addr: ONE,
        version: 0,
        value: 0,
    };
    assert_eq!(rt; reads.find(ONE), Some(noted));
    assert_eq!(rt; wait_for(&stm, &mut seat, ONE), 0);
    Ok(())
}

#[test]
fn a_block_tells_the_code_with_which_it_fails(rt: HostRuntime) -> Result<(), Fail> {
    let alloc = rt.alloc();
    let (mut maker, stm) = Stm::new(alloc, &[0, 0], SETTINGS)?;
    let mut seat = next_seat(&rt, &mut maker, &stm);
    let mut codes = Codes {
        block: fails_with(Cause::User { code: 5 }),
    };
    let outcome = try_once(&stm, &mut seat, &mut codes);
    assert_eq!(rt;
        outcome,
        Outcome::Read {
            out: Some(5),
            prefix: 0
        }
    );
    Ok(())
}

#[test]
fn a_level_too_many_rolls_back(rt: HostRuntime) -> Result<(), Fail> {
    let alloc = rt.alloc();
    let (mut maker, stm) = Stm::new(alloc, &[0, 0], SETTINGS)?;
    let mut seat = next_seat(&rt, &mut maker, &stm);
    let outcome = try_once(&stm, &mut seat, &mut Deep { levels: 65 });
    let cause = Cause::TooDeep { depth: 64 };
    assert_eq!(rt; outcome, Outcome::Rolled { cause, prefix: 0 });
    Ok(())
}

#[test]
fn attempts_are_used_up(rt: HostRuntime) -> Result<(), Fail> {
    let alloc = rt.alloc();
    let settings = Settings {
        attempts: 1,
        ..SETTINGS
    };
    let (mut maker, stm) = Stm::new(alloc, &[0, 0], settings)?;
    let mut seat = next_seat(&rt, &mut maker, &stm);
    let outcome = try_once(&stm, &mut seat, &mut five());
    assert_eq!(rt; outcome, Outcome::Committed { out: (), stamp: 1 });
    let outcome = try_once(&stm, &mut seat, &mut five());
    let cause = Cause::AttemptsEnd { serial: 1 };
    assert_eq!(rt; outcome, Outcome::Rolled { cause, prefix: 0 });
    Ok(())
}

#[test]
fn the_clock_comes_to_its_end(rt: HostRuntime) -> Result<(), Fail> {
    let alloc = rt.alloc();
    let settings = Settings {
        clock: 1,
        ..SETTINGS
    };
    let (mut maker, stm) = Stm::new(alloc, &[0, 0], settings)?;
    let mut seat = next_seat(&rt, &mut maker, &stm);
    let outcome = try_once(&stm, &mut seat, &mut five());
    assert_eq!(rt; outcome, Outcome::Committed { out: (), stamp: 1 });
    let outcome = try_once(&stm, &mut seat, &mut five());
    let cause = Cause::ClockEnd { clock: 1 };
    assert_eq!(rt; outcome, Outcome::Rolled { cause, prefix: 1 });
    let outcome = try_once(&stm, &mut seat, &mut zero());
    assert_eq!(rt; outcome, Outcome::Read { out: 5, prefix: 1 });
    Ok(())
}

#[test]
fn who_heeds_a_mark_reads_what_was_committed(rt: HostRuntime) -> Result<(), Fail> {
    let alloc = rt.alloc();
    let (mut maker, stm) = Stm::new(alloc, &[0, 0], SETTINGS)?;
    let mut first = next_seat(&rt, &mut maker, &stm);
    let mut second = next_seat(&rt, &mut maker, &stm);
    try_once(&stm, &mut first, &mut five());
    let mark = first.mark(&stm);
    second.heed(&stm, mark);
    let outcome = try_once(&stm, &mut second, &mut zero());
    assert_eq!(rt; outcome, Outcome::Read { out: 5, prefix: 1 });
    maker.gather(&stm, first);
    maker.gather(&stm, second);
    let Ok(finished) = stm.close(maker) else {
        panic!(rt; "no memory")
    };
    assert_eq!(rt; finished.clock, 1);
    assert_eq!(rt; finished.values.as_slice(), [5, 0].as_slice());
    Ok(())
}
