//! Attempts that are never refused anything: readers, bodies that ask to be run again, and what is left for the
//! next attempt.
ghost use Rattle.std.specs.Prelude.{◌≡◌};

use super::{
    CLOCK, OWNER, PENDING, ask, begin, begun, close, ended, go, load, look, read, release, settle,
    store, write,
};
use std::process::Abort;
use std::test::Fail;
use stm_core::{Ask, Attempt, Ending, Next, Reply};
use stm_model::{Addr, Cause, Note, Word};

#[test]
fn a_newer_version_moves_the_prefix(rt: HostRuntime) {
    let mut attempt = begun(&rt, rt.alloc(), 1);
    read(&rt, &mut attempt, 2, 1, 10);
    ask(&rt, &mut attempt, Ask::Get(Addr(3)));
    go(&rt, &mut attempt, &[(look(3), 4), (CLOCK, 5), (look(2), 1)]);
    go(
        &rt,
        &mut attempt,
        &[(load(Word::Value(Addr(3))), 30), (look(3), 4)],
    );
    assert_eq!(rt; attempt.next(), Next::Reply(Reply::Value(30)));
    ask(&rt, &mut attempt, Ask::Finish);
    go(&rt, &mut attempt, &[(close(), 13)]);
    ended(&rt, &attempt, Ending::Read { prefix: 5 });
}

#[test]
fn what_was_read_or_written_is_answered_with_no_access(rt: HostRuntime) {
    let mut attempt = begun(&rt, rt.alloc(), 4);
    read(&rt, &mut attempt, 2, 1, 10);
    ask(&rt, &mut attempt, Ask::Get(Addr(2)));
    assert_eq!(rt; attempt.next(), Next::Reply(Reply::Value(10)));
    write(&rt, &mut attempt, 2, 1, 20);
    ask(&rt, &mut attempt, Ask::Get(Addr(2)));
    assert_eq!(rt; attempt.next(), Next::Reply(Reply::Value(20)));
    ask(&rt, &mut attempt, Ask::Set(Addr(2), 21));
    assert_eq!(rt; attempt.next(), Next::Reply(Reply::Ready));
    ask(&rt, &mut attempt, Ask::Get(Addr(2)));
    assert_eq!(rt; attempt.next(), Next::Reply(Reply::Value(21)));
}

#[test]
fn who_is_to_be_run_again_gives_its_cells_back(rt: HostRuntime) {
    let mut attempt = begun(&rt, rt.alloc(), 4);
    write(&rt, &mut attempt, 2, 1, 20);
    write(&rt, &mut attempt, 3, 0, 30);
    ask(&rt, &mut attempt, Ask::Abandon(Cause::Retry));
    let steps = [
        (release(2), 7 * OWNER + 1),
        (release(3), PENDING + 7 * OWNER),
        (Next::Ring(Addr(3)), 0),
        (close(), 13),
    ];
    go(&rt, &mut attempt, &steps);
    ended(
        &rt,
        &attempt,
        Ending::Rolled {
            cause: Cause::Retry,
            prefix: 4,
        },
    );
}

#[test]
fn what_it_has_read_outlives_it(rt: HostRuntime) {
    let mut attempt = begun(&rt, rt.alloc(), 4);
    read(&rt, &mut attempt, 2, 1, 10);
    read(&rt, &mut attempt, 5, 4, 50);
    ask(&rt, &mut attempt, Ask::Finish);
    go(&rt, &mut attempt, &[(close(), 13)]);
    if let Next::Reply(Reply::Ended(_)) = attempt.next() {
        let reads = attempt.into_reads();
        assert_eq!(rt; reads.len(), 2);
        assert_eq!(rt; reads.at(0), note(2, 1, 10));
        assert_eq!(rt; reads.at(1), note(5, 4, 50));
    }
}

fn note(cell: u32, version: u64, value: u64) -> Note {
    Note {
        addr: Addr(cell),
        version,
        value,
    }
}

#[test]
fn reserved_room_is_enough_for_so_many_cells(rt: HostRuntime) -> Result<(), Fail> {
    let mut attempt = begin(rt.alloc());
    attempt.reserve(4, 4)?;
    go(
        &rt,
        &mut attempt,
        &[(store(Word::Status(7), 13), 8), (CLOCK, 0)],
    );
    for cell in 0..4 {
        read(&rt, &mut attempt, cell, 0, 0);
    }
    for cell in 0..4 {
        write(&rt, &mut attempt, cell, 0, 1);
    }
    assert_eq!(rt; attempt.reads().len(), 4);
    assert_eq!(rt; attempt.writes().len(), 4);
    Ok(())
}

// The attempt begins, reads two cells and writes one, alone.
fn read_and_write(rt: &impl Abort, attempt: &mut Attempt)
    requires { attempt.old.attempt.settings.clock ≡ 9 }
    ensures clock { attempt.new.attempt.settings.clock ≡ 9 }
    ensures serial { attempt.new.attempt.serial ≡ attempt.old.attempt.serial }
{
    settle(rt, attempt, 0);
    ask(rt, attempt, Ask::Get(Addr(0)));
    settle(rt, attempt, 0);
    ask(rt, attempt, Ask::Get(Addr(1)));
    settle(rt, attempt, 0);
    ask(rt, attempt, Ask::Set(Addr(2), 5));
    settle(rt, attempt, 0);
    assert_eq!(rt; attempt.next(), Next::Reply(Reply::Ready));
}

#[test]
fn the_next_attempt_has_the_room_of_the_former(rt: HostRuntime) -> Result<(), Fail> {
    let mut attempt = begin(rt.alloc());
    attempt.reserve(2, 1)?;
    read_and_write(&rt, &mut attempt);
    ask(&rt, &mut attempt, Ask::Finish);
    settle(&rt, &mut attempt, 0);
    ended(&rt, &attempt, Ending::Committed { stamp: 1 });
    if let Next::Reply(Reply::Ended(_)) = attempt.next() {
        attempt.again(4);
        let room = attempt.room();
        assert!(rt; room.reads >= 2 && room.writes >= 1);
        read_and_write(&rt, &mut attempt);
    }
    Ok(())
}
