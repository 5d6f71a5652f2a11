//! Attempts by hand on seats of one table.
ghost use Rattle.std.specs.Prelude.{◌≡◌, length};
ghost use Rattle.ref_table.specs.Seats.{IsSameSeat};
ghost use Rattle.table_tests.specs.Driving.{Rests};

use crate::driver::{ZERO, ask, begin, finish};
use meta_word::PENDING_BIT;
use ref_table::{Seat, Stm};
use std::test::Fail;
use stm_core::{Ask, Ending, Reply};
use stm_model::{Access, Free, Note, Policy, Rest, Settings, Word};

const SETTINGS: Settings = Settings {
    callers: 2,
    policy: Policy::Look(0),
    tries: 3,
    clock: 2_251_799_813_685_247,
    attempts: 100,
};

// The caller, which has no attempt in flight, waits for cell 0. Tells the metadata word that it found.
fn wait_for_zero(stm: &Stm<Free>, seat: &mut Seat<Free>) -> u64
    requires own { seat.old.table ≡ stm.now.table }
    requires cells { length stm.now.opening ≡ 2 }
    requires rests { Rests seat.old }
    ensures same { IsSameSeat seat.old seat.new }
    ensures rests { Rests seat.new }
{
    let access = Access::SetBits(Word::Meta(ZERO), PENDING_BIT);
    seat.perform(stm, access, &Rest)
}

#[test]
fn what_commits_is_read_by_whoever_heeds(rt: HostRuntime) -> Result<(), Fail> {
    let alloc = rt.alloc();
    let (mut maker, stm) = Stm::new(alloc, &[0, 0], SETTINGS)?;
    let (Ok(mut first), Ok(mut second)) = (maker.caller(&stm), maker.caller(&stm)) else {
        panic!(rt; "it has two seats")
    };

    let mut writer = begin(&rt, alloc, &stm, &mut first);
    let told = ask(&rt, &stm, &mut first, &mut writer, Ask::Set(ZERO, 5));
    assert_eq!(rt; told.reply, Reply::Ready);
    let (ending, rings) = finish(&rt, &stm, &mut first, writer);
    assert_eq!(rt; (ending, rings), (Ending::Committed { stamp: 1 }, 0));
    assert_eq!(rt; first.serial(), 1);

    let mut reader = begin(&rt, alloc, &stm, &mut first);
    let told = ask(&rt, &stm, &mut first, &mut reader, Ask::Get(ZERO));
    assert_eq!(rt; told.reply, Reply::Value(5));
    let (ending, _) = finish(&rt, &stm, &mut first, reader);
    assert_eq!(rt; ending, Ending::Read { prefix: 1 });
    assert_eq!(rt; (first.serial(), first.clock()), (2, 1));

    let mark = first.mark(&stm);
    second.heed(&stm, mark);
    let mut other = begin(&rt, alloc, &stm, &mut second);
    let told = ask(&rt, &stm, &mut second, &mut other, Ask::Get(ZERO));
    assert_eq!(rt; told.reply, Reply::Value(5));
    let (ending, _) = finish(&rt, &stm, &mut second, other);
    assert_eq!(rt; ending, Ending::Read { prefix: 1 });
    assert_eq!(rt;
        (second.number(), second.serial(), second.clock()),
        (2, 1, 1)
    );

    maker.gather(&stm, first);
    maker.gather(&stm, second);
    let Ok(finished) = stm.close(maker) else {
        panic!(rt; "no memory")
    };
    assert_eq!(rt; finished.clock, 1);
    assert_eq!(rt; finished.values.as_slice(), [5, 0].as_slice());
    Ok(())
}

#[test]
fn who_waits_leaves_a_bit_that_the_next_commit_rings_for(rt: HostRuntime) -> Result<(), Fail> {
    let alloc = rt.alloc();
    let (mut maker, stm) = Stm::new(alloc, &[0, 0], SETTINGS)?;
    let (Ok(mut first), Ok(mut second)) = (maker.caller(&stm), maker.caller(&stm)) else {
        panic!(rt; "it has two seats")
    };

    let found = wait_for_zero(&stm, &mut second);
    assert_eq!(rt; found, 0);
    assert_eq!(rt; (second.serial(), second.clock()), (0, 0));

    let mut writer = begin(&rt, alloc, &stm, &mut first);
    ask(&rt, &stm, &mut first, &mut writer, Ask::Set(ZERO, 5));
    let (ending, rings) = finish(&rt, &stm, &mut first, writer);
    assert_eq!(rt; (ending, rings), (Ending::Committed { stamp: 1 }, 1));

    // The release has taken the bit.
    let found = wait_for_zero(&stm, &mut second);
    assert_eq!(rt; found, 1);
    let found = wait_for_zero(&stm, &mut second);
    assert_eq!(rt; found, 1 | PENDING_BIT);

    let mut reader = begin(&rt, alloc, &stm, &mut second);
    let told = ask(&rt, &stm, &mut second, &mut reader, Ask::Get(ZERO));
    assert_eq!(rt; told.reply, Reply::Value(5));
    finish(&rt, &stm, &mut second, reader);
    assert_eq!(rt; (second.serial(), second.clock()), (1, 1));
    Ok(())
}

#[test]
fn lists_that_are_lent_come_back_with_their_room(rt: HostRuntime) -> Result<(), Fail> {
    let alloc = rt.alloc();
    let (mut maker, stm) = Stm::new(alloc, &[0, 0], SETTINGS)?;
    let Ok(mut seat) = maker.caller(&stm) else {
        panic!(rt; "it has a seat")
    };
    let mut lists = seat.lend();
    assert_eq!(rt; lists.reads.spare(), 0);
    lists.reads.reserve(100)?;
    let room = lists.reads.spare();
    assert!(rt; room >= 100);
    let noted = Note {
        addr: ZERO,
        version: 0,
        value: 0,
    };
    assert!(rt; lists.reads.find(ZERO).is_none());
    lists.reads.add(noted)?;
    seat.give_back(lists);

    let lists = seat.lend();
    assert_eq!(rt; (lists.reads.len(), lists.reads.spare()), (0, room));
    let other = seat.lend();
    assert_eq!(rt; other.reads.spare(), 0);
    Ok(())
}
