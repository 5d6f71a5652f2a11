//! How a table is made and closed, and its limits.
ghost use Rattle.std.specs.Prelude.{◌≡◌};

use ref_table::{MakeFault, SeatsEnd, Stm};
use std::test::Fail;
use stm_model::{Free, Policy, Settings};

const OPENING: [u64; 2] = [0, 0];

const SETTINGS: Settings = Settings {
    callers: 2,
    policy: Policy::Look(0),
    tries: 3,
    clock: 2_251_799_813_685_247,
    attempts: 100,
};

#[test]
fn seats_have_the_numbers_from_one_and_end(rt: HostRuntime) -> Result<(), Fail> {
    let (mut maker, stm) = Stm::new(rt.alloc(), &OPENING, SETTINGS)?;
    assert_eq!(rt; maker.caller(&stm).map(|seat| seat.number()), Ok(1));
    assert_eq!(rt; maker.caller(&stm).map(|seat| seat.number()), Ok(2));
    assert_eq!(rt; maker.caller(&stm).map(|seat| seat.number()), Err(SeatsEnd));
    Ok(())
}

#[test]
fn under_a_law_it_is_the_same(rt: HostRuntime) -> Result<(), Fail> {
    let (mut maker, stm) = Stm::under(rt.alloc(), Free, &OPENING, SETTINGS)?;
    assert_eq!(rt; maker.caller(&stm).map(|seat| seat.number()), Ok(1));
    assert_eq!(rt; maker.caller(&stm).map(|seat| seat.number()), Ok(2));
    assert_eq!(rt; maker.caller(&stm).map(|seat| seat.number()), Err(SeatsEnd));
    Ok(())
}

fn callers(callers: u16) -> Settings {
    Settings {
        callers,
        ..SETTINGS
    }
}

fn policy(policy: Policy) -> Settings {
    Settings { policy, ..SETTINGS }
}

fn tries(tries: u16) -> Settings {
    Settings { tries, ..SETTINGS }
}

fn clock(clock: u64) -> Settings {
    Settings { clock, ..SETTINGS }
}

fn attempts(attempts: u64) -> Settings {
    Settings {
        attempts,
        ..SETTINGS
    }
}

#[test]
fn what_is_beyond_a_limit_is_a_bad_layout(rt: HostRuntime) {
    let beyond = [
        callers(0),
        callers(2048),
        policy(Policy::Look(1001)),
        policy(Policy::Doom(1001)),
        tries(1001),
        clock(0),
        clock(2_251_799_813_685_248),
        attempts(0),
        attempts(4_611_686_018_427_387_904),
    ];
    for settings in beyond {
        match Stm::new(rt.alloc(), &OPENING, settings) {
            Ok(_) => assert!(rt; false, "{settings:?}"),
            Err(fault) => assert_eq!(rt; fault, MakeFault::BadLayout),
        }
    }
}

#[test]
fn each_limit_is_within(rt: HostRuntime) {
    let limits = [
        callers(1),
        callers(2047),
        policy(Policy::GiveWay),
        policy(Policy::Look(1000)),
        policy(Policy::Doom(1000)),
        tries(0),
        tries(1000),
        clock(1),
        clock(2_251_799_813_685_247),
        attempts(1),
        attempts(4_611_686_018_427_387_903),
    ];
    for settings in limits {
        assert!(rt;
            Stm::new(rt.alloc(), &OPENING, settings).is_ok(),
            "{settings:?}"
        );
    }
}

#[test]
fn so_many_seats_come_from_one_maker(rt: HostRuntime) -> Result<(), Fail> {
    let (mut maker, stm) = Stm::new(rt.alloc(), &OPENING, callers(2047))?;
    for number in 1..2048u16 {
        assert_eq!(rt; maker.caller(&stm).map(|seat| seat.number()), Ok(number));
    }
    assert!(rt; maker.caller(&stm).is_err());
    Ok(())
}

#[test]
fn a_table_without_cells_closes_at_once(rt: HostRuntime) -> Result<(), Fail> {
    let (maker, stm) = Stm::new(rt.alloc(), &[], SETTINGS)?;
    let Ok(finished) = stm.close(maker) else {
        panic!(rt; "no memory")
    };
    assert_eq!(rt; finished.clock, 0);
    assert_eq!(rt; finished.values.len(), 0);
    Ok(())
}
