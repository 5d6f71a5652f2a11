//! Single operations on a cell, each an attempt of its own.
ghost use Rattle.std.specs.Prelude.{◌≡◌};

use crate::guide::tables::{SETTINGS, ZERO, next_seat};
use ref_views::Ref;
use ref_views::laws::each_word_is_a_number;
use std::test::Fail;
use stm_model::Free;
use txn_run::{Caller, Outcome, Quiet, Stm};

#[test]
fn single_operations_write_what_they_say(rt: HostRuntime) -> Result<(), Fail> {
    let alloc = rt.alloc();
    let (mut maker, stm) = Stm::new(alloc, &[5, 0], SETTINGS)?;
    let mut seat = next_seat(&rt, &mut maker, &stm);
    let mut bell = Quiet;
    let mut caller = Caller {
        seat: &mut seat,
        stm: &stm,
        bell: &mut bell,
    };
    each_word_is_a_number::<Free>();
    let view = Ref::<u64>::new(ZERO).single();
    let compared = view.compare_and_set(&mut caller, 5, 6);
    let (out, stamp) = (true, 1);
    assert_eq!(rt; compared, Outcome::Committed { out, stamp });
    let compared = view.compare_and_set(&mut caller, 5, 7);
    let (out, prefix) = (false, 1);
    assert_eq!(rt; compared, Outcome::Read { out, prefix });
    let swapped = view.swap(&mut caller, 8);
    assert_eq!(rt; swapped, Outcome::Committed { out: 6, stamp: 2 });
    let written = view.set(&mut caller, 9);
    assert_eq!(rt; written, Outcome::Committed { out: (), stamp: 3 });
    let read = view.get(&mut caller);
    assert_eq!(rt; read, Outcome::Read { out: 9, prefix: 3 });
    Ok(())
}

#[test]
fn single_operations_with_closures(rt: HostRuntime) -> Result<(), Fail> {
    let alloc = rt.alloc();
    let (mut maker, stm) = Stm::new(alloc, &[5, 0], SETTINGS)?;
    let mut seat = next_seat(&rt, &mut maker, &stm);
    let mut bell = Quiet;
    let mut caller = Caller {
        seat: &mut seat,
        stm: &stm,
        bell: &mut bell,
    };
    each_word_is_a_number::<Free>();
    let view = Ref::<u64>::new(ZERO).single();
    let mut next = |value: u64| -> u64 { value.wrapping_add(1) };
    let changed = view.transform(&mut caller, &mut next);
    assert_eq!(rt; changed, Outcome::Committed { out: (), stamp: 1 });
    let former = view.get_and_transform(&mut caller, &mut next);
    assert_eq!(rt; former, Outcome::Committed { out: 6, stamp: 2 });
    let now = view.transform_and_get(&mut caller, &mut next);
    assert_eq!(rt; now, Outcome::Committed { out: 8, stamp: 3 });
    let mut none = |_: u64| -> Option<u64> { None };
    let kept = view.transform_if_defined(&mut caller, &mut none);
    let (out, prefix) = (false, 3);
    assert_eq!(rt; kept, Outcome::Read { out, prefix });
    let mut half = |value: u64| -> u64 { value / 2 };
    let halved = view.get_with(&mut caller, &mut half);
    assert_eq!(rt; halved, Outcome::Read { out: 4, prefix: 3 });
    Ok(())
}
