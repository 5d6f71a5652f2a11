//! Levels to the deepest, and what each hands back.
use crate::{DEEPEST, KeptLevels, Level, LevelFault, Levels, TooDeep, WriteMark};
use std::process::Abort;

// A level that is told by one number.
fn level(number: usize) -> Level {
    Level {
        writes: WriteMark {
            entries: number,
            restores: 2,
        },
        hooks: 3,
        laters: number,
    }
}

// Undoes the innermost level. It tells whether that was this one.
fn gives(rt: &impl Abort, levels: &mut Levels, number: usize) -> bool {
    assert!(rt; levels.depth() > 0);
    let innermost = levels.innermost();
    levels.undo() == level(number) && innermost == level(number)
}

#[test]
fn each_level_gives_back_its_own(rt: HostRuntime) {
    let mut levels = Levels::new();
    assert_eq!(rt; levels.enter(level(0)), Ok(()));
    assert_eq!(rt; levels.enter(level(1)), Ok(()));
    assert_eq!(rt; levels.enter(level(2)), Ok(()));
    assert!(rt; gives(&rt, &mut levels, 2));
    assert!(rt; levels.depth() > 0);
    levels.keep();
    assert_eq!(rt; levels.enter(level(3)), Ok(()));
    assert!(rt; gives(&rt, &mut levels, 3));
    assert!(rt; gives(&rt, &mut levels, 0));
    assert_eq!(rt; levels.depth(), 0);
}

#[test]
fn the_deepest_is_the_last(rt: HostRuntime) {
    let mut levels = Levels::new();
    for number in 0..64 {
        assert_eq!(rt; levels.enter(level(number)), Ok(()));
    }
    assert_eq!(rt; levels.depth(), DEEPEST);
    assert_eq!(rt; levels.enter(level(64)), Err(TooDeep));
    assert!(rt; gives(&rt, &mut levels, 63));
    assert_eq!(rt; levels.enter(level(65)), Ok(()));
    levels.clear();
    assert_eq!(rt; levels.depth(), 0);
}

#[test]
fn kept_levels_are_as_deep(rt: HostRuntime) {
    let mut levels = KeptLevels::new(rt.alloc());
    for number in 0..64 {
        assert_eq!(rt; levels.enter(level(number)), Ok(()));
    }
    assert_eq!(rt; levels.enter(level(64)), Err(LevelFault::TooDeep));
    levels.clear();
    assert_eq!(rt; levels.enter(level(65)), Ok(()));
    assert_eq!(rt; levels.depth(), 1);
}
