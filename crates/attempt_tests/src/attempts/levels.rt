//! Nested levels of an attempt.

use super::{OWNER, ask, begun, do_at_once, go, read, release, run, write};
use std::process::Abort;
use stm_core::{Ask, Next, Reply};
use stm_model::{Addr, Cause, HookPhase};

#[test]
fn the_sixty_fifth_level_is_refused(rt: HostRuntime) {
    let mut attempt = begun(&rt, rt.alloc(), 4);
    do_at_once(&rt, &mut attempt, &[Ask::Enter; 64]);
    ask(&rt, &mut attempt, Ask::Enter);
    let stopped = Reply::Stopped(Cause::TooDeep { depth: 64 });
    assert_eq!(rt; attempt.next(), Next::Reply(stopped));
    assert_eq!(rt; attempt.depth(), 64);
}

#[test]
fn an_undo_releases_what_was_first_written_and_runs_what_was_registered(rt: HostRuntime) {
    let mut attempt = begun(&rt, rt.alloc(), 4);
    write(&rt, &mut attempt, 0, 0, 1);
    do_at_once(&rt, &mut attempt, &[Ask::Enter, Ask::Set(Addr(0), 7)]);
    write(&rt, &mut attempt, 1, 0, 7);
    do_at_once(&rt, &mut attempt, &[Ask::Hook(HookPhase::Rollback, 9)]);
    ask(&rt, &mut attempt, Ask::Undo);
    let steps = [(release(1), 7 * OWNER), (run(HookPhase::Rollback, 9), 0)];
    go(&rt, &mut attempt, &steps);
    assert_eq!(rt; attempt.next(), Next::Reply(Reply::Ready));
    ask(&rt, &mut attempt, Ask::Get(Addr(0)));
    assert_eq!(rt; attempt.next(), Next::Reply(Reply::Value(1)));
    read(&rt, &mut attempt, 1, 0, 10);
}

#[test]
fn an_undo_with_no_first_write_makes_no_access(rt: HostRuntime) {
    let mut attempt = begun(&rt, rt.alloc(), 4);
    write(&rt, &mut attempt, 0, 0, 1);
    let asks = [Ask::Enter, Ask::Set(Addr(0), 7), Ask::Undo];
    do_at_once(&rt, &mut attempt, &asks);
    ask(&rt, &mut attempt, Ask::Get(Addr(0)));
    assert_eq!(rt; attempt.next(), Next::Reply(Reply::Value(1)));
}
