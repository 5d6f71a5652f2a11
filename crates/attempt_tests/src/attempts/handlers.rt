//! Where the handlers of an attempt run, and its before-commit bodies.
ghost use Rattle.std.specs.Prelude.{◌≡◌};

use super::{
    CHANGING, CLOCK, OWNER, ask, begin, begun, close, do_at_once, end_late, ended, go, mark,
    prepare, read, release, run, settle, store, write,
};
use std::alloc::Global;
use std::process::Abort;
use stm_core::{Ask, Attempt, Ending, Next, Reply};
use stm_model::{Access, Addr, Cause, HookPhase, Word};

#[test]
fn a_rollback_runs_the_last_handler_first(rt: HostRuntime) {
    let mut attempt = begun(&rt, rt.alloc(), 4);
    let hooks = [
        Ask::Hook(HookPhase::Rollback, 1),
        Ask::Hook(HookPhase::Completion, 2),
    ];
    do_at_once(&rt, &mut attempt, &hooks);
    let cause = Cause::User { code: 4 };
    ask(&rt, &mut attempt, Ask::Abandon(cause));
    let steps = [
        (close(), 13),
        (run(HookPhase::Completion, 2), 0),
        (run(HookPhase::Rollback, 1), 0),
    ];
    go(&rt, &mut attempt, &steps);
    ended(&rt, &attempt, Ending::Rolled { cause, prefix: 4 });
}

// An attempt that has registered a handler of each phase.
fn one_of_each(rt: &impl Abort, alloc: Global) -> Attempt
    ensures { result.attempt.settings.clock ≡ 9 }
{
    let mut attempt = begun(rt, alloc, 4);
    let hooks = [
        Ask::Hook(HookPhase::Preparing, 1),
        Ask::Hook(HookPhase::Committing, 2),
        Ask::Hook(HookPhase::Completion, 3),
        Ask::Hook(HookPhase::Commit, 4),
        Ask::Hook(HookPhase::Rollback, 5),
    ];
    do_at_once(rt, &mut attempt, &hooks);
    attempt
}

// The status is stored as idle, which finds this one, and then the handlers of a commit run.
fn close_and_run(rt: &impl Abort, attempt: &mut Attempt, status: u64)
    requires { attempt.old.attempt.settings.clock ≡ 9 }
    ensures { attempt.new.attempt.settings.clock ≡ 9 }
{
    let steps = [
        (close(), status),
        (run(HookPhase::Completion, 3), 0),
        (run(HookPhase::Commit, 4), 0),
    ];
    go(rt, attempt, &steps);
}

#[test]
fn a_commit_runs_its_handlers_before_and_after_the_decision_and_at_its_end(rt: HostRuntime) {
    let mut attempt = one_of_each(&rt, rt.alloc());
    write(&rt, &mut attempt, 3, 0, 30);
    ask(&rt, &mut attempt, Ask::Finish);
    let before = [
        (prepare(), 13),
        (run(HookPhase::Preparing, 1), 0),
        (mark(3), 7 * OWNER),
        (CLOCK, 4),
        (Next::Decide { old: 4 }, 4),
    ];
    go(&rt, &mut attempt, &before);
    let publish = Next::Access(Access::Swap(Word::Meta(Addr(3)), 5));
    let after = [
        (run(HookPhase::Committing, 2), 0),
        (store(Word::Value(Addr(3)), 30), 0),
        (publish, CHANGING + 7 * OWNER),
    ];
    go(&rt, &mut attempt, &after);
    close_and_run(&rt, &mut attempt, 14);
    ended(&rt, &attempt, Ending::Committed { stamp: 5 });
}

#[test]
fn a_reader_runs_the_same_handlers_and_tries_for_no_clock(rt: HostRuntime) {
    let mut attempt = one_of_each(&rt, rt.alloc());
    read(&rt, &mut attempt, 2, 1, 10);
    ask(&rt, &mut attempt, Ask::Finish);
    let steps = [
        (run(HookPhase::Preparing, 1), 0),
        (run(HookPhase::Committing, 2), 0),
    ];
    go(&rt, &mut attempt, &steps);
    close_and_run(&rt, &mut attempt, 13);
    ended(&rt, &attempt, Ending::Read { prefix: 4 });
}

#[test]
fn before_commit_bodies_have_their_turns_and_then_it_commits(rt: HostRuntime) {
    let mut attempt = begin(rt.alloc());
    settle(&rt, &mut attempt, 0);
    ask(&rt, &mut attempt, Ask::Set(Addr(3), 30));
    settle(&rt, &mut attempt, 0);
    do_at_once(&rt, &mut attempt, &[Ask::Later(5)]);
    ask(&rt, &mut attempt, Ask::Finish);
    assert_eq!(rt; attempt.next(), Next::Before { token: 5 });
    do_at_once(&rt, &mut attempt, &[Ask::Later(6)]);
    end_late(&rt, &mut attempt);
    assert_eq!(rt; attempt.next(), Next::Before { token: 6 });
    end_late(&rt, &mut attempt);
    settle(&rt, &mut attempt, 0);
    ended(&rt, &attempt, Ending::Committed { stamp: 1 });
}

#[test]
fn a_before_commit_body_takes_every_ask(rt: HostRuntime) {
    let mut attempt = begun(&rt, rt.alloc(), 4);
    do_at_once(&rt, &mut attempt, &[Ask::Later(5)]);
    ask(&rt, &mut attempt, Ask::Finish);
    assert_eq!(rt; attempt.next(), Next::Before { token: 5 });
    read(&rt, &mut attempt, 2, 1, 10);
    write(&rt, &mut attempt, 3, 0, 30);
    let undone = [
        Ask::Enter,
        Ask::Set(Addr(3), 31),
        Ask::Hook(HookPhase::Commit, 6),
        Ask::Undo,
    ];
    do_at_once(&rt, &mut attempt, &undone);
    ask(&rt, &mut attempt, Ask::Get(Addr(3)));
    assert_eq!(rt; attempt.next(), Next::Reply(Reply::Value(30)));
    do_at_once(&rt, &mut attempt, &[Ask::Enter, Ask::Later(8), Ask::Keep]);
    end_late(&rt, &mut attempt);
    assert_eq!(rt; attempt.next(), Next::Before { token: 8 });
    let cause = Cause::User { code: 2 };
    ask(&rt, &mut attempt, Ask::Abandon(cause));
    go(&rt, &mut attempt, &[(release(3), 7 * OWNER), (close(), 13)]);
    ended(&rt, &attempt, Ending::Rolled { cause, prefix: 4 });
}
