//! An attempt that is refused a read.
ghost use Rattle.std.specs.Prelude.{◌≡◌};

use super::{
    CHANGING, OWNER, ask, begun, close, do_at_once, end_late, ended, go, look, release, run, write,
};
use std::process::Abort;
use stm_core::{Ask, Attempt, Ending, Next, Reply};
use stm_model::{Addr, Cause, HookPhase, Meta};

// Caller 8 is changing cell 2.
fn conflict() -> Cause {
    Cause::ReadConflict {
        addr: Addr(2),
        meta: Meta {
            changing: true,
            pending: false,
            owner: 8,
            version: 1,
        },
    }
}

// The attempt writes cell 3 and is refused cell 2.
fn be_refused(rt: &impl Abort, attempt: &mut Attempt)
    requires { attempt.old.attempt.settings.clock ≡ 9 }
    ensures { attempt.new.attempt.settings.clock ≡ 9 }
{
    write(rt, attempt, 3, 0, 30);
    ask(rt, attempt, Ask::Get(Addr(2)));
    go(rt, attempt, &[(look(2), CHANGING + 8 * OWNER + 1)]);
}

#[test]
fn who_was_refused_is_told_the_same_of_each_call(rt: HostRuntime) {
    let mut attempt = begun(&rt, rt.alloc(), 4);
    be_refused(&rt, &mut attempt);
    let stopped = Next::Reply(Reply::Stopped(conflict()));
    assert_eq!(rt; attempt.next(), stopped);
    for asked in [
        Ask::Get(Addr(2)),
        Ask::Get(Addr(3)),
        Ask::Set(Addr(3), 31),
        Ask::Set(Addr(4), 40),
        Ask::Enter,
        Ask::Hook(HookPhase::Commit, 6),
        Ask::Later(5),
    ] {
        ask(&rt, &mut attempt, asked);
        assert_eq!(rt; attempt.next(), stopped);
    }
}

#[test]
fn who_was_refused_ends_with_that_cause(rt: HostRuntime) {
    for end in [Ask::Finish, Ask::Abandon(Cause::Retry)] {
        let mut attempt = begun(&rt, rt.alloc(), 4);
        be_refused(&rt, &mut attempt);
        ask(&rt, &mut attempt, end);
        go(&rt, &mut attempt, &[(release(3), 7 * OWNER), (close(), 13)]);
        ended(
            &rt,
            &attempt,
            Ending::Rolled {
                cause: conflict(),
                prefix: 4,
            },
        );
    }
}

#[test]
fn levels_are_closed_after_a_refusal_and_nothing_is_undone(rt: HostRuntime) {
    let mut attempt = begun(&rt, rt.alloc(), 4);
    let asks = [Ask::Enter, Ask::Enter, Ask::Hook(HookPhase::Rollback, 9)];
    do_at_once(&rt, &mut attempt, &asks);
    be_refused(&rt, &mut attempt);
    let stopped = Next::Reply(Reply::Stopped(conflict()));
    ask(&rt, &mut attempt, Ask::Undo);
    assert_eq!(rt; (attempt.next(), attempt.depth()), (stopped, 1));
    ask(&rt, &mut attempt, Ask::Keep);
    assert_eq!(rt; (attempt.next(), attempt.depth()), (stopped, 0));
    ask(&rt, &mut attempt, Ask::Finish);
    go(
        &rt,
        &mut attempt,
        &[
            (release(3), 7 * OWNER),
            (close(), 13),
            (run(HookPhase::Rollback, 9), 0),
        ],
    );
    ended(
        &rt,
        &attempt,
        Ending::Rolled {
            cause: conflict(),
            prefix: 4,
        },
    );
}

#[test]
fn a_before_commit_body_that_was_refused_ends_with_that_cause(rt: HostRuntime) {
    let mut attempt = begun(&rt, rt.alloc(), 4);
    do_at_once(&rt, &mut attempt, &[Ask::Later(5)]);
    ask(&rt, &mut attempt, Ask::Finish);
    be_refused(&rt, &mut attempt);
    end_late(&rt, &mut attempt);
    go(&rt, &mut attempt, &[(release(3), 7 * OWNER), (close(), 13)]);
    ended(
        &rt,
        &attempt,
        Ending::Rolled {
            cause: conflict(),
            prefix: 4,
        },
    );
}
