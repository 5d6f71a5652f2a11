//! Commits of an attempt that has read cell 2 at version 1 and is to write 30 to cell 3.
ghost use Rattle.std.specs.Prelude.{◌≡◌};

use super::{
    CHANGING, CLOCK, OWNER, PENDING, ask, begun, close, ended, go, look, mark, prepare, read,
    release, store, write,
};
use meta_word::Phase;
use std::alloc::Global;
use std::process::Abort;
use stm_core::{Ask, Attempt, Ending, Next};
use stm_model::{Access, Addr, Cause, TxnStatus, Word};

// The attempt, as it begins to commit.
fn committing(rt: &impl Abort, alloc: Global) -> Attempt
    ensures { result.attempt.settings.clock ≡ 9 }
{
    let mut attempt = begun(rt, alloc, 4);
    read(rt, &mut attempt, 2, 1, 10);
    write(rt, &mut attempt, 3, 0, 30);
    ask(rt, &mut attempt, Ask::Finish);
    attempt
}

#[test]
fn a_writer_commits_and_rings_for_who_waits(rt: HostRuntime) {
    let mut attempt = committing(&rt, rt.alloc());
    go(&rt, &mut attempt, &[(prepare(), 13), (mark(3), 7 * OWNER)]);
    go(
        &rt,
        &mut attempt,
        &[(CLOCK, 5), (look(2), 1), (Next::Decide { old: 5 }, 5)],
    );
    let publish = Next::Access(Access::Swap(Word::Meta(Addr(3)), 6));
    let steps = [
        (store(Word::Value(Addr(3)), 30), 0),
        (publish, CHANGING + PENDING + 7 * OWNER),
        (Next::Ring(Addr(3)), 0),
        (close(), 14),
    ];
    go(&rt, &mut attempt, &steps);
    ended(&rt, &attempt, Ending::Committed { stamp: 6 });
}

#[test]
fn who_was_doomed_finds_it_as_it_prepares(rt: HostRuntime) {
    let mut attempt = committing(&rt, rt.alloc());
    go(
        &rt,
        &mut attempt,
        &[(prepare(), 15), (release(3), 7 * OWNER), (close(), 15)],
    );
    let status = TxnStatus {
        serial: 3,
        phase: Phase::Doomed,
    };
    ended(
        &rt,
        &attempt,
        Ending::Rolled {
            cause: Cause::Doomed { status },
            prefix: 4,
        },
    );
}

#[test]
fn a_clock_at_its_limit_ends_it_at_that_prefix(rt: HostRuntime) {
    let mut attempt = committing(&rt, rt.alloc());
    go(&rt, &mut attempt, &[(prepare(), 13), (mark(3), 7 * OWNER)]);
    go(
        &rt,
        &mut attempt,
        &[
            (CLOCK, 9),
            (look(2), 1),
            (release(3), CHANGING + 7 * OWNER),
            (close(), 14),
        ],
    );
    ended(
        &rt,
        &attempt,
        Ending::Rolled {
            cause: Cause::ClockEnd { clock: 9 },
            prefix: 9,
        },
    );
}
