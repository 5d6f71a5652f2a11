//! Reports of listings, and the order of their rows.
ghost use Rattle.std.specs.Prelude.{◌≡◌, [], ◌∷◌, IsTrue, IfOk};
ghost use Rattle.std.specs.List.{AllByRecursion};
ghost use Rattle.ledger_model.specs.Report.{has_text};
ghost use Rattle.ledger_model.specs.Reported.{HaveTexts};

use host_report::{order_rows, report_text};
use ledger_model::{Contents, Listing, Names, PairLists, Rolled, RolledList, Row, RowResult, Rows};
use std::alloc::{AllocError, Global};
use std::process::Abort;
use std::test::Fail;
use stm_model::HookPhase::{Commit, Committing, Completion, Preparing, Rollback};
use stm_model::{Addr, Cause, Memory, Meta, Pairs, Phase, Runs, TxnStatus, Values, Words};

/// A listing of these rows and attempts, with nothing left and nothing held.
fn listing_of(alloc: Global, rows: Rows, rolled: RolledList) -> Listing
    requires { AllByRecursion (λ attempt. IsTrue (has_text attempt.cause)) rolled }
    ensures { HaveTexts result }
{
    Listing {
        rows,
        rolled,
        blocked: Names::new(alloc),
        worn: Names::new(alloc),
        contents: Contents {
            refs: Words::new(alloc),
            maps: PairLists::new(alloc),
            slots: PairLists::new(alloc),
            used: 0,
        },
    }
}

/// The report of a listing. No clause says what is proved of it: that would be worked out at each listing below.
fn reported(alloc: Global, listing: &Listing) -> Result<Vec<u8>, Memory>
    requires { HaveTexts listing.now }
{
    report_text(alloc, listing)
}

/// The report of a listing whose rows are put in order.
fn reported_in_order(alloc: Global, listing: Listing) -> Result<Vec<u8>, Memory>
    requires { HaveTexts listing }
{
    let mut listing = listing;
    order_rows(&mut listing);
    report_text(alloc, &listing)
}

fn values<T: Copy>(alloc: Global, entries: &[T]) -> Result<Values<T>, Memory> {
    let mut values = Values::new(alloc);
    for entry in entries {
        values.push(*entry)?;
    }
    Ok(values)
}

/// A map of one pair.
fn map(alloc: Global, key: u64, value: u64) -> Result<Pairs, Memory>
    ensures { IfOk result (λ pairs. pairs ≡ (key, value) ∷ []) }
{
    let mut pairs = Pairs::new(alloc);
    pairs.push((key, value))?;
    Ok(pairs)
}

fn committed(alloc: Global) -> Result<Row, Memory> {
    let entries = [
        (Preparing, 1),
        (Committing, 2),
        (Commit, 3),
        (Completion, 4),
    ];
    Ok(Row {
        position: 1,
        writer: true,
        worker: 1,
        number: 10,
        result: RowResult::Done,
        prints: values(alloc, &[5, 0])?,
        runs: values(alloc, &entries)?,
        drawn: 2,
    })
}

fn unwritten(alloc: Global, number: u32, outcome: RowResult, runs: Runs) -> Result<Row, Memory> {
    Ok(Row {
        position: 1,
        writer: false,
        worker: 65535,
        number,
        result: outcome,
        prints: values(alloc, &[8])?,
        runs,
        drawn: 0,
    })
}

/// A row of each result, each with a print.
fn all_results(alloc: Global) -> Result<Rows, Memory> {
    let undone = values(alloc, &[(Rollback, u64::MAX)])?;
    let full = RowResult::Full {
        used: 3,
        allowance: 4,
    };
    let mut rows = Rows::new(alloc);
    rows.push(committed(alloc)?)?;
    rows.push(unwritten(alloc, 1, RowResult::Done, Runs::new(alloc))?)?;
    rows.push(unwritten(alloc, 2, RowResult::Fail { code: 9 }, undone)?)?;
    rows.push(unwritten(alloc, 3, RowResult::Spent, Runs::new(alloc))?)?;
    rows.push(unwritten(alloc, 4, full, Runs::new(alloc))?)?;
    Ok(rows)
}

/// Three maps, the second of them empty, and a slot.
fn contents(alloc: Global) -> Result<Contents, Memory> {
    let mut first = map(alloc, 1, 10)?;
    first.push((2, 20))?;
    let mut maps = PairLists::new(alloc);
    maps.push(first)?;
    maps.push(Pairs::new(alloc))?;
    maps.push(map(alloc, 0, 0)?)?;
    let mut slots = PairLists::new(alloc);
    slots.push(map(alloc, u64::MAX, u64::MAX)?)?;
    Ok(Contents {
        refs: values(alloc, &[7, 0])?,
        maps,
        slots,
        used: 2,
    })
}

/// An attempt that printed this.
fn retried(trail: Words) -> Rolled
    ensures { IsTrue (has_text result.cause) }
{
    Rolled {
        worker: 1,
        number: 2,
        prefix: 3,
        cause: Cause::Retry,
        trail,
    }
}

/// An attempt that printed nothing.
fn rolled_by(alloc: Global, cause: Cause) -> Rolled
    requires { IsTrue (has_text cause) }
    ensures { IsTrue (has_text result.cause) }
{
    Rolled {
        worker: 2,
        number: u32::MAX,
        prefix: 0,
        cause,
        trail: Words::new(alloc),
    }
}

fn meta(version: u64, owner: u16, changing: bool, pending: bool) -> Meta {
    Meta {
        changing,
        pending,
        owner,
        version,
    }
}

const WHOLE_REPORT: &[u8] = b"ledger 1\n\
1 w 1.10 ok 5 0 preparing:1 committing:2 commit:3 completion:4 +2\n\
1 r 65535.1 ok 8\n\
1 r 65535.2 fail 9 rollback:18446744073709551615\n\
1 r 65535.3 spent\n\
1 r 65535.4 full 3 4\n\
rolled 1.2 at 3 retry : 5 0\n\
rolled 2.4294967295 at 0 doomed 7\n\
blocked 1.3\n\
blocked 3.1\n\
worn 2.5\n\
ref 0 7\n\
ref 1 0\n\
map 0 1 10\n\
map 0 2 20\n\
map 2 0 0\n\
snap 0 18446744073709551615 18446744073709551615\n\
used 2\n\
done 5\n";

#[test]
fn a_report_has_its_parts_in_order(rt: HostRuntime) -> Result<(), Fail> {
    let alloc = rt.alloc();
    let status = TxnStatus {
        serial: 7,
        phase: Phase::Doomed,
    };
    let doomed = rolled_by(alloc, Cause::Doomed { status });
    let retried = retried(values(alloc, &[5, 0])?);
    let listing = Listing {
        rows: all_results(alloc)?,
        rolled: RolledList::from(vec![in alloc; retried, doomed]?),
        blocked: values(alloc, &[(1, 3), (3, 1)])?,
        worn: values(alloc, &[(2, 5)])?,
        contents: contents(alloc)?,
    };
    let text = reported(alloc, &listing)?;
    assert_eq!(rt; text.as_slice(), WHOLE_REPORT);
    Ok(())
}

#[test]
fn an_empty_listing_has_its_head_and_its_counts(rt: HostRuntime) -> Result<(), Fail> {
    let alloc = rt.alloc();
    let listing = listing_of(alloc, Rows::new(alloc), RolledList::new(alloc));
    let text = reported(alloc, &listing)?;
    assert_eq!(rt; text.as_slice(), b"ledger 1\nused 0\ndone 0\n".as_slice());
    Ok(())
}

/// The report of an attempt that was rolled back for this cause names it by these words.
fn is_named(rt: &impl Abort, alloc: Global, cause: Cause, words: &str) -> Result<(), Fail>
    requires { IsTrue (has_text cause) }
{
    let rolled = RolledList::from(vec![in alloc; rolled_by(alloc, cause)]?);
    let text = reported(alloc, &listing_of(alloc, Rows::new(alloc), rolled))?;
    let mut expected = b"ledger 1\nrolled 2.4294967295 at 0 ".to_vec(alloc)?;
    expected.extend_from_slice(words.as_bytes())?;
    expected.extend_from_slice(b"\nused 0\ndone 0\n")?;
    assert_eq!(rt; text.as_slice(), expected.as_slice());
    Ok(())
}

#[test]
fn a_conflict_is_named_with_its_meta_word(rt: HostRuntime) -> Result<(), Fail> {
    let read = Cause::ReadConflict {
        addr: Addr(0),
        meta: meta(0, 2, true, false),
    };
    let write = Cause::WriteConflict {
        addr: Addr(65535),
        meta: meta(4, 2047, true, true),
    };
    is_named(&rt, rt.alloc(), read, "readconflict 0 v0o2c")?;
    is_named(&rt, rt.alloc(), write, "writeconflict 65535 v4o2047cp")
}

#[test]
fn a_change_is_named_with_what_was_seen_before_and_after(rt: HostRuntime) -> Result<(), Fail> {
    let moved = Cause::Moved {
        addr: Addr(1),
        first: meta(1, 0, false, false),
        second: meta(2, 3, false, true),
    };
    let stale = Cause::Stale {
        addr: Addr(u32::MAX),
        version: 0,
        meta: meta(1, 0, false, false),
    };
    let clock = Cause::ClockMoved {
        first: 1,
        second: u64::MAX,
    };
    is_named(&rt, rt.alloc(), moved, "moved 1 v1o0 v2o3p")?;
    is_named(&rt, rt.alloc(), stale, "stale 4294967295 0 v1o0")?;
    is_named(&rt, rt.alloc(), clock, "clockmoved 1 18446744073709551615")
}

#[test]
fn a_doom_is_named_with_its_serial_and_a_retry_alone(rt: HostRuntime) -> Result<(), Fail> {
    let status = TxnStatus {
        serial: 12,
        phase: Phase::Doomed,
    };
    is_named(&rt, rt.alloc(), Cause::Doomed { status }, "doomed 12")?;
    is_named(&rt, rt.alloc(), Cause::Retry, "retry")
}

const ORDERED_REPORT: &[u8] = b"ledger 1\n\
1 w 1.10 ok 5 0 preparing:1 committing:2 commit:3 completion:4 +2\n\
1 r 65535.1 spent\n\
1 r 65535.2 spent\n\
rolled 1.2 at 3 retry : 5 0\n\
used 0\n\
done 3\n";

#[test]
fn rows_are_put_in_order_and_all_else_stays(rt: HostRuntime) -> Result<(), Fail> {
    let alloc = rt.alloc();
    let mut rows = Rows::new(alloc);
    rows.push(unwritten(alloc, 2, RowResult::Spent, Runs::new(alloc))?)?;
    rows.push(unwritten(alloc, 1, RowResult::Spent, Runs::new(alloc))?)?;
    rows.push(committed(alloc)?)?;
    let retried = retried(values(alloc, &[5, 0])?);
    let rolled = RolledList::from(vec![in alloc; retried]?);
    let text = reported_in_order(alloc, listing_of(alloc, rows, rolled))?;
    assert_eq!(rt; text.as_slice(), ORDERED_REPORT);
    Ok(())
}
