//! A large attempt, alone on cells of version 0 whose values are twice their numbers.

use super::{ask, begin, ended, settle};
use std::process::Abort;
use stm_core::{Ask, Ending, Next, Reply};
use stm_model::Addr;

const READS: u32 = 1_000;

const WRITES: u32 = 100;

#[test]
fn many_cells_take_the_accesses_of_each(rt: HostRuntime) {
    let mut attempt = begin(rt.alloc());
    let mut accesses = settle(&rt, &mut attempt, 0);
    for cell in 0..READS {
        ask(&rt, &mut attempt, Ask::Get(Addr(cell)));
        accesses = settle(&rt, &mut attempt, accesses);
        assert_eq!(rt;
            attempt.next(),
            Next::Reply(Reply::Value(2 * u64::from(cell)))
        );
    }
    for cell in READS..READS + WRITES {
        ask(&rt, &mut attempt, Ask::Set(Addr(cell), 1));
        accesses = settle(&rt, &mut attempt, accesses);
        assert_eq!(rt; attempt.next(), Next::Reply(Reply::Ready));
    }
    ask(&rt, &mut attempt, Ask::Finish);
    accesses = settle(&rt, &mut attempt, accesses);
    ended(&rt, &attempt, Ending::Committed { stamp: 1 });
    // Two to begin, three for each read, two for each first write, and then four, one for each note, and
    // three for each write.
    assert_eq!(rt;
        accesses,
        2 + 3 * READS + 2 * WRITES + 4 + READS + 3 * WRITES
    );
}
