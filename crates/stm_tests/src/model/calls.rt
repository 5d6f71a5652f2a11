//! Calls that are kept up to their room, and calls that are not kept.
use std::test::Fail;
use stm_model::{Addr, Bell, HookPhase, Hooks, KeptCalls, Quiet};

// A run, and a ring for each of these cells.
fn call_all<C: Hooks + Bell>(calls: &mut C, token: u64, addrs: [Addr; 2]) {
    calls.run(HookPhase::Commit, token);
    for addr in addrs {
        calls.ring(addr);
    }
}

#[test]
fn calls_are_kept_up_to_the_room(rt: HostRuntime) -> Result<(), Fail> {
    let mut kept = KeptCalls::new(rt.alloc(), 2, 3)?;
    call_all(&mut kept, 7, [Addr(5), Addr(1)]);
    assert_eq!(rt; kept.rings().ok_or("not told")?, [5, 1].as_slice());
    call_all(&mut kept, 8, [Addr(2), Addr(4)]);
    let runs = [(HookPhase::Commit, 7), (HookPhase::Commit, 8)];
    assert_eq!(rt; kept.runs().ok_or("not told")?, runs.as_slice());
    assert!(rt; kept.rings().is_none());
    call_all(&mut kept, 9, [Addr(0), Addr(0)]);
    assert!(rt; kept.runs().is_none());
    Ok(())
}

#[test]
fn quiet_takes_every_call() {
    call_all(&mut Quiet, 1, [Addr(1), Addr(2)]);
}
