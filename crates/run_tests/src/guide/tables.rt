//! How a test opens a table and makes an attempt on it.
ghost use Rattle.std.specs.Prelude.{◌≡◌, ◌+◌, ◌<◌, length};
ghost use Rattle.run_tests.specs.Tables.{Begins};

use meta_word::PENDING_BIT;
use std::process::Abort;
use stm_model::{Access, Addr, Free, Policy, Rest, Settings, Word};
use txn_run::{
    Bell, Body, Caller, Hooks, Maker, Outcome, Quiet, ReadSet, Seat, Stm, attempt, attempt_noting,
};

pub const ZERO: Addr = Addr(0);

pub const ONE: Addr = Addr(1);

pub const TWO: Addr = Addr(2);

/// Two callers.
pub const SETTINGS: Settings = Settings {
    callers: 2,
    policy: Policy::Look(0),
    tries: 3,
    clock: 2_251_799_813_685_247,
    attempts: 100,
};

/// The next seat, of which there is one.
pub fn next_seat(rt: &impl Abort, maker: &mut Maker<Free>, stm: &Stm<Free>) -> Seat<Free>
    requires own { maker.old.table ≡ stm.now.table }
    ensures given { maker.new ≡ record maker.old { given = maker.old.given + 1 } }
    ensures begins { Begins stm.now result }
{
    match maker.caller(stm) {
        Ok(seat) => seat,
        Err(_) => panic!(rt; "all seats were given"),
    }
}

/// An attempt.
pub fn try_with<R: Bell, B: Body<Free>, H: Hooks>(
    stm: &Stm<Free>,
    seat: &mut Seat<Free>,
    bell: &mut R,
    body: &mut B,
    hooks: &mut H,
) -> Outcome<B::Out>
    requires begins { Begins stm.now seat.old }
    requires fits { B.fits body.old stm.now.law (length stm.now.opening) }
    ensures begins { Begins stm.now seat.new }
    ensures fits { B.fits body.new stm.now.law (length stm.now.opening) }
{
    let mut caller = Caller { seat, stm, bell };
    attempt(&mut caller, body, hooks)
}

/// An attempt that runs no handler and rings for nobody.
pub fn try_once<B: Body<Free>>(
    stm: &Stm<Free>,
    seat: &mut Seat<Free>,
    body: &mut B,
) -> Outcome<B::Out>
    requires begins { Begins stm.now seat.old }
    requires fits { B.fits body.old stm.now.law (length stm.now.opening) }
    ensures begins { Begins stm.now seat.new }
    ensures fits { B.fits body.new stm.now.law (length stm.now.opening) }
{
    try_with(stm, seat, &mut Quiet, body, &mut Quiet)
}

/// The same, and what was read.
pub fn noted_once<B: Body<Free>>(
    stm: &Stm<Free>,
    seat: &mut Seat<Free>,
    body: &mut B,
) -> (Outcome<B::Out>, ReadSet)
    requires begins { Begins stm.now seat.old }
    requires fits { B.fits body.old stm.now.law (length stm.now.opening) }
    ensures begins { Begins stm.now seat.new }
{
    let mut bell = Quiet;
    let mut hooks = Quiet;
    let mut caller = Caller {
        seat,
        stm,
        bell: &mut bell,
    };
    attempt_noting(&mut caller, body, &mut hooks)
}

/// The caller waits for a cell. Tells the metadata word that it found.
pub fn wait_for(stm: &Stm<Free>, seat: &mut Seat<Free>, addr: Addr) -> u64
    requires begins { Begins stm.now seat.old }
    requires cells { addr.0 < length stm.now.opening }
    ensures begins { Begins stm.now seat.new }
{
    let access = Access::SetBits(Word::Meta(addr), PENDING_BIT);
    seat.perform(stm, access, &Rest)
}
