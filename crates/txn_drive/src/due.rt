//! What is due before the next access of an attempt.
ghost use Rattle.std.specs.Prelude.{◌≡◌, []};
ghost use Rattle.stm_core.specs.Running.{IsSound, left_in, shown};
ghost use Rattle.txn_drive.specs.Stepping.{IsCalled, Settles};

use stm_core::{Next, Running};
use stm_model::{Bell, Hooks};

// The handler is run, or the cell is rung for.
#[tactic(auto, unfolding(crate::specs::Stepping::IsCalled))]
fn call<R: Bell, H: Hooks>(bell: &mut R, hooks: &mut H, next: Next)
    ensures { IsCalled next (H.runs hooks.old) (H.runs hooks.new) (R.rings bell.old) (R.rings bell.new) }
{
    match next {
        Next::Run { phase, token } => hooks.run(phase, token),
        Next::Ring(addr) => bell.ring(addr),
        _ => {}
    }
}

/// All that is due is done, in order.
pub fn settle<R: Bell, H: Hooks>(bell: &mut R, hooks: &mut H, running: &mut Running)
    requires sound { IsSound running.old }
    ensures settles { Settles (shown running.old) (shown running.new) (H.runs hooks.old) (H.runs hooks.new) (R.rings bell.old) (R.rings bell.new) }
    ensures nothing_due { (shown running.new).due ≡ [] }
    ensures sound { IsSound running.new }
    ensures left { left_in running.new ≡ left_in running.old }
{
    while let Some(next) = running.next_due() {
        call(bell, hooks, next);
        running.do_first();
    }
}
