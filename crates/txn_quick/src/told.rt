//! How a quick call answers.
ghost use Rattle.std.specs.Prelude.{◌≡◌, ℕ, Option};
ghost use Rattle.stm_core.specs.declared.running.State.TheVariants.{Ready};

use stm_core::State;

/// The ask is answered by this value or by none. The state is changed in place, since to store a whole one
/// costs much more.
#[inline(always)]
pub fn tell(state: &mut State, told: Option<u64>)
    requires { (former : Option ℕ) × (state.old ≡ Ready former) }
    ensures { state.new ≡ Ready told }
{
    if let State::Ready(former) = state {
        *former = told;
    }
}
