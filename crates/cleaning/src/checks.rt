// What a clean is refused for.
ghost use Rattle.std.specs.Prelude.{◌≡◌};
ghost use Rattle.refusals.specs.Refusals.{first_of, refusal_number};
ghost use Rattle.protocol.specs.Calls.{clean_refusals};

use protocol::State;
use refusals::Refusal;
use soundness::sound;
use state::{is_running, live};

// "Quiet: 6. 12."
#[tactic(auto, unfolding(refusals::specs::Refusals::first_of, protocol::specs::Calls::clean_refusals))]
pub(crate) fn clean_refusal(s: State) -> Result<(), Refusal>
    ensures { refusal_number result ≡ first_of (clean_refusals s) }
{
    Refusal::Unsound.when(!sound(s))?;
    Refusal::Stopped.when(!is_running(s.power))?;
    Refusal::NoneLive.when(live(s) == 0)
}
