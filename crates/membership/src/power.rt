// Cut.
ghost use Rattle.std.specs.Prelude.{◌≡◌, List, ℕ};
ghost use Rattle.protocol.specs.Outcomes.{yields};
ghost use Rattle.protocol.specs.Calls.{power_off_outcome};

use crate::checks::power_off_refusal;
use protocol::{Answer, State};
use state::{done, powered_off, refused};

// Given no buffer, it leaves any. "cutting a stopped cabinet [is] done, with no effect."
#[tactic(auto, using(refusals::proofs::Numbers::refuses), unfolding(protocol::specs::Calls::power_off_outcome, protocol::specs::Outcomes::refused_or))]
pub fn power_off(s: State) -> Answer
    ensures { (area output : List ℕ) → yields result area output ≡ power_off_outcome s area output }
{
    match power_off_refusal(s) {
        Ok(()) => done(powered_off(s)),
        Err(refusal) => refused(s, refusal),
    }
}
