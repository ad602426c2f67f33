// Lose and return. Given no disk area and no output, they leave any.
ghost use Rattle.std.specs.Prelude.{◌≡◌, List, ℕ};
ghost use Rattle.protocol.specs.Outcomes.{yields};
ghost use Rattle.protocol.specs.Calls.{detach_outcome, attach_outcome};

use crate::checks::{attach_refusal, reach_refusal};
use protocol::{Answer, State};
use sets::{difference, singleton, union};
use state::{done, refused, with_online};

// The paper's lose. Losing a lost disk is done, with no effect.
#[tactic(auto, using(refusals::proofs::Numbers::refuses, crate::proofs::Passed::disk_known), unfolding(protocol::specs::Calls::detach_outcome, protocol::specs::Outcomes::refused_or))]
pub fn detach(s: State, d: usize) -> Answer
    ensures { (area output : List ℕ) → yields result area output ≡ detach_outcome s area output d }
{
    match reach_refusal(s, d) {
        Ok(()) => done(with_online(s, difference(s.online, singleton(d)))),
        Err(refusal) => refused(s, refusal),
    }
}

// The paper's return, with the label bytes that the disk shows. "A returned disk that is in G is current again."
#[tactic(auto, using(refusals::proofs::Numbers::refuses, crate::proofs::Passed::attached_known), unfolding(protocol::specs::Calls::attach_outcome, protocol::specs::Outcomes::refused_or))]
pub fn attach(s: State, d: usize, shown: &[u8]) -> Answer
    ensures { (area output : List ℕ)
        → yields result area output ≡ attach_outcome s area output d shown.now }
{
    match attach_refusal(s, d, shown) {
        Ok(()) => done(with_online(s, union(s.online, singleton(d)))),
        Err(refusal) => refused(s, refusal),
    }
}
