// Swap (document 02, 2.5).
ghost use Rattle.std.specs.Prelude.{◌≡◌, List, ℕ, ◌<◌};
ghost use Rattle.protocol.specs.Soundness.{Sound};
ghost use Rattle.protocol.specs.Lists.{swap_list};
ghost use Rattle.protocol.specs.Outcomes.{yields, carry_out};
ghost use Rattle.protocol.specs.Calls.{swap_outcome};
ghost use Rattle.swapping.specs.Steps.{moved_off, with_blank_label};

use crate::checks::swap_refusal;
use area::zero_disk;
use label::blank;
use moves::moved_to_live;
use protocol::{Answer, State};
use sets::DISKS;
use state::{current, done, refused, with_labels};

// "If d is in G the cabinet first moves to L, within the supply." A move changes labels only.
fn swap_stores(s: State, d: usize, budget: u16) -> Answer
    requires { Sound s }
    ensures { (area output : List ℕ) → yields result area output
        ≡ carry_out (swap_list s d) budget s area output (moved_off s d output) }
{
    if sets::has(current(s.power), d) {
        moved_to_live(s, budget)
    } else {
        done(s)
    }
}

fn with_blank_label(answer: Answer, d: usize) -> Answer
    requires { d < DISKS }
    ensures { result ≡ with_blank_label answer d }
{
    let state = answer.state;
    let mut labels = state.labels;
    labels[d] = blank();
    Answer {
        state: with_labels(state, labels, state.power),
        ..answer
    }
}

// "When that is done, d has an empty label, zero blocks (no counted stores), and is still out of reach until returned.
// A cut during the move leaves the old disk in." Given no output, it leaves any.
#[tactic(auto, using(refusals::proofs::Numbers::refuses), unfolding(protocol::specs::Calls::swap_outcome, protocol::specs::Outcomes::refused_or))]
pub fn swap(s: State, area: &mut [u8], d: usize, budget: u16) -> Answer
    ensures { (output : List ℕ) → yields result area.new output
        ≡ swap_outcome s area.old output d budget }
{
    if let Err(refusal) = swap_refusal(s, area, d) {
        return refused(s, refusal);
    }
    let answer = swap_stores(s, d, budget);
    if answer.refusal != 0 {
        return answer;
    }
    zero_disk(area, usize::from(s.blocks), d);
    with_blank_label(answer, d)
}
