// Clean, the paper's quiet: it touches dirty bits and no block.
#![tactic(auto)]

ghost use Rattle.std.specs.Prelude.{◌≡◌, List, ℕ};
ghost use Rattle.protocol.specs.States.{current_of};
ghost use Rattle.protocol.specs.Soundness.{Sound};
ghost use Rattle.protocol.specs.Lists.{clean_list};
ghost use Rattle.protocol.specs.Outcomes.{yields, runs_with, carry_out};
ghost use Rattle.protocol.specs.Calls.{clean_outcome};

use crate::checks::clean_refusal;
use crate::standing::Standing;
use budget::{Size, ended, started};
use dirty::dirty_regions;
use protocol::{Answer, State};
use state::refused;

mod checks;
mod standing;

fn clean_stores(s: State, budget: u16) -> Answer
    requires { Sound s }
    ensures { (area output : List ℕ) → yields result area output
        ≡ carry_out (clean_list s) budget s area output (runs_with (current_of s.power) s output) }
{
    let size = Size::from(s);
    // By a variable: the check follows no field that is an array straight into a literal.
    let labels = s.labels;
    let live = state::live(s);
    let standing = Standing {
        labels,
        disks: size.disks,
        regions: bays::region_count(size.blocks),
        set: live,
        dirty: dirty_regions(labels, live),
    };
    let run = standing.clear(started(s, budget));
    ended(s, run, standing.count(), state::current(s.power), budget)
}

// Given no buffer, it leaves any.
#[tactic(auto, using(refusals::proofs::Numbers::refuses), unfolding(protocol::specs::Calls::clean_outcome, protocol::specs::Outcomes::refused_or))]
pub fn clean(s: State, budget: u16) -> Answer
    ensures { (area output : List ℕ) → yields result area output ≡ clean_outcome s area output budget }
{
    match clean_refusal(s) {
        Ok(()) => clean_stores(s, budget),
        Err(refusal) => refused(s, refusal),
    }
}
