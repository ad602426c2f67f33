// Restart.
ghost use Rattle.std.specs.Prelude.{◌≡◌, true, List, ℕ, ◌+◌, ◌<◌};
ghost use Rattle.sets.specs.Sets.{below};
ghost use Rattle.protocol.specs.Lists.{restart_list};
ghost use Rattle.protocol.specs.Outcomes.{yields, runs_with, carry_out};
ghost use Rattle.protocol.specs.Calls.{restart_outcome};
ghost use Rattle.budget.specs.Sizes.{SoundCabinet};

use crate::checks::set_to_run;
use crate::resyncing::{resync_all, resyncs_length};
use budget::{Size, ended, started};
use changes::Change;
use dirty::dirty_regions;
use protocol::{Answer, State};
use sets::Mask;
use state::refused;

// "At the end store C = S and T = 0 on every member, ascending. Then run with G = S."
// State and area are two, and no struct that is sound: `soundness::sound` says why.
fn restart_stores(s: State, area: &mut [u8], set: Mask, budget: u16) -> Answer
    requires { SoundCabinet s area.old × (0 < set) × (below set s.disks ≡ true) }
    ensures { (output : List ℕ) → yields result area.new output
        ≡ carry_out (restart_list s set) budget s area.old output (runs_with set s output) }
{
    let size = Size::from(s);
    let dirty = dirty_regions(s.labels, set);
    let stores = resyncs_length(dirty, size, set) + sets::size(set);
    let run = resync_all(started(s, budget), area, dirty, size, set);
    let run = changes::store_labels(run, size.disks, set, Change::Commit(set));
    ended(s, run, stores, set, budget)
}

// Given no output, it leaves any.
#[tactic(auto, using(refusals::proofs::Numbers::refuses), unfolding(protocol::specs::Calls::restart_outcome, protocol::specs::Outcomes::refused_or))]
pub fn restart(s: State, area: &mut [u8], budget: u16) -> Answer
    ensures { (output : List ℕ) → yields result area.new output
        ≡ restart_outcome s area.old output budget }
{
    match set_to_run(s, area) {
        Ok(set) => restart_stores(s, area, set, budget),
        Err(refusal) => refused(s, refusal),
    }
}
