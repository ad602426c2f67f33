// Join.
ghost use Rattle.std.specs.Prelude.{◌≡◌, List, ℕ, ◌<◌};
ghost use Rattle.sets.specs.Sets.{union, singleton};
ghost use Rattle.protocol.specs.States.{live};
ghost use Rattle.protocol.specs.Lists.{join_list};
ghost use Rattle.protocol.specs.Outcomes.{yields, runs_with, carry_out};
ghost use Rattle.protocol.specs.Calls.{join_outcome};
ghost use Rattle.budget.specs.Sizes.{SoundCabinet};

use crate::checks::join_refusal;
use budget::{Size, ended, started};
use moves::{live_length, move_length, move_to, move_to_live};
use protocol::{Answer, State};
use state::refused;

// "if L differs from G, move to L. Copy all blocks, ascending, from the lowest
// member of L to d. Then move to L with d."
// State and area are two, and no struct that is sound: `soundness::sound` says why.
fn join_stores(s: State, area: &mut [u8], d: usize, budget: u16) -> Answer
    requires { SoundCabinet s area.old × (0 < live s) × (d < s.disks) }
    ensures { (output : List ℕ) → yields result area.new output
        ≡ carry_out (join_list s d) budget s area.old output
        (runs_with (union (live s) (singleton d)) s output) }
{
    let size = Size::from(s);
    let live = state::live(s);
    let new = sets::singleton(d);
    let joined = sets::union(live, new);
    let stores = live_length(s) + size.blocks + move_length(joined);
    let run = move_to_live(started(s, budget), s);
    let run = block_stores::copy_disk(run, area, size, state::source(live), d);
    let run = move_to(run, size.disks, joined);
    ended(s, run, stores, joined, budget)
}

// Given no output, it leaves any.
#[tactic(auto, using(refusals::proofs::Numbers::refuses), unfolding(protocol::specs::Calls::join_outcome, protocol::specs::Outcomes::refused_or))]
pub fn join(s: State, area: &mut [u8], d: usize, budget: u16) -> Answer
    ensures { (output : List ℕ) → yields result area.new output
        ≡ join_outcome s area.old output d budget }
{
    match join_refusal(s, area, d) {
        Ok(()) => join_stores(s, area, d, budget),
        Err(refusal) => refused(s, refusal),
    }
}
