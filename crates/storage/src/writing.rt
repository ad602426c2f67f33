// Write.
ghost use Rattle.std.specs.Prelude.{◌≡◌, List, ℕ, ◌<◌, length};
ghost use Rattle.protocol.specs.Geometry.{block_size};
ghost use Rattle.protocol.specs.States.{live};
ghost use Rattle.protocol.specs.Lists.{write_list};
ghost use Rattle.protocol.specs.Outcomes.{yields, runs_with, carry_out};
ghost use Rattle.protocol.specs.Calls.{write_outcome};
ghost use Rattle.budget.specs.Sizes.{SoundCabinet};

use crate::checks::block_refusal;
use area::from_slice;
use budget::{Size, ended, started};
use changes::Change;
use dirty::dirty_disks;
use moves::{live_length, move_to_live};
use protocol::geometry::REGION_SIZE;
use protocol::{Answer, State};
use state::refused;

// "if L differs from G, move to L. Then set the region's dirty bit on each disk of L, ascending, where it does not
// stand. Then store the block on each disk of L, ascending."
// State and area are two, and no struct that is sound: `soundness::sound` says why.
fn write_stores(s: State, area: &mut [u8], k: usize, bytes: &[u8], budget: u16) -> Answer
    requires { SoundCabinet s area.old × (k < s.blocks) × (length bytes.now ≡ block_size) }
    ensures { (output : List ℕ) → yields result area.new output
        ≡ carry_out (write_list s k bytes.now) budget s area.old output
        (runs_with (live s) s output) }
{
    let size = Size::from(s);
    let n = size.disks;
    let live = state::live(s);
    let region = k / REGION_SIZE;
    let unmarked = sets::difference(live, dirty_disks(s.labels, n, region));
    let stores = live_length(s) + sets::size(unmarked) + sets::size(live);
    let run = move_to_live(started(s, budget), s);
    let run = changes::store_labels(run, n, unmarked, Change::Mark(region));
    let run = block_stores::store_blocks(run, area, size, live, k, from_slice(bytes));
    ended(s, run, stores, live, budget)
}

// Given no output, it leaves any.
#[tactic(auto, using(refusals::proofs::Numbers::refuses), unfolding(protocol::specs::Calls::write_outcome, protocol::specs::Outcomes::refused_or))]
pub fn write(s: State, area: &mut [u8], k: usize, bytes: &[u8], budget: u16) -> Answer
    ensures { (output : List ℕ) → yields result area.new output
        ≡ write_outcome s area.old output k bytes.now budget }
{
    match block_refusal(s, area, k, bytes) {
        Ok(()) => write_stores(s, area, k, bytes, budget),
        Err(refusal) => refused(s, refusal),
    }
}
