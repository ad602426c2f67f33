// Read.
ghost use Rattle.std.specs.Prelude.{◌≡◌, List, ℕ};
ghost use Rattle.protocol.specs.declared.Power.TheVariants.{Running};
ghost use Rattle.protocol.specs.States.{current_of, live};
ghost use Rattle.protocol.specs.Soundness.{Sound};
ghost use Rattle.protocol.specs.Lists.{move_to_live};
ghost use Rattle.protocol.specs.Outcomes.{yields, runs_with, carry_out};
ghost use Rattle.protocol.specs.Calls.{read_outcome};

use crate::checks::block_refusal;
use area::{load, to_slice};
use moves::{all_live, moved_to_live};
use protocol::{Answer, State};
use state::{done, live, refused, source};

// "A read with L different from G now moves to L before it copies the block" (document 02, 2.3). Most reads find L = G:
// these hand the state on as it is, which is quicker than to carry out an empty list. A move changes labels only, so a
// read is lent the area to look at, and not to change.
fn read_stores(s: State, budget: u16) -> Answer
    requires { Sound s × (s.power ≡ Running (current_of s.power)) }
    ensures { (area output : List ℕ) → yields result area output
        ≡ carry_out (move_to_live s) budget s area output (runs_with (live s) s output) }
{
    if all_live(s) {
        return done(s);
    }
    moved_to_live(s, budget)
}

// "Read copies block k from the lowest member of L.": only when its stores are all made, for "a read that is cut leaves
// the output buffer unchanged".
#[tactic(auto, using(refusals::proofs::Numbers::refuses), unfolding(protocol::specs::Calls::read_outcome, protocol::specs::Outcomes::refused_or))]
pub fn read(s: State, area: &[u8], k: usize, output: &mut [u8], budget: u16) -> Answer
    ensures { yields result area.now output.new
        ≡ read_outcome s area.now output.old k budget }
{
    if let Err(refusal) = block_refusal(s, area, k, output) {
        return refused(s, refusal);
    }
    let answer = read_stores(s, budget);
    if answer.refusal == 0 {
        let from = source(live(s));
        to_slice(output, load(area, usize::from(s.blocks), from, k));
    }
    answer
}
