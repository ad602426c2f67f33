// "Each refusal falls in the order of its paragraph, on its condition only": a line for each. 1 and 2
// begin each anew, since it is the paper's own list.
ghost use Rattle.std.specs.Prelude.{◌≡◌};
ghost use Rattle.refusals.specs.Refusals.{first_of, refusal_number};
ghost use Rattle.protocol.specs.Calls.{swap_refusals};

use protocol::State;
use refusals::Refusal;
use soundness::sound;
use state::{current, is_running, live};

// "The order is 1, 2, 6, 8, 24, then 12 where d is in G" (document 02, 2.5).
#[tactic(auto, unfolding(refusals::specs::Refusals::first_of, protocol::specs::Calls::swap_refusals))]
pub(crate) fn swap_refusal(s: State, area: &[u8], d: usize) -> Result<(), Refusal>
    ensures { refusal_number result ≡ first_of (swap_refusals s area.now d) }
{
    let disks = usize::from(s.disks);
    Refusal::Unsound.when(!sound(s))?;
    Refusal::BufferLength.when(!area::fits(disks, usize::from(s.blocks), area.len()))?;
    Refusal::Stopped.when(!is_running(s.power))?;
    Refusal::NoSuchDisk.when(disks <= d)?;
    Refusal::DiskOnline.when(sets::has(s.online, d))?;
    let member = sets::has(current(s.power), d);
    Refusal::NoneLive.when(member & (live(s) == 0))
}
