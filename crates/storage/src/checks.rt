// "Each refusal falls in the order of its paragraph, on its condition only": a line for each. 1 and 2
// begin each anew, since it is the paper's own list.
ghost use Rattle.std.specs.Prelude.{◌≡◌};
ghost use Rattle.refusals.specs.Refusals.{first_of, refusal_number};
ghost use Rattle.protocol.specs.Calls.{block_refusals, join_refusals};

use protocol::State;
use protocol::geometry::BLOCK_SIZE;
use refusals::Refusal;
use soundness::sound;
use state::{current, is_running, live};

// "Read: 3, the output is not 64 bytes. 6, stopped. 9, k is not below b. 12, L is empty." "Write: 3, the data is not 64
// bytes. 6. 9. 12."
#[tactic(auto, unfolding(refusals::specs::Refusals::first_of, protocol::specs::Calls::block_refusals))]
pub(crate) fn block_refusal(s: State, area: &[u8], k: usize, bytes: &[u8]) -> Result<(), Refusal>
    ensures { refusal_number result ≡ first_of (block_refusals s area.now k bytes.now) }
{
    let blocks = usize::from(s.blocks);
    Refusal::Unsound.when(!sound(s))?;
    Refusal::BufferLength.when(!area::fits(usize::from(s.disks), blocks, area.len()))?;
    Refusal::BlockLength.when(bytes.len() != BLOCK_SIZE)?;
    Refusal::Stopped.when(!is_running(s.power))?;
    Refusal::NoSuchBlock.when(blocks <= k)?;
    Refusal::NoneLive.when(live(s) == 0)
}

// "Join: 6. 8, d is not below n. 10, d is out of reach. 11, d is in G. 12.", with 11 before 10 by document 02's 2.1.
#[tactic(auto, unfolding(refusals::specs::Refusals::first_of, protocol::specs::Calls::join_refusals))]
pub(crate) fn join_refusal(s: State, area: &[u8], d: usize) -> Result<(), Refusal>
    ensures { refusal_number result ≡ first_of (join_refusals s area.now d) }
{
    let disks = usize::from(s.disks);
    Refusal::Unsound.when(!sound(s))?;
    Refusal::BufferLength.when(!area::fits(disks, usize::from(s.blocks), area.len()))?;
    Refusal::Stopped.when(!is_running(s.power))?;
    Refusal::NoSuchDisk.when(disks <= d)?;
    Refusal::DiskCurrent.when(sets::has(current(s.power), d))?;
    Refusal::DiskOffline.when(!sets::has(s.online, d))?;
    Refusal::NoneLive.when(live(s) == 0)
}
