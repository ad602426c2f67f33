// What a format is refused for.
ghost use Rattle.std.specs.Prelude.{◌≡◌};
ghost use Rattle.refusals.specs.Refusals.{first_of, refusal_number};
ghost use Rattle.protocol.specs.Calls.{format_refusals};

use bays::{wrong_block_count, wrong_disk_count};
use refusals::Refusal;

// "Fresh: 4, n outside 1 to 8. 5, b outside 1 to 64. 2."
#[tactic(auto, unfolding(refusals::specs::Refusals::first_of, protocol::specs::Calls::format_refusals))]
pub(crate) fn format_refusal(disks: usize, blocks: usize, area: &[u8]) -> Result<(), Refusal>
    ensures { refusal_number result ≡ first_of (format_refusals disks blocks area.now) }
{
    Refusal::DiskCount.when(wrong_disk_count(disks))?;
    Refusal::BlockCount.when(wrong_block_count(blocks))?;
    Refusal::BufferLength.when(!area::fits(disks, blocks, area.len()))
}
