// The numbers of disks, blocks and regions.
ghost use Rattle.std.specs.Prelude.{◌≡◌};
ghost use Rattle.protocol.specs.Geometry.{wrong_disk_count, wrong_block_count, regions};

use label_forms::label_form;
use protocol::geometry::{MOST_BLOCKS, REGION_SIZE};

// "4, n outside 1 to 8": as the form of the cabinet's labels has it.
pub fn wrong_disk_count(disks: usize) -> bool
    ensures { result ≡ wrong_disk_count disks }
{
    label::outside(label_form::FORM, disks)
}

// "5, b outside 1 to 64"
pub fn wrong_block_count(blocks: usize) -> bool
    ensures { result ≡ wrong_block_count blocks }
{
    !(1..=MOST_BLOCKS).contains(&blocks)
}

// How many regions so many blocks have; "the last may be short".
#[tactic(auto, unfolding(protocol::specs::Geometry::regions))]
pub fn region_count(blocks: usize) -> usize
    ensures { result ≡ regions blocks }
{
    blocks.div_ceil(REGION_SIZE)
}
