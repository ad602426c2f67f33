// The blocks of a region, and the disks that they are copied to.
ghost use Rattle.std.specs.Prelude.{◌≡◌, ◌*◌, ◌≤◌};
ghost use Rattle.protocol.specs.Geometry.{region_size, region_blocks};
ghost use Rattle.recovery.specs.Copying.{others};

use protocol::geometry::REGION_SIZE;
use sets::Mask;

// How many of the b blocks region r has.
#[tactic(auto, unfolding(protocol::specs::Geometry::region_blocks))]
pub(crate) fn region_blocks(b: usize, r: usize) -> usize
    requires { r * region_size ≤ b }
    ensures { result ≡ region_blocks b r }
{
    REGION_SIZE.min(b - r * REGION_SIZE)
}

// The members that a restart copies to.
pub(crate) fn others(set: Mask) -> Mask
    ensures { result ≡ others set }
{
    sets::difference(set, sets::singleton(state::source(set)))
}
