// The size of the slots, which saving and assembling both ask.
ghost use Rattle.std.specs.Prelude.{◌≡◌, not, ◌*◌, eqb};
ghost use Rattle.protocol.specs.Saving.{slot_size};

use protocol::geometry::SLOT_SIZE;

// Whether a buffer of this size is not that of so many slots: of any number, whose product might overflow.
#[tactic(auto, unfolding(label::specs::Bytes::longest_label))]
pub(crate) fn wrong_size(disks: usize, size: usize) -> bool
    ensures { result ≡ not (eqb size (slot_size * disks)) }
{
    SLOT_SIZE.checked_mul(disks) != Some(size)
}
