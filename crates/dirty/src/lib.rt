// Where dirty bits stand: for a region a set of disks, so that "where it stands" is an intersection, "where it does not
// stand" a difference, and their ones counts are list lengths; for some disks a map of regions. The loops go over all
// eight labels, so that compiled code knows the disk in each iteration. They are two: a set and a map have widths of
// their own.
#![tactic(auto)]

ghost use Rattle.std.specs.Prelude.{◌≡◌, ◌≤◌};
ghost use Rattle.dirty.specs.DirtyBits.{dirty_disks, dirty_regions};

use label::Label;
use regions::RegionMap;
use sets::{DISKS, Mask};

// The disks below n on which region r is dirty. `finder` collects disks by another property in such a loop. With a
// closure for the property each would owe what that says of a disk, which is longer than the loop.
#[tactic(auto, unfolding(crate::specs::DirtyBits::dirty_disks))]
pub fn dirty_disks(labels: [Label; DISKS], n: usize, r: usize) -> Mask
    requires { n ≤ DISKS }
    ensures { result ≡ dirty_disks n labels r }
{
    let mut set = 0;
    #[tactic(auto, unfolding(protocol::specs::Loops::disks_where, protocol::specs::Loops::union_below))]
    for d in 0..DISKS {
        let stands = (d < n) & regions::has(labels[d].dirty, r);
        set = sets::union(set, sets::singleton_if(stands, d));
    }
    set
}

// The regions that are dirty on any disk of the set.
#[tactic(auto, unfolding(protocol::specs::Loops::union_below, crate::specs::DirtyBits::dirty_regions))]
pub fn dirty_regions(labels: [Label; DISKS], set: Mask) -> RegionMap
    ensures { result ≡ dirty_regions labels set }
{
    let mut map = 0;
    for d in 0..DISKS {
        let dirty = if sets::has(set, d) {
            labels[d].dirty
        } else {
            0
        };
        map = regions::union(map, dirty);
    }
    map
}
