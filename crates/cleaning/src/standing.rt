// The bits that a clean clears: those that stand on the disks of a set, as the labels at the call say.
ghost use Rattle.std.specs.Prelude.{◌≡◌, true, ◌≤◌};
ghost use Rattle.sets.specs.Sets.{below};
ghost use Rattle.protocol.specs.Geometry.{most_disks, most_regions};
ghost use Rattle.dirty.specs.DirtyBits.{dirty_regions};

use budget::Run;
use changes::Change;
use dirty::dirty_disks;
use label::Label;
use regions::RegionMap;
use sets::{DISKS, Mask};

// `dirty` are the regions that are dirty on any disk of the set: of others no label need be looked at.
#[derive(Clone, Copy)]
pub(crate) struct Standing {
    pub(crate) labels: [Label; DISKS],
    pub(crate) disks: usize,
    pub(crate) regions: usize,
    pub(crate) set: Mask,
    pub(crate) dirty: RegionMap,
    pub ghost within: { (disks ≤ most_disks) × (regions ≤ most_regions) × (below set disks ≡ true)
        × (dirty ≡ dirty_regions labels set) },
}

impl Standing {
    ghost use Rattle.std.specs.Prelude.{List, ℕ, length};
    ghost use Rattle.sets.specs.Sets.{intersection};
    ghost use Rattle.protocol.specs.Loops.{ascending};
    ghost use Rattle.budget.specs.Runs.{progress, run_all};
    ghost use Rattle.dirty.specs.DirtyBits.{dirty_disks};
    ghost use Rattle.cleaning.specs.Clearing.{clears_of};

    // The disks of the set on which region r is dirty.
    fn on(&self, r: usize) -> Mask
        ensures { result ≡ intersection self.now.set (dirty_disks self.now.disks self.now.labels r) }
    {
        if regions::has(self.dirty, r) {
            sets::intersection(self.set, dirty_disks(self.labels, self.disks, r))
        } else {
            0
        }
    }

    // How many bits stand. By a loop: an edit of it begins the count at 1, and `sum` over a closure asks of the proof
    // that each run of that fits.
    pub(crate) fn count(&self) -> usize
        ensures { result
            ≡ length (ascending self.now.regions (clears_of self.now.disks self.now.labels self.now.set)) }
    {
        let mut bits = 0;
        for r in 0..self.regions {
            bits += sets::size(self.on(r));
        }
        bits
    }

    // "for each region ascending, clear the bit on each disk of L, ascending, where it stands"
    pub(crate) fn clear(&self, mut run: Run) -> Run
        ensures { (b : ℕ) (area : List ℕ) → progress result area
            ≡ run_all b (ascending self.now.regions (clears_of self.now.disks self.now.labels self.now.set))
            (progress run area) }
    {
        for r in 0..self.regions {
            run = changes::store_labels(run, self.disks, self.on(r), Change::Clear(r));
        }
        run
    }
}
