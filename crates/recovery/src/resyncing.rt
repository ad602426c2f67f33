// The dirty regions of a restart: "For each region, ascending, that is dirty on any disk of S", which are given as a
// map. Map, size and set go through these four as they are: with a struct of them each clause would say `self.now` of
// every one, and `Fits` is of an area that no struct holds.
ghost use Rattle.std.specs.Prelude.{◌≡◌, true, ◌+◌, ◌*◌, ◌≤◌, ◌<◌, length};
ghost use Rattle.sets.specs.Sets.{below};
ghost use Rattle.protocol.specs.Geometry.{most_disks, most_blocks, most_regions, region_size, regions};
ghost use Rattle.budget.specs.Runs.{progress, run_all};
ghost use Rattle.budget.specs.Sizes.{Fits};
ghost use Rattle.recovery.specs.RegionLists.{resync_of, resyncs_of};

use crate::copying::{others, region_blocks};
use budget::{Run, Size};
use changes::Change;
use protocol::geometry::REGION_SIZE;
use regions::RegionMap;
use sets::Mask;

// How many stores region r takes.
fn resync_length(dirty: RegionMap, size: Size, set: Mask, r: usize) -> usize
    requires { (below set size.disks ≡ true) × (r * region_size ≤ size.blocks) }
    ensures { (result ≡ length (resync_of size.disks size.blocks dirty set r))
        × (result ≤ (region_size + 1) * most_disks) }
{
    if regions::has(dirty, r) {
        region_blocks(size.blocks, r) * sets::size(others(set)) + sets::size(set)
    } else {
        0
    }
}

// By a loop: each region's length asks for a bound of the region, which a closure of `sum` would have to ask for too.
pub(crate) fn resyncs_length(dirty: RegionMap, size: Size, set: Mask) -> usize
    requires { (size.blocks ≤ most_blocks) × (below set size.disks ≡ true) }
    ensures { (result ≡ length (resyncs_of size.disks size.blocks dirty set))
        × (result ≤ most_regions * ((region_size + 1) * most_disks)) }
{
    if dirty == 0 {
        return 0;
    }
    let regions = bays::region_count(size.blocks);
    let mut stores = 0;
    for r in 0..regions {
        stores += resync_length(dirty, size, set, r);
    }
    stores
}

// "for each block ascending, copy it from the lowest member to each other member, ascending; then clear the bit on
// every member, ascending, standing or not", if the region is a dirty one.
fn resync(run: Run, area: &mut [u8], dirty: RegionMap, size: Size, set: Mask, r: usize) -> Run
    requires { Fits size.disks size.blocks area.old × (0 < set) × (below set size.disks ≡ true)
        × (r < regions size.blocks) }
    ensures { progress result area.new
        ≡ run_all size.blocks (resync_of size.disks size.blocks dirty set r)
        (progress run area.old) }
{
    if !regions::has(dirty, r) {
        return run;
    }
    let first = r * REGION_SIZE;
    let count = region_blocks(size.blocks, r);
    let run = block_stores::copy_blocks(
        run,
        area,
        size,
        state::source(set),
        others(set),
        first,
        count,
    );
    changes::store_labels(run, size.disks, set, Change::Clear(r))
}

// "For each region, ascending"
pub(crate) fn resync_all(
    mut run: Run,
    area: &mut [u8],
    dirty: RegionMap,
    size: Size,
    set: Mask,
) -> Run
    requires { Fits size.disks size.blocks area.old × (0 < set) × (below set size.disks ≡ true) }
    ensures { progress result area.new
        ≡ run_all size.blocks (resyncs_of size.disks size.blocks dirty set)
        (progress run area.old) }
{
    if dirty == 0 {
        return run;
    }
    let regions = bays::region_count(size.blocks);
    for r in 0..regions {
        run = resync(run, area, dirty, size, set, r);
    }
    run
}
