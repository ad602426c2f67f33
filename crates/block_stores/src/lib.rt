// Stores of blocks under a budget. The work on a disk's block gets that disk's part of the area from the crate `area`.
// Area and size are no struct with `Fits` for its invariant: each method would have to promise that it keeps the
// reference and the size, two clauses in the place of that one, and each loop to keep both.
#![tactic(auto)]

ghost use Rattle.std.specs.Prelude.{◌≡◌, false, [], ◌∷◌, ◌+◌, ◌≤◌, ◌<◌};
ghost use Rattle.sets.specs.Sets.{has};
ghost use Rattle.protocol.specs.Loops.{ascending, for_each};
ghost use Rattle.protocol.specs.Stores.{write, copy};
ghost use Rattle.budget.specs.Runs.{progress, run_all};
ghost use Rattle.budget.specs.Sizes.{Fits};

use budget::{Run, Size};
use protocol::geometry::BLOCK_SIZE;
use sets::Mask;

// The block on each disk of the set, ascending, while the power allows.
pub fn store_blocks(
    mut run: Run,
    area: &mut [u8],
    size: Size,
    set: Mask,
    k: usize,
    bytes: [u8; BLOCK_SIZE],
) -> Run
    requires { Fits size.disks size.blocks area.old × (k < size.blocks) }
    ensures { progress result area.new
        ≡ run_all size.blocks (for_each size.disks set (λ d. write d k bytes ∷ []))
        (progress run area.old) }
{
    for d in 0..size.disks {
        if (run.left != 0) & sets::has(set, d) {
            area::store(area, size.blocks, d, k, bytes);
            run.left -= 1;
        }
    }
    run
}

// Block k of one disk on each disk of a set without it, ascending. It is loaded "once for all other members" (document
// 02, 2.4): no store of the set changes it.
fn copy_block(run: Run, area: &mut [u8], size: Size, from: usize, set: Mask, k: usize) -> Run
    requires { Fits size.disks size.blocks area.old × (from < size.disks) × (has set from ≡ false)
        × (k < size.blocks) }
    ensures { progress result area.new
        ≡ run_all size.blocks (for_each size.disks set (λ d. copy from d k ∷ []))
        (progress run area.old) }
{
    let bytes = area::load(area, size.blocks, from, k);
    store_blocks(run, area, size, set, k, bytes)
}

// The same of `count` blocks from `first` on, ascending.
pub fn copy_blocks(
    mut run: Run,
    area: &mut [u8],
    size: Size,
    from: usize,
    set: Mask,
    first: usize,
    count: usize,
) -> Run
    requires { Fits size.disks size.blocks area.old × (from < size.disks) × (has set from ≡ false)
        × (first + count ≤ size.blocks) }
    ensures { progress result area.new
        ≡ run_all size.blocks (ascending count (λ i. for_each size.disks set (λ d. copy from d (first + i) ∷ [])))
        (progress run area.old) }
{
    for i in 0..count {
        run = copy_block(run, area, size, from, set, first + i);
    }
    run
}

// All blocks of one disk on another, ascending, while the power allows. No case of `copy_blocks`, which asks that the
// disk copied from is not in the set: here the two may be the same.
pub fn copy_disk(mut run: Run, area: &mut [u8], size: Size, from: usize, to: usize) -> Run
    requires { Fits size.disks size.blocks area.old × (from < size.disks) × (to < size.disks) }
    ensures { progress result area.new
        ≡ run_all size.blocks (ascending size.blocks (λ k. copy from to k ∷ []))
        (progress run area.old) }
{
    let blocks = size.blocks;
    for k in 0..blocks {
        if run.left != 0 {
            area::store(area, blocks, to, k, area::load(area, blocks, from, k));
            run.left -= 1;
        }
    }
    run
}
