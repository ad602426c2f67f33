// Blocks in the disk area: the only code that computes where a block stands. A block on its way is held by value, and
// not copied from one lent buffer to another: compiled code must reckon that two lent buffers overlap. The area is a
// parameter and no struct that holds it: two functions change it, and each would have to promise beside its equation
// that the struct keeps the reference.
#![tactic(auto)]

ghost use Rattle.std.specs.Prelude.{◌≡◌, ◌*◌, ◌≤◌, ◌<◌, ◌+◌, eqb, length, take, drop};
ghost use Rattle.buffers.specs.Buffers.{splice};
ghost use Rattle.protocol.specs.Geometry.{most_disks, most_blocks, block_size, area_size, block, with_block};
ghost use Rattle.protocol.specs.Geometry.{with_zero_disk};
ghost use Rattle.area.specs.Parts.{InArea, InPart};

use protocol::geometry::BLOCK_SIZE;
use std::ops::Range;

// Where disk d's part of the area starts.
fn start(blocks: usize, d: usize) -> usize
    requires { (blocks ≤ most_blocks) × (d ≤ most_disks) }
    ensures { result ≡ d * blocks * block_size }
{
    d * blocks * BLOCK_SIZE
}

// Disk d's part: it ends where the next disk's starts.
fn part(blocks: usize, d: usize) -> Range<usize>
    requires { (blocks ≤ most_blocks) × (d < most_disks) }
    ensures start { result.start ≡ d * blocks * block_size }
    ensures end { result.end ≡ (d + 1) * blocks * block_size }
{
    start(blocks, d)..start(blocks, d + 1)
}

// Block k of a disk's part.
fn load_block(part: &[u8], k: usize) -> [u8; BLOCK_SIZE]
    requires { InPart k part.now }
    ensures { result ≡ take block_size (drop (k * block_size) part.now) }
{
    let at = k * BLOCK_SIZE;
    from_slice(&part[at..at + BLOCK_SIZE])
}

// The bytes as block k of the same.
#[tactic(auto, unfolding(buffers::specs::Buffers::splice))]
fn store_block(part: &mut [u8], k: usize, bytes: [u8; BLOCK_SIZE])
    requires { InPart k part.old }
    ensures { part.new ≡ splice (k * block_size) bytes part.old }
{
    let at = k * BLOCK_SIZE;
    to_slice(&mut part[at..at + BLOCK_SIZE], bytes);
}

// Block k of disk d. "the work on one disk gets only that disk's part of the area"
pub fn load(area: &[u8], blocks: usize, d: usize, k: usize) -> [u8; BLOCK_SIZE]
    requires { InArea blocks d k area.now }
    ensures { result ≡ block blocks area.now d k }
{
    load_block(&area[part(blocks, d)], k)
}

// The bytes as block k of disk d.
pub fn store(area: &mut [u8], blocks: usize, d: usize, k: usize, bytes: [u8; BLOCK_SIZE])
    requires { InArea blocks d k area.old }
    ensures { area.new ≡ with_block blocks area.old d k bytes }
{
    store_block(&mut area[part(blocks, d)], k, bytes);
}

// All blocks of disk d zero.
pub fn zero_disk(area: &mut [u8], blocks: usize, d: usize)
    requires { InArea blocks d 0 area.old }
    ensures { area.new ≡ with_zero_disk blocks area.old d }
{
    let disk = part(blocks, d);
    area[disk.start..disk.end].fill(0);
}

// A block that is lent by itself. A loop, since an edit of it masks each byte: in the place of `try_from`, which was
// tried, a loop or a closure is refused whatever it does.
pub fn from_slice(bytes: &[u8]) -> [u8; BLOCK_SIZE]
    requires { length bytes.now ≡ block_size }
    ensures { result ≡ bytes.now }
{
    let mut block = [0; BLOCK_SIZE];
    for i in 0..BLOCK_SIZE {
        block[i] = bytes[i];
    }
    block
}

// The bytes to an output of one block. A loop, since a block took more than twice as long by `copy_from_slice`: that is
// a call which is not inlined.
pub fn to_slice(output: &mut [u8], bytes: [u8; BLOCK_SIZE])
    requires { length output.old ≡ block_size }
    ensures { output.new ≡ bytes }
{
    for i in 0..BLOCK_SIZE {
        output[i] = bytes[i];
    }
}

// Whether a buffer of this size is the disk area of so many disks and blocks: of any numbers, whose product might
// overflow.
#[tactic(auto, unfolding(protocol::specs::Geometry::area_size))]
pub fn fits(disks: usize, blocks: usize, size: usize) -> bool
    ensures { result ≡ eqb size (area_size disks blocks) }
{
    let count = disks.checked_mul(blocks);
    count.and_then(|count| count.checked_mul(BLOCK_SIZE)) == Some(size)
}
