// The limits of a cabinet in code; specs/Geometry.antt has them for the definitions.

// "In the saved form each disk has a slot of 5 bytes": as many as the longest label of the form has.
pub const SLOT_SIZE: usize = 5;

// "b blocks a disk (1 to 64)"
pub const MOST_BLOCKS: usize = 64;

// "A block is 64 bytes."
pub const BLOCK_SIZE: usize = 64;

// "A region is 8 blocks"
pub const REGION_SIZE: usize = 8;
