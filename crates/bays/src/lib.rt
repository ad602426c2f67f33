// A cabinet's bays: how many it may have, how many blocks and regions a disk in one, and which label belongs there.
#![tactic(auto)]

mod bay;
mod counts;

pub use bay::{bay_refusal, label_of_bay};
pub use counts::{region_count, wrong_block_count, wrong_disk_count};
