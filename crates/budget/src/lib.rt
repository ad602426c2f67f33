// A list of stores under a budget: what a call with a list begins with, and how it ends.
#![tactic(auto)]

use label::Label;
use sets::DISKS;

mod ending;
mod starting;

pub use ending::ended;
pub use starting::started;

// A call under way: the labels so far, and how many stores the power still allows; the disk area is lent beside it. A
// loop goes on when none is left and stores nothing, so no loop ends early. Stores stand in the loops themselves:
// each of the three makes another one, and what they share is one condition and one subtraction.
#[derive(Clone, Copy)]
pub struct Run {
    pub labels: [Label; DISKS],
    pub left: u16,
}

// A cabinet's n and b.
#[derive(Clone, Copy)]
pub struct Size {
    pub disks: usize,
    pub blocks: usize,
}
