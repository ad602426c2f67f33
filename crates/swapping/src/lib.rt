// The call that puts a blank disk in the place of one that is out of reach, for any state, area and numbers.
#![tactic(auto)]

mod checks;
mod swapping;

pub use swapping::swap;
