// The calls on a running cabinet's blocks: read, write and join; each for any state, buffers and numbers.
#![tactic(auto)]

mod checks;
mod joining;
mod reading;
mod writing;

pub use joining::join;
pub use reading::read;
pub use writing::write;
