// The saved form of a cabinet's labels: "each disk has a slot of 5 bytes, the rest of the slot zero"
// (document 01, "Label bytes").
#![tactic(auto)]

mod assembling;
mod saving;
mod size;

pub use assembling::assemble;
pub use saving::save;
