// "Lose, return and cut change only R or the power condition": the calls that touch no disk, each for any state, any
// numbers and any label bytes.
#![tactic(auto)]

mod checks;
mod power;
mod reach;

pub use power::power_off;
pub use reach::{attach, detach};
