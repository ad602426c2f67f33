// Why a disk is not current (document 02, 2.2), for any state and numbers.
#![tactic(auto)]

mod checks;
mod diagnosing;

pub use diagnosing::diagnose;
