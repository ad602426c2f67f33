// Restart, for any state, buffers and numbers: the set that the labels name runs again, once what
// is dirty on it is copied.
#![tactic(auto)]

mod checks;
mod copying;
mod restarting;
mod resyncing;

pub use restarting::restart;
