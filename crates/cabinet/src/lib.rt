// Document 01's calls, each for any state, buffers and numbers: fresh from the crate `formatting`, lose, return and cut
// from `membership`, those of a running cabinet from `storage` and `cleaning`, restart from `recovery`, the saved form
// from `slots`; and document 02's: diagnose from `diagnosis`, swap from `swapping`. Beside them `apply`, which takes a
// call as a value.
#![tactic(auto)]

mod calls;

pub use calls::{apply, format};
pub use cleaning::clean;
pub use diagnosis::diagnose;
pub use membership::{attach, detach, power_off};
pub use recovery::restart;
pub use slots::{assemble, save};
pub use storage::{join, read, write};
pub use swapping::swap;
