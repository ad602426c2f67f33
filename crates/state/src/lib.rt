// What calls read off a state, and how a state and an answer are built (document 01, "What the cabinet is"). Functions
// and no methods: the types stand in `protocol`, which has no code.
#![tactic(auto)]

mod answer;
mod building;
mod power;

pub use answer::{done, refused, without_stores};
pub use building::{blank_labels, powered_off, state_of, with_labels, with_online, zero};
pub use power::{current, is_running, live, source};
