// The set that a restart names, looked for among few sets in each stage (document 01, "Which set a restart names";
// document 02, 2.4), and why a set is no candidate of a stage (document 02, 2.2).
#![tactic(auto)]

ghost use Rattle.std.specs.Prelude.{◌^◌, ◌≤◌, ◌<◌};
ghost use Rattle.protocol.specs.Geometry.{most_disks};

use label::Label;
use protocol::State;
use sets::{DISKS, Mask};

mod candidates;
mod lists;
mod reasons;
mod search;
mod set_list;
mod stages;

#[derive(Clone, Copy)]
pub enum Stage {
    First,
    Second,
    Third,
}

// What a restart looks at: n, R, and the labels of all eight disks. A sound state is within both bounds.
#[derive(Clone, Copy)]
pub struct View {
    pub disks: usize,
    pub online: Mask,
    pub labels: [Label; DISKS],
    ghost within: { (disks ≤ most_disks) × (online < 2 ^ disks) },
}

impl View {
    ghost use Rattle.std.specs.Prelude.{◌≡◌};
    ghost use Rattle.protocol.specs.Soundness.{Sound};

    // What a restart of this state looks at.
    pub fn of(s: State) -> Self
        requires { Sound s }
        ensures disks { result.disks ≡ s.disks }
        ensures online { result.online ≡ s.online }
        ensures labels { result.labels ≡ s.labels }
    {
        // By a variable: the check follows no field that is an array straight into a literal.
        let labels = s.labels;
        View {
            disks: usize::from(s.disks),
            online: s.online,
            labels,
        }
    }
}
