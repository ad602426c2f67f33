// Where states are built: `state_of` alone names all fields, and the others say what is changed in a state.
ghost use Rattle.std.specs.Prelude.{◌≡◌, replicate};
ghost use Rattle.label.specs.Bytes.{blank};
ghost use Rattle.protocol.specs.Geometry.{most_disks};
ghost use Rattle.protocol.specs.States.{state_of, with_labels, with_online, powered_off, zero_state};

use label::{Label, blank};
use protocol::{Power, State};
use sets::{DISKS, Mask};

pub fn state_of(disks: u8, blocks: u8, labels: [Label; DISKS], online: Mask, power: Power) -> State
    ensures { result ≡ state_of disks blocks labels online power }
{
    State {
        disks,
        blocks,
        labels,
        online,
        power,
    }
}

pub fn with_labels(s: State, labels: [Label; DISKS], power: Power) -> State
    ensures { result ≡ with_labels s labels power }
{
    State { labels, power, ..s }
}

// "Lose, return and cut change only R or the power condition."
pub fn with_online(s: State, online: Mask) -> State
    ensures { result ≡ with_online s online }
{
    State { online, ..s }
}

pub fn powered_off(s: State) -> State
    ensures { result ≡ powered_off s }
{
    State {
        power: Power::Stopped,
        ..s
    }
}

pub fn blank_labels() -> [Label; DISKS]
    ensures { result ≡ replicate most_disks blank }
{
    [blank(); DISKS]
}

// "Fresh and assembling are given no state; refused, they yield one that is all zero and stopped". Written out and not
// derived: the definition has these words, and edits are wrong ones.
#[tactic(auto, unfolding(protocol::specs::States::zero_state))]
pub fn zero() -> State
    ensures { result ≡ zero_state }
{
    state_of(0, 0, blank_labels(), 0, Power::Stopped)
}
