// The sets that a power condition gives.
ghost use Rattle.std.specs.Prelude.{◌≡◌};
ghost use Rattle.protocol.specs.States.{current_of, is_running, live, source};

use protocol::{Power, State};
use sets::Mask;

// G; a stopped cabinet has none.
pub fn current(power: Power) -> Mask
    ensures { result ≡ current_of power }
{
    match power {
        Power::Stopped => 0,
        Power::Running(g) => g,
    }
}

pub fn is_running(power: Power) -> bool
    ensures { result ≡ is_running power }
{
    matches!(power, Power::Running(_))
}

// "L means the members of G that are in reach."
pub fn live(s: State) -> Mask
    ensures { result ≡ live s }
{
    sets::intersection(current(s.power), s.online)
}

// The member of a set that the others are copied from, and that reads go to.
#[tactic(auto, unfolding(protocol::specs::States::source))]
pub fn source(set: Mask) -> usize
    ensures { result ≡ source set }
{
    sets::lowest(set)
}
