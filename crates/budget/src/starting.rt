// What a call with a list begins with.
ghost use Rattle.std.specs.Prelude.{◌≡◌};

use crate::{Run, Size};
use protocol::State;

// n and b, as loops count.
impl From<State> for Size {
    ghost from_gives = { λ s size. size ≡ record { disks = s.disks; blocks = s.blocks } };

    fn from(s: State) -> Size {
        Size {
            disks: usize::from(s.disks),
            blocks: usize::from(s.blocks),
        }
    }
}

// A call before its first store.
pub fn started(s: State, budget: u16) -> Run
    ensures { result ≡ record { labels = s.labels; left = budget } }
{
    // By a variable: a field that is an array is not proved straight in a literal.
    let labels = s.labels;
    Run {
        labels,
        left: budget,
    }
}
