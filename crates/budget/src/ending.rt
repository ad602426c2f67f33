// How a call with a list ends.
ghost use Rattle.std.specs.Prelude.{◌≡◌};
ghost use Rattle.budget.specs.Answers.{answered};

use crate::Run;
use protocol::{Answer, Power, State};
use refusals::Refusal;
use sets::Mask;
use state::{done, with_labels};

// "If the list is longer than the supply, exactly the first supply stores are made, the cabinet is stopped, and the
// result is 15 with that count. Otherwise all are made", and the cabinet runs with `current`.
#[tactic(auto, unfolding(crate::specs::Answers::answered))]
pub fn ended(s: State, run: Run, stores: usize, current: Mask, budget: u16) -> Answer
    ensures { result ≡ answered s run.labels stores current budget }
{
    if usize::from(budget) < stores {
        return Answer {
            refusal: Refusal::PowerLost.number(),
            stores: budget,
            state: with_labels(s, run.labels, Power::Stopped),
        };
    }
    Answer {
        stores: stores as u16,
        ..done(with_labels(s, run.labels, Power::Running(current)))
    }
}
