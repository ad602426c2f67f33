// Format, the paper's fresh: it begins a cabinet and clears its disk area.
#![tactic(auto)]

ghost use Rattle.std.specs.Prelude.{◌≡◌, List, ℕ, ◌≤◌, replicate};
ghost use Rattle.protocol.specs.Geometry.{most_disks};
ghost use Rattle.protocol.specs.States.{filled_up};
ghost use Rattle.protocol.specs.Soundness.{InRange};
ghost use Rattle.protocol.specs.Outcomes.{yields};
ghost use Rattle.protocol.specs.Calls.{fresh_label, formatted, format_outcome};

use crate::checks::format_refusal;
use buffers::clear;
use label::Label;
use protocol::{Answer, Power, State};
use sets::DISKS;
use state::{blank_labels, done, refused, state_of, zero};

mod checks;

// "C naming all n, T and dirty 0"; the array's other labels are blank.
fn formatted_labels(disks: usize) -> [Label; DISKS]
    requires { disks ≤ most_disks }
    ensures { result ≡ filled_up disks (replicate disks (fresh_label disks)) }
{
    let fresh = Label {
        committed: sets::all(disks),
        tentative: 0,
        dirty: 0,
    };
    let mut labels = blank_labels();
    labels[..disks].fill(fresh);
    labels
}

// "It gives all disks in reach, running"
fn formatted(disks: usize, blocks: usize) -> State
    requires { InRange disks blocks }
    ensures { result ≡ formatted disks blocks }
{
    let all = sets::all(disks);
    state_of(
        disks as u8,
        blocks as u8,
        formatted_labels(disks),
        all,
        Power::Running(all),
    )
}

// Given no output, it leaves any.
#[tactic(auto, using(refusals::proofs::Numbers::refuses), unfolding(protocol::specs::Calls::format_outcome, protocol::specs::Outcomes::refused_or))]
pub fn format(disks: usize, blocks: usize, area: &mut [u8]) -> Answer
    ensures { (output : List ℕ) → yields result area.new output
        ≡ format_outcome area.old output disks blocks }
{
    match format_refusal(disks, blocks, area) {
        Ok(()) => {
            clear(area);
            done(formatted(disks, blocks))
        }
        Err(refusal) => refused(zero(), refusal),
    }
}
