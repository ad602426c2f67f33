// Diagnose.
ghost use Rattle.std.specs.Prelude.{◌≡◌, ◌<◌, ℕ};
ghost use Rattle.protocol.specs.Diagnosis.{own_set, set_without, stage_numbered, diagnosed, diagnosis};
ghost use Rattle.protocol.specs.Soundness.{Sound};
ghost use Rattle.naming.specs.Meaning.{found_of};
ghost use Rattle.finder.specs.Stages.{stage_of};

use crate::checks::stage_asked;
use finder::{Stage, View};
use label::Label;
use naming::Naming;
use protocol::{Diagnosis, Reason, State};
use sets::Mask;

// "one disk's own set (its T if there is one, else its C)"
#[tactic(auto, unfolding(protocol::specs::Diagnosis::own_set))]
fn own_set(l: Label) -> Mask
    ensures { result ≡ own_set l }
{
    if l.tentative == 0 {
        l.committed
    } else {
        l.tentative
    }
}

// "If a restart at this moment would find a set without the asked disk, the tool gives that set as well, otherwise 0."
fn set_without(d: usize, found: Naming) -> Mask
    ensures { result ≡ set_without d (found_of found) }
{
    match found {
        Ok(set) if !sets::has(set, d) => set,
        _ => 0,
    }
}

// What is said of a disk that there is, by the labels of a sound state.
fn diagnosed(s: State, stage: Stage, d: usize) -> Diagnosis
    requires { Sound s × (d < s.disks) }
    ensures { (number : ℕ) → stage_of stage ≡ stage_numbered number → result ≡ diagnosed s number d }
{
    let view = View::of(s);
    let reason = view.reason_for(stage, own_set(s.labels[d]));
    Diagnosis {
        refusal: 0,
        reason,
        set: set_without(d, view.find()),
    }
}

// It is given the state and gives none back: "It changes nothing."
#[tactic(auto, using(refusals::proofs::Numbers::refuses), unfolding(protocol::specs::Diagnosis::diagnosis))]
pub fn diagnose(s: State, stage: usize, d: usize) -> Diagnosis
    ensures { result ≡ diagnosis s stage d }
{
    match stage_asked(s, stage, d) {
        Ok(asked) => diagnosed(s, asked, d),
        Err(refusal) => Diagnosis {
            refusal: refusal.number(),
            reason: Reason::NoReason,
            set: 0,
        },
    }
}
