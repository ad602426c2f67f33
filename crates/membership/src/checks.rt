// "Each refusal falls in the order of its paragraph, on its condition only": a line for each.
ghost use Rattle.std.specs.Prelude.{◌≡◌, [], ◌∷◌, ◌<◌};
ghost use Rattle.refusals.specs.Refusals.{first_of, refusal_number};
ghost use Rattle.protocol.specs.Calls.{unsound, reach_refusals, shown_refusals, attach_refusals};

use bays::label_of_bay;
use label_forms::label_form;
use protocol::State;
use refusals::Refusal;
use sets::DISKS;
use soundness::sound;

// "Lose and return: 8."
#[tactic(auto, unfolding(refusals::specs::Refusals::first_of, protocol::specs::Calls::reach_refusals))]
pub(crate) fn reach_refusal(s: State, d: usize) -> Result<(), Refusal>
    ensures { refusal_number result ≡ first_of (reach_refusals s d) }
{
    Refusal::Unsound.when(!sound(s))?;
    Refusal::NoSuchDisk.when(usize::from(s.disks) <= d)
}

// "label reading's refusals in their order, then 18 where its number or n is not this bay's, 22, then 25"
#[tactic(auto, using(refusals::proofs::Numbers::refuses, crate::proofs::Passed::shown_in_order))]
fn shown_refusal(s: State, d: usize, shown: &[u8]) -> Result<(), Refusal>
    requires { d < DISKS }
    ensures { refusal_number result ≡ first_of (shown_refusals s d shown.now) }
{
    let read = label_form::read(shown);
    let label = label_of_bay(d, usize::from(s.disks), usize::from(s.blocks), read)?;
    Refusal::OtherLabel.when(!label::same(label, s.labels[d]))
}

// "After 8 come label reading's refusals", of a disk out of reach: "Returning a disk that is already in reach still has
// no effect and does not look at the bytes."
#[tactic(auto, unfolding(refusals::specs::Refusals::first_of), using(refusals::proofs::Numbers::refuses, crate::proofs::Passed::disk_known, crate::proofs::Passed::in_order))]
pub(crate) fn attach_refusal(s: State, d: usize, shown: &[u8]) -> Result<(), Refusal>
    ensures { refusal_number result ≡ first_of (attach_refusals s d shown.now) }
{
    reach_refusal(s, d)?;
    if sets::has(s.online, d) {
        return Ok(());
    }
    shown_refusal(s, d, shown)
}

// "Cut: none of its own."
#[tactic(auto, unfolding(refusals::specs::Refusals::first_of))]
pub(crate) fn power_off_refusal(s: State) -> Result<(), Refusal>
    ensures { refusal_number result ≡ first_of (unsound s ∷ []) }
{
    Refusal::Unsound.when(!sound(s))
}
