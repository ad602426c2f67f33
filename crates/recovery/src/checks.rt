// "Each refusal falls in the order of its paragraph, on its condition only": a line for each. 1 and 2
// begin each anew, since it is the paper's own list.
ghost use Rattle.std.specs.Prelude.{◌≡◌, IfOk};
ghost use Rattle.refusals.specs.Refusals.{first_of, refusal_number};
ghost use Rattle.protocol.specs.Naming.{the_set, found_by};
ghost use Rattle.protocol.specs.Calls.{restart_refusals};

use finder::View;
use protocol::State;
use refusals::Refusal;
use sets::Mask;
use soundness::sound;
use state::is_running;

// "Restart: 7, running. 13. 14.", and else the set that the labels name. They are looked at once the state is known to
// be sound: the finder needs R below 2^n.
#[tactic(auto, unfolding(refusals::specs::Refusals::first_of, protocol::specs::Calls::restart_refusals))]
pub(crate) fn set_to_run(s: State, area: &[u8]) -> Result<Mask, Refusal>
    ensures refused { refusal_number result ≡ first_of (restart_refusals s area.now) }
    ensures set { IfOk result (λ set. set ≡ the_set (found_by s)) }
{
    let disks = usize::from(s.disks);
    Refusal::Unsound.when(!sound(s))?;
    Refusal::BufferLength.when(!area::fits(disks, usize::from(s.blocks), area.len()))?;
    Refusal::Running.when(is_running(s.power))?;
    Ok(View::of(s).find()?)
}
