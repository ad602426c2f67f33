// "Each refusal falls in the order of its paragraph, on its condition only": a line for each.
ghost use Rattle.std.specs.Prelude.{◌≡◌, IfOk};
ghost use Rattle.refusals.specs.Refusals.{first_of, refusal_number};
ghost use Rattle.protocol.specs.Diagnosis.{stage_numbered, diagnose_refusals};
ghost use Rattle.finder.specs.Stages.{stage_of};

use finder::Stage;
use protocol::State;
use refusals::Refusal;
use soundness::sound;
use state::is_running;

// "After its state check the order is 7, 8, then the stage." "23, the stage is not 1, 2 or 3"; and else the stage.
#[tactic(auto, unfolding(refusals::specs::Refusals::first_of, protocol::specs::Diagnosis::diagnose_refusals))]
pub(crate) fn stage_asked(s: State, stage: usize, d: usize) -> Result<Stage, Refusal>
    ensures refused { refusal_number result ≡ first_of (diagnose_refusals s stage d) }
    ensures stage { IfOk result (λ asked. stage_of asked ≡ stage_numbered stage) }
{
    Refusal::Unsound.when(!sound(s))?;
    Refusal::Running.when(is_running(s.power))?;
    Refusal::NoSuchDisk.when(usize::from(s.disks) <= d)?;
    Stage::try_from(stage)
}
