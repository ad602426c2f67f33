// A session's calls: the format that begins it, and a call of the list as a value.
ghost use Rattle.std.specs.Prelude.{◌≡◌};
ghost use Rattle.protocol.specs.Outcomes.{yields};
ghost use Rattle.protocol.specs.History.{perform};
ghost use Rattle.cabinet.specs.Sessions.{Formatted};

use diagnosis::diagnose;
use membership::{attach, detach, power_off};
use protocol::{Answer, Call, State};
use state::done;

// The paper's fresh, of the crate `formatting`.
pub fn format(disks: usize, blocks: usize, area: &mut [u8]) -> Answer
    ensures { Formatted disks blocks area.old result area.new }
{
    formatting::format(disks, blocks, area)
}

// Carries out the call. A buffer that it does not take, it leaves. Of a diagnosis it gives the number: what is said of
// the disk, `diagnose` says.
#[tactic(auto, unfolding(protocol::specs::History::perform), using(protocol::proofs::Diagnoses::changes_nothing))]
pub fn apply(call: Call, s: State, area: &mut [u8], bytes: &[u8], output: &mut [u8]) -> Answer
    ensures { yields result area.new output.new
        ≡ perform call bytes.now output.old (record { state = s; area = area.old }) }
{
    match call {
        Call::Read { block, budget } => storage::read(s, area, block, output, budget),
        Call::Write { block, budget } => storage::write(s, area, block, bytes, budget),
        Call::Join { disk, budget } => storage::join(s, area, disk, budget),
        Call::Clean { budget } => cleaning::clean(s, budget),
        Call::Restart { budget } => recovery::restart(s, area, budget),
        Call::Detach { disk } => detach(s, disk),
        Call::Attach { disk } => attach(s, disk, bytes),
        Call::PowerOff => power_off(s),
        Call::Diagnose { stage, disk } => Answer {
            refusal: diagnose(s, stage, disk).refusal,
            ..done(s)
        },
        Call::Swap { disk, budget } => swapping::swap(s, area, disk, budget),
    }
}
