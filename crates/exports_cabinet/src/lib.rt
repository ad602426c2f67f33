// The calls on the cabinet itself, for programs in C and Rust: it is made, started and stopped, its disks are lost and
// return, and it is asked why a disk is not current. `exports_c` exports them, with their text again: nothing can stand
// on a static library. So they have C's form here too.
#![tactic(auto, unfolding(flat::specs::Flat::flat_outcome))]

ghost use Rattle.std.specs.Prelude.{◌≡◌, List, ℕ};
ghost use Rattle.protocol.specs.Calls.{format_outcome, restart_outcome, detach_outcome, attach_outcome};
ghost use Rattle.protocol.specs.Calls.{power_off_outcome};
ghost use Rattle.protocol.specs.Diagnosis.{diagnosis};
ghost use Rattle.flat.specs.Flat.{opened, flat_outcome, flat_diagnosis};

use flat::{FlatAnswer, FlatDiagnosis, FlatState};

#[unsafe(no_mangle)]
pub extern "C" fn cabinet_format(disks: usize, blocks: usize, area: &mut [u8]) -> FlatAnswer
    ensures { (output : List ℕ)
        → record { answer = result; area = area.new; output = output }
        ≡ flat_outcome (format_outcome area.old output disks blocks) }
{
    FlatAnswer::from(cabinet::format(disks, blocks, area))
}

#[unsafe(no_mangle)]
pub extern "C" fn cabinet_restart(state: FlatState, area: &mut [u8], budget: u16) -> FlatAnswer
    ensures { (output : List ℕ)
        → record { answer = result; area = area.new; output = output }
        ≡ flat_outcome (restart_outcome (opened state) area.old output budget) }
{
    FlatAnswer::from(cabinet::restart(state.into(), area, budget))
}

#[unsafe(no_mangle)]
pub extern "C" fn cabinet_detach(state: FlatState, disk: usize) -> FlatAnswer
    ensures { (area output : List ℕ)
        → record { answer = result; area = area; output = output }
        ≡ flat_outcome (detach_outcome (opened state) area output disk) }
{
    FlatAnswer::from(cabinet::detach(state.into(), disk))
}

#[unsafe(no_mangle)]
pub extern "C" fn cabinet_attach(state: FlatState, disk: usize, shown: &[u8]) -> FlatAnswer
    ensures { (area output : List ℕ)
        → record { answer = result; area = area; output = output }
        ≡ flat_outcome (attach_outcome (opened state) area output disk shown.now) }
{
    FlatAnswer::from(cabinet::attach(state.into(), disk, shown))
}

#[unsafe(no_mangle)]
pub extern "C" fn cabinet_power_off(state: FlatState) -> FlatAnswer
    ensures { (area output : List ℕ)
        → record { answer = result; area = area; output = output }
        ≡ flat_outcome (power_off_outcome (opened state) area output) }
{
    FlatAnswer::from(cabinet::power_off(state.into()))
}

// The caller keeps the state that it gave: "It changes nothing."
#[unsafe(no_mangle)]
pub extern "C" fn cabinet_diagnose(state: FlatState, stage: usize, disk: usize) -> FlatDiagnosis
    ensures { result ≡ flat_diagnosis (diagnosis (opened state) stage disk) }
{
    FlatDiagnosis::from(cabinet::diagnose(state.into(), stage, disk))
}
