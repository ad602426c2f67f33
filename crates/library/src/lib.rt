// The library's functions, taken as its history takes them: a call of the list as a value, and the format that begins
// it. Programs in C and Rust call the functions themselves, by way of `exports_c`; these two tie each function to the
// call of its name.
#![tactic(auto)]

ghost use Rattle.std.specs.Prelude.{◌≡◌};
ghost use Rattle.flat.specs.Histories.{FlatFormatted, FlatReturned};

use exports_cabinet::{
    cabinet_attach, cabinet_detach, cabinet_diagnose, cabinet_format, cabinet_power_off,
    cabinet_restart,
};
use exports_running::{cabinet_clean, cabinet_join, cabinet_read, cabinet_swap, cabinet_write};
use flat::{FlatAnswer, FlatState};
use protocol::Call;

// A history begins with a format that gives 0.
pub fn format(disks: usize, blocks: usize, area: &mut [u8]) -> FlatAnswer
    ensures { FlatFormatted disks blocks area.old result area.new }
{
    cabinet_format(disks, blocks, area)
}

// What the caller of a diagnosis has after it: its number, no stores, and the state that it gave.
fn diagnosed(state: FlatState, refusal: u8) -> FlatAnswer
    ensures { result ≡ record { state = state; stores = 0; refusal = refusal } }
{
    FlatAnswer {
        state,
        stores: 0,
        refusal,
    }
}

// Makes the call. A buffer that it does not take, it leaves. The arms are those of `cabinet::apply` with other
// functions: these names are what is tied here, so that one match for both would say nothing.
#[tactic(auto, unfolding(protocol::specs::History::perform), using(flat::proofs::Boundary::diagnosis_is_call))]
pub fn apply(
    call: Call,
    state: FlatState,
    area: &mut [u8],
    bytes: &[u8],
    output: &mut [u8],
) -> FlatAnswer
    ensures { FlatReturned state area.old (record {
      given = record { call = call; bytes = bytes.now; output = output.old };
      yielded = record { answer = result; area = area.new; output = output.new };
    }) }
{
    match call {
        Call::Read { block, budget } => cabinet_read(state, area, block, output, budget),
        Call::Write { block, budget } => cabinet_write(state, area, block, bytes, budget),
        Call::Join { disk, budget } => cabinet_join(state, area, disk, budget),
        Call::Clean { budget } => cabinet_clean(state, budget),
        Call::Restart { budget } => cabinet_restart(state, area, budget),
        Call::Detach { disk } => cabinet_detach(state, disk),
        Call::Attach { disk } => cabinet_attach(state, disk, bytes),
        Call::PowerOff => cabinet_power_off(state),
        Call::Diagnose { stage, disk } => diagnosed(
            state,
            cabinet_diagnose(state, stage, disk).refusal,
        ),
        Call::Swap { disk, budget } => cabinet_swap(state, area, disk, budget),
    }
}
