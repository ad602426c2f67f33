// The calls on a running cabinet, for programs in C and Rust: blocks are read and written, a disk joins or is swapped
// for a blank one, dirty bits are cleared. `exports_c` exports them, with their text again: nothing can stand on a
// static library. So they have C's form here too.
#![tactic(auto, unfolding(flat::specs::Flat::flat_outcome))]

ghost use Rattle.std.specs.Prelude.{◌≡◌, List, ℕ};
ghost use Rattle.protocol.specs.Calls.{read_outcome, write_outcome, join_outcome, swap_outcome, clean_outcome};
ghost use Rattle.flat.specs.Flat.{opened, flat_outcome};

use flat::{FlatAnswer, FlatState};

#[unsafe(no_mangle)]
pub extern "C" fn cabinet_read(
    state: FlatState,
    area: &[u8],
    block: usize,
    output: &mut [u8],
    budget: u16,
) -> FlatAnswer
    ensures { record { answer = result; area = area.now; output = output.new }
        ≡ flat_outcome (read_outcome (opened state) area.now output.old block budget) }
{
    FlatAnswer::from(cabinet::read(state.into(), area, block, output, budget))
}

#[unsafe(no_mangle)]
pub extern "C" fn cabinet_write(
    state: FlatState,
    area: &mut [u8],
    block: usize,
    bytes: &[u8],
    budget: u16,
) -> FlatAnswer
    ensures { (output : List ℕ)
        → record { answer = result; area = area.new; output = output }
        ≡ flat_outcome (write_outcome (opened state) area.old output block bytes.now budget) }
{
    FlatAnswer::from(cabinet::write(state.into(), area, block, bytes, budget))
}

#[unsafe(no_mangle)]
pub extern "C" fn cabinet_join(
    state: FlatState,
    area: &mut [u8],
    disk: usize,
    budget: u16,
) -> FlatAnswer
    ensures { (output : List ℕ)
        → record { answer = result; area = area.new; output = output }
        ≡ flat_outcome (join_outcome (opened state) area.old output disk budget) }
{
    FlatAnswer::from(cabinet::join(state.into(), area, disk, budget))
}

#[unsafe(no_mangle)]
pub extern "C" fn cabinet_swap(
    state: FlatState,
    area: &mut [u8],
    disk: usize,
    budget: u16,
) -> FlatAnswer
    ensures { (output : List ℕ)
        → record { answer = result; area = area.new; output = output }
        ≡ flat_outcome (swap_outcome (opened state) area.old output disk budget) }
{
    FlatAnswer::from(cabinet::swap(state.into(), area, disk, budget))
}

#[unsafe(no_mangle)]
pub extern "C" fn cabinet_clean(state: FlatState, budget: u16) -> FlatAnswer
    ensures { (area output : List ℕ)
        → record { answer = result; area = area; output = output }
        ≡ flat_outcome (clean_outcome (opened state) area output budget) }
{
    FlatAnswer::from(cabinet::clean(state.into(), budget))
}
