// The library's exports for programs in C and Rust. Only a static library exports functions, and no crate can stand on
// one, so that each of these calls the function of its name in `exports_running`, `exports_cabinet` or `exports_labels`
// and states its clauses again. include/cabinet.h declares them.
#![tactic(auto)]

ghost use Rattle.std.specs.Prelude.{◌≡◌, List, ℕ, length};
ghost use Rattle.label.specs.Reading.{reading};
ghost use Rattle.label.specs.Writing.{written, written_bytes};
ghost use Rattle.protocol.specs.Geometry.{label_form};
ghost use Rattle.protocol.specs.Calls.{read_outcome, write_outcome, join_outcome, swap_outcome, clean_outcome};
ghost use Rattle.protocol.specs.Calls.{format_outcome, restart_outcome, detach_outcome, attach_outcome};
ghost use Rattle.protocol.specs.Calls.{power_off_outcome};
ghost use Rattle.protocol.specs.Diagnosis.{diagnosis};
ghost use Rattle.protocol.specs.Saving.{save_outcome, assemble_answer};
ghost use Rattle.flat.specs.Flat.{opened, flat_answer, flat_outcome, flat_diagnosis};

use flat::{FlatAnswer, FlatDiagnosis, FlatState};
use label::{Label, Reading, Written};
use sets::Mask;

#[unsafe(no_mangle)]
pub extern "C" fn cabinet_read(
    state: FlatState,
    area: &[u8],
    block: usize,
    output: &mut [u8],
    budget: u16,
) -> FlatAnswer
    ensures { record { answer = result; area = area.now; output = output.new }
        ≡ flat_outcome (read_outcome (opened state) area.now output.old block budget) }
{
    exports_running::cabinet_read(state, area, block, output, budget)
}

#[unsafe(no_mangle)]
pub extern "C" fn cabinet_write(
    state: FlatState,
    area: &mut [u8],
    block: usize,
    bytes: &[u8],
    budget: u16,
) -> FlatAnswer
    ensures { (output : List ℕ)
        → record { answer = result; area = area.new; output = output }
        ≡ flat_outcome (write_outcome (opened state) area.old output block bytes.now budget) }
{
    exports_running::cabinet_write(state, area, block, bytes, budget)
}

#[unsafe(no_mangle)]
pub extern "C" fn cabinet_join(
    state: FlatState,
    area: &mut [u8],
    disk: usize,
    budget: u16,
) -> FlatAnswer
    ensures { (output : List ℕ)
        → record { answer = result; area = area.new; output = output }
        ≡ flat_outcome (join_outcome (opened state) area.old output disk budget) }
{
    exports_running::cabinet_join(state, area, disk, budget)
}

#[unsafe(no_mangle)]
pub extern "C" fn cabinet_swap(
    state: FlatState,
    area: &mut [u8],
    disk: usize,
    budget: u16,
) -> FlatAnswer
    ensures { (output : List ℕ)
        → record { answer = result; area = area.new; output = output }
        ≡ flat_outcome (swap_outcome (opened state) area.old output disk budget) }
{
    exports_running::cabinet_swap(state, area, disk, budget)
}

#[unsafe(no_mangle)]
pub extern "C" fn cabinet_clean(state: FlatState, budget: u16) -> FlatAnswer
    ensures { (area output : List ℕ)
        → record { answer = result; area = area; output = output }
        ≡ flat_outcome (clean_outcome (opened state) area output budget) }
{
    exports_running::cabinet_clean(state, budget)
}

#[unsafe(no_mangle)]
pub extern "C" fn cabinet_format(disks: usize, blocks: usize, area: &mut [u8]) -> FlatAnswer
    ensures { (output : List ℕ)
        → record { answer = result; area = area.new; output = output }
        ≡ flat_outcome (format_outcome area.old output disks blocks) }
{
    exports_cabinet::cabinet_format(disks, blocks, area)
}

#[unsafe(no_mangle)]
pub extern "C" fn cabinet_restart(state: FlatState, area: &mut [u8], budget: u16) -> FlatAnswer
    ensures { (output : List ℕ)
        → record { answer = result; area = area.new; output = output }
        ≡ flat_outcome (restart_outcome (opened state) area.old output budget) }
{
    exports_cabinet::cabinet_restart(state, area, budget)
}

#[unsafe(no_mangle)]
pub extern "C" fn cabinet_detach(state: FlatState, disk: usize) -> FlatAnswer
    ensures { (area output : List ℕ)
        → record { answer = result; area = area; output = output }
        ≡ flat_outcome (detach_outcome (opened state) area output disk) }
{
    exports_cabinet::cabinet_detach(state, disk)
}

#[unsafe(no_mangle)]
pub extern "C" fn cabinet_attach(state: FlatState, disk: usize, shown: &[u8]) -> FlatAnswer
    ensures { (area output : List ℕ)
        → record { answer = result; area = area; output = output }
        ≡ flat_outcome (attach_outcome (opened state) area output disk shown.now) }
{
    exports_cabinet::cabinet_attach(state, disk, shown)
}

#[unsafe(no_mangle)]
pub extern "C" fn cabinet_power_off(state: FlatState) -> FlatAnswer
    ensures { (area output : List ℕ)
        → record { answer = result; area = area; output = output }
        ≡ flat_outcome (power_off_outcome (opened state) area output) }
{
    exports_cabinet::cabinet_power_off(state)
}

#[unsafe(no_mangle)]
pub extern "C" fn cabinet_diagnose(state: FlatState, stage: usize, disk: usize) -> FlatDiagnosis
    ensures { result ≡ flat_diagnosis (diagnosis (opened state) stage disk) }
{
    exports_cabinet::cabinet_diagnose(state, stage, disk)
}

#[unsafe(no_mangle)]
pub extern "C" fn cabinet_save(state: FlatState, slots: &mut [u8]) -> FlatAnswer
    ensures { (area : List ℕ)
        → record { answer = result; area = area; output = slots.new }
        ≡ flat_outcome (save_outcome (opened state) area slots.old) }
{
    exports_labels::cabinet_save(state, slots)
}

#[unsafe(no_mangle)]
pub extern "C" fn cabinet_assemble(
    disks: usize,
    blocks: usize,
    online: Mask,
    slots: &[u8],
) -> FlatAnswer
    ensures { result ≡ flat_answer (assemble_answer disks blocks online slots.now) }
{
    exports_labels::cabinet_assemble(disks, blocks, online, slots)
}

#[unsafe(no_mangle)]
pub extern "C" fn cabinet_read_label(bytes: &[u8]) -> Reading
    ensures { result ≡ reading label_form bytes.now }
{
    exports_labels::cabinet_read_label(bytes)
}

#[unsafe(no_mangle)]
pub extern "C" fn cabinet_write_label(
    output: &mut [u8],
    number: usize,
    disks: usize,
    label: Label,
) -> Written
    ensures answer { result ≡ written label_form number disks label (length output.old) }
    ensures bytes { output.new ≡ written_bytes label_form number disks label output.old }
{
    exports_labels::cabinet_write_label(output, number, disks, label)
}
