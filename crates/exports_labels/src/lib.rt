// Document 01's calls on labels, for programs in C and Rust: a cabinet's are saved to slots and assembled from them, a
// single one is read and written. `exports_c` exports them, with their text again: nothing can stand on a static
// library. So they have C's form here too.
#![tactic(auto, unfolding(flat::specs::Flat::flat_outcome))]

ghost use Rattle.std.specs.Prelude.{◌≡◌, List, ℕ, length};
ghost use Rattle.label.specs.Reading.{reading};
ghost use Rattle.label.specs.Writing.{written, written_bytes};
ghost use Rattle.protocol.specs.Geometry.{label_form};
ghost use Rattle.protocol.specs.Saving.{save_outcome, assemble_answer};
ghost use Rattle.flat.specs.Flat.{opened, flat_answer, flat_outcome};

use flat::{FlatAnswer, FlatState};
use label::{Label, Reading, Written};
use label_forms::label_form;
use sets::Mask;

#[unsafe(no_mangle)]
pub extern "C" fn cabinet_save(state: FlatState, slots: &mut [u8]) -> FlatAnswer
    ensures { (area : List ℕ)
        → record { answer = result; area = area; output = slots.new }
        ≡ flat_outcome (save_outcome (opened state) area slots.old) }
{
    FlatAnswer::from(cabinet::save(state.into(), slots))
}

#[unsafe(no_mangle)]
pub extern "C" fn cabinet_assemble(
    disks: usize,
    blocks: usize,
    online: Mask,
    slots: &[u8],
) -> FlatAnswer
    ensures { result ≡ flat_answer (assemble_answer disks blocks online slots.now) }
{
    FlatAnswer::from(cabinet::assemble(disks, blocks, online, slots))
}

#[unsafe(no_mangle)]
pub extern "C" fn cabinet_read_label(bytes: &[u8]) -> Reading
    ensures { result ≡ reading label_form bytes.now }
{
    Reading::from(label_form::read(bytes))
}

#[unsafe(no_mangle)]
pub extern "C" fn cabinet_write_label(
    output: &mut [u8],
    number: usize,
    disks: usize,
    label: Label,
) -> Written
    ensures answer { result ≡ written label_form number disks label (length output.old) }
    ensures bytes { output.new ≡ written_bytes label_form number disks label output.old }
{
    Written::from(label_form::write(output, number, disks, label))
}
