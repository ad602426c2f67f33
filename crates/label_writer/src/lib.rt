// Writing a label as bytes. Number, n and label stay three parameters: C hands them on apart, each definition takes
// them apart, and a struct would be made at each call to be taken apart in the next.
#![tactic(auto)]

ghost use Rattle.std.specs.Prelude.{◌≡◌, ◌+◌, ◌*◌, ◌≤◌, ◌<◌, length};
ghost use Rattle.buffers.specs.Buffers.{Stored};
ghost use Rattle.label.specs.Form.{Coded};
ghost use Rattle.label.specs.Bytes.{present, field_bytes, map_byte, encode};
ghost use Rattle.refusals.specs.Refusals.{refusal_number};
ghost use Rattle.label.specs.Writing.{write_refusal, written, written_of, written_bytes};

use label::{Form, Label, label_length, outside, wrong_sets};
use refusals::Refusal;
use sets::DISKS;

// The bit of a field by its value: a field of 0 has none.
fn present(value: u16) -> u8
    ensures { (result ≡ present value) × (result ≤ 1) }
{
    u8::from(value != 0)
}

fn map_byte(form: Form, label: Label) -> u8
    requires { form.fixed < 32 }
    ensures { result ≡ map_byte form label }
{
    let committed = present(sets::number(label.committed));
    let tentative = present(sets::number(label.tentative));
    let dirty = present(u16::from(label.dirty));
    form.fixed * 8 + (committed + 2 * tentative + 4 * dirty)
}

// What the label of these parts is refused for, given so much room.
#[tactic(auto, unfolding(refusals::specs::Refusals::first_of, label::specs::Writing::write_refusals, label::specs::Writing::write_refusal))]
fn write_refusal(
    form: Form,
    room: usize,
    number: usize,
    disks: usize,
    label: Label,
) -> Result<(), Refusal>
    requires { (form.width ≤ 2) × (form.fixed < 32) }
    ensures { refusal_number result ≡ write_refusal form number disks label room }
{
    let needed = label_length(form, map_byte(form, label));
    Refusal::DiskCount.when(outside(form, disks))?;
    Refusal::NoSuchDisk.when(disks <= number)?;
    Refusal::LabelSet.when(wrong_sets(label, number, disks))?;
    Refusal::NoRoom.when(room < needed)
}

// Stores a field of one byte or two at a place if it is present, low byte first, and gives the place behind it. Output
// and place are two, since `Stored` also says what stays in front of the place.
fn put_field(out: &mut [u8], at: usize, width: usize, field: u16) -> usize
    requires { (1 ≤ width) × (width ≤ 2) × (at + length (field_bytes width field) ≤ length out.old) }
    ensures { Stored at (field_bytes width field) out.old result out.new }
{
    if field == 0 {
        return at;
    }
    let [low, high] = field.to_le_bytes();
    out[at] = low;
    if width == 1 {
        return at + 1;
    }
    out[at + 1] = high;
    at + 2
}

// Stores the label's bytes, one after the other, and gives their number.
fn put(form: Form, out: &mut [u8], number: usize, disks: usize, label: Label) -> usize
    requires { Coded DISKS form × (number < 16) × (form.base ≤ disks) × (disks < form.base + 16)
        × (length (encode form number disks label) ≤ length out.old) }
    ensures { Stored 0 (encode form number disks label) out.old result out.new }
{
    out[0] = map_byte(form, label);
    out[1] = (number + 16 * (disks - form.base)) as u8;
    let second = put_field(out, 2, form.width, sets::number(label.committed));
    let third = put_field(out, second, form.width, sets::number(label.tentative));
    put_field(out, third, 1, u16::from(label.dirty))
}

// Gives the label's length.
#[tactic(auto, using(refusals::proofs::Numbers::refuses), unfolding(label::specs::Writing::written, label::specs::Writing::written_bytes))]
pub fn write_as(
    form: Form,
    out: &mut [u8],
    number: usize,
    disks: usize,
    label: Label,
) -> Result<usize, Refusal>
    requires { Coded DISKS form }
    ensures answer { written_of result ≡ written form number disks label (length out.old) }
    ensures bytes { out.new ≡ written_bytes form number disks label out.old }
{
    write_refusal(form, out.len(), number, disks, label)?;
    Ok(put(form, out, number, disks, label))
}
