// Reading a label out of bytes.
#![tactic(auto)]

ghost use Rattle.std.specs.Prelude.{◌≡◌, ◌≤◌, ◌<◌, get_or, drop};
ghost use Rattle.label.specs.Form.{Coded};
ghost use Rattle.label.specs.Bytes.{from_little_endian, field_at, fields_of};
ghost use Rattle.label.specs.Reading.{empty_field, judged, reading, reading_of};

use label::{Form, Label, Placed, field_length, label_length, outside, wrong_sets};
use refusals::Refusal;
use sets::DISKS;

// The byte at a place, 0 past the end: every part of a label can then be fetched before the
// first refusal is looked for.
fn byte_at(bytes: &[u8], at: usize) -> u8
    ensures { result ≡ get_or bytes.now at 0 }
{
    bytes.get(at).copied().unwrap_or(0)
}

// The number in one byte or two from a place on, low byte first.
fn number_at(bytes: &[u8], width: usize, at: usize) -> u16
    requires { (1 ≤ width) × (width ≤ 2) × (at < 16) }
    ensures { result ≡ from_little_endian width (drop at bytes.now) }
{
    let low = byte_at(bytes, at);
    let high = if width == 1 {
        0
    } else {
        byte_at(bytes, at + 1)
    };
    u16::from_le_bytes([low, high])
}

// The field at a place whose bit of the map is given, 0 where that does not stand.
fn field(bytes: &[u8], bit: u8, width: usize, at: usize) -> u16
    requires { (1 ≤ width) × (width ≤ 2) × (at < 16) }
    ensures { result ≡ field_at bytes.now bit width at }
{
    if bit == 1 {
        number_at(bytes, width, at)
    } else {
        0
    }
}

fn fields(form: Form, bytes: &[u8], map: u8) -> Label
    requires { Coded DISKS form }
    ensures { result ≡ fields_of form bytes.now map }
{
    let width = form.width;
    let second = 2 + field_length(width, map % 2);
    let third = second + field_length(width, map / 2 % 2);
    Label {
        committed: sets::from_number(field(bytes, map % 2, width, 2)),
        tentative: sets::from_number(field(bytes, map / 2 % 2, width, second)),
        dirty: field(bytes, map / 4 % 2, 1, third) as u8,
    }
}

// Whether a field that its bit says is present is 0.
fn empty_field(map: u8, label: Label) -> bool
    ensures { result ≡ empty_field map label }
{
    ((map % 2 == 1) & (label.committed == 0))
        | ((map / 2 % 2 == 1) & (label.tentative == 0))
        | ((map / 4 % 2 == 1) & (label.dirty == 0))
}

// The label of these parts, found in `length` bytes; apart, as the definition takes them.
#[tactic(auto, unfolding(refusals::specs::Refusals::first_of, label::specs::Reading::read_refusals, label::specs::Reading::read_refusal, label::specs::Reading::judged))]
fn judge(
    form: Form,
    length: usize,
    map: u8,
    number: usize,
    disks: usize,
    label: Label,
) -> Result<Placed, Refusal>
    requires { form.width ≤ 2 }
    ensures { reading_of result ≡ judged form length map number disks label }
{
    let needed = label_length(form, map);
    Refusal::LabelCutShort.when(length < 2)?;
    Refusal::LabelMap.when(map / 8 != form.fixed)?;
    Refusal::LabelPlace.when(outside(form, disks) | (disks <= number))?;
    Refusal::LabelCutShort.when(length < needed)?;
    Refusal::LabelEmptyField.when(empty_field(map, label))?;
    Refusal::LabelSet.when(wrong_sets(label, number, disks))?;
    Ok(Placed {
        number,
        disks,
        label,
        length: needed,
    })
}

pub fn read_as(form: Form, bytes: &[u8]) -> Result<Placed, Refusal>
    requires { Coded DISKS form }
    ensures { reading_of result ≡ reading form bytes.now }
{
    let map = byte_at(bytes, 0);
    let place = byte_at(bytes, 1);
    let number = usize::from(place % 16);
    let disks = usize::from(place / 16) + form.base;
    let label = fields(form, bytes, map);
    judge(form, bytes.len(), map, number, disks, label)
}
