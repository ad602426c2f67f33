// Document 01's form of label: sets of one byte, for cabinets of up to 8 disks.
ghost use Rattle.std.specs.Prelude.{◌≡◌, length};
ghost use Rattle.label.specs.Form.{narrow};
ghost use Rattle.label.specs.Reading.{reading, reading_of};
ghost use Rattle.label.specs.Writing.{written, written_of, written_bytes};

use label::{Form, Label, Placed};
use label_reader::read_as;
use label_writer::write_as;
use refusals::Refusal;

pub const FORM: Form = Form {
    width: 1,
    fixed: 0,
    base: 0,
    most: 8,
};

// The label that the bytes start with. What follows it is not read.
pub fn read(bytes: &[u8]) -> Result<Placed, Refusal>
    ensures { reading_of result ≡ reading narrow bytes.now }
{
    read_as(FORM, bytes)
}

// Writes the label of disk `number` of `disks` to the front of the output, and gives its length. The bytes beyond it
// stay, and all of them if it is refused.
pub fn write(out: &mut [u8], number: usize, disks: usize, label: Label) -> Result<usize, Refusal>
    ensures answer { written_of result ≡ written narrow number disks label (length out.old) }
    ensures bytes { out.new ≡ written_bytes narrow number disks label out.old }
{
    write_as(FORM, out, number, disks, label)
}
