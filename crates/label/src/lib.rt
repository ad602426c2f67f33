// A disk's label and its bytes (document 01, "Label bytes").
#![tactic(auto)]

ghost use Rattle.std.specs.Prelude.{◌≡◌};
ghost use Rattle.label.specs.Bytes.{blank};
ghost use Rattle.label.specs.Comparing.{same_label};
ghost use Rattle.label.specs.Reading.{reading_of};
ghost use Rattle.label.specs.Writing.{written_of};

use refusals::Refusal;
use regions::RegionMap;
use sets::Mask;

mod rules;

pub use rules::{field_length, label_length, outside, wrong_sets};

// "Each disk has a label: the committed set C, the tentative set T (0 means none), and the dirty map, bit r for region
// r. C of 0 means the disk has never been a member."
#[repr(C)]
#[derive(Clone, Copy, PartialEq, Eq, Default)]
pub struct Label {
    pub committed: Mask,
    pub tentative: Mask,
    pub dirty: RegionMap,
}

// The two below only name what the derives give: their edits, as `blank_dirty` and `same_by_any_field`, are mistakes
// that a derived function has no text for.
pub fn blank() -> Label
    ensures { result ≡ blank }
{
    Label::default()
}

#[tactic(auto, unfolding(crate::specs::Comparing::same_label))]
pub fn same(a: Label, b: Label) -> bool
    ensures { result ≡ same_label a b }
{
    a == b
}

// A label that is read, with the disk's number and n as they stand in the bytes, and how many bytes it has.
#[derive(Clone, Copy)]
pub struct Placed {
    pub number: usize,
    pub disks: usize,
    pub label: Label,
    pub length: usize,
}

// What reading yields, as C lays it out. Refused, everything but the refusal's number is 0; done, that number is.
#[repr(C)]
#[derive(Clone, Copy)]
pub struct Reading {
    pub refusal: u8,
    pub number: usize,
    pub disks: usize,
    pub label: Label,
    pub length: usize,
}

impl From<Result<Placed, Refusal>> for Reading {
    ghost from_gives = { λ read reading. reading ≡ reading_of read };

    fn from(read: Result<Placed, Refusal>) -> Reading {
        match read {
            Ok(placed) => Reading {
                refusal: 0,
                number: placed.number,
                disks: placed.disks,
                label: placed.label,
                length: placed.length,
            },
            Err(refusal) => Reading {
                refusal: refusal.number(),
                number: 0,
                disks: 0,
                label: blank(),
                length: 0,
            },
        }
    }
}

// What writing yields, beside the bytes, as C lays it out. Refused, the length is 0; done, the refusal's number is.
#[repr(C)]
#[derive(Clone, Copy)]
pub struct Written {
    pub refusal: u8,
    pub length: usize,
}

impl From<Result<usize, Refusal>> for Written {
    ghost from_gives = { λ length written. written ≡ written_of length };

    fn from(length: Result<usize, Refusal>) -> Written {
        match length {
            Ok(length) => Written { refusal: 0, length },
            Err(refusal) => Written {
                refusal: refusal.number(),
                length: 0,
            },
        }
    }
}

// How the labels of one kind of cabinet are written: how many bytes a set has (one or two; a number, since lengths are
// counted with it), what stands in the map from bit 3 up, what is taken off n, and the largest n. Reader and writer
// take it by value: a form is a module with a constant and two functions that name it. What they ask of it, `Coded`, is
// no invariant of the type: `outside` answers of any form, and so do the laws of label bytes.
#[derive(Clone, Copy)]
pub struct Form {
    pub width: usize,
    pub fixed: u8,
    pub base: usize,
    pub most: usize,
}
