// What reading and writing both ask of a label.
ghost use Rattle.std.specs.Prelude.{◌≡◌, ◌*◌, ◌≤◌, ◌<◌};
ghost use Rattle.label.specs.Bytes.{label_length};
ghost use Rattle.label.specs.Rules.{outside, wrong_set, wrong_sets};

use crate::{Form, Label};
use sets::Mask;

// Whether n is no number of disks that a cabinet of this form may have.
#[tactic(auto, unfolding(crate::specs::Rules::outside))]
pub fn outside(form: Form, n: usize) -> bool
    ensures { result ≡ outside form n }
{
    !(1..=form.most).contains(&n)
}

// Whether a set of disk d is not 0 and yet names a disk from n up or omits d.
fn wrong_set(set: Mask, d: usize, n: usize) -> bool
    ensures { result ≡ wrong_set set d n }
{
    (set != 0) & (!sets::below(set, n) | !sets::has(set, d))
}

pub fn wrong_sets(label: Label, d: usize, n: usize) -> bool
    ensures { result ≡ wrong_sets label d n }
{
    wrong_set(label.committed, d, n) | wrong_set(label.tentative, d, n)
}

// How many bytes a field takes, by its bit of the map. A number and no bool, as the definitions count: a width, so many
// times.
pub fn field_length(width: usize, bit: u8) -> usize
    requires { bit < 2 }
    ensures { (result ≡ width * bit) × (result ≤ width) }
{
    if bit == 0 { 0 } else { width }
}

// The length of a label with this map.
#[tactic(auto, unfolding(crate::specs::Bytes::label_length))]
pub fn label_length(form: Form, map: u8) -> usize
    requires { form.width ≤ 2 }
    ensures { result ≡ label_length form map }
{
    let committed = field_length(form.width, map % 2);
    let tentative = field_length(form.width, map / 2 % 2);
    2 + committed + tentative + usize::from(map / 4 % 2)
}
