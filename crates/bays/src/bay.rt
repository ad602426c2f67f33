// A label that is read, held against the bay that it stands in.
ghost use Rattle.std.specs.Prelude.{◌≡◌, IfOk};
ghost use Rattle.refusals.specs.Refusals.{first_of, refusal_number};
ghost use Rattle.label.specs.Reading.{reading_of};
ghost use Rattle.protocol.specs.Bays.{bay_refusals};

use crate::counts::region_count;
use label::{Label, Placed, Reading};
use refusals::Refusal;

// "the label's own refusal; 18, its number or n is not this slot's; 22, a dirty bit names no region"; of none of these,
// the label. What was read is taken whole, so that the paragraph stands in one function.
#[tactic(auto, using(refusals::proofs::Numbers::refuses), unfolding(refusals::specs::Refusals::first_of, protocol::specs::Bays::bay_refusals))]
pub fn label_of_bay(
    d: usize,
    disks: usize,
    blocks: usize,
    read: Result<Placed, Refusal>,
) -> Result<Label, Refusal>
    ensures refused { refusal_number result ≡ first_of (bay_refusals d disks blocks (reading_of read)) }
    ensures label { IfOk result (λ label. label ≡ (reading_of read).label) }
{
    let placed = read?;
    Refusal::LabelPlace.when((placed.number != d) | (placed.disks != disks))?;
    let known = regions::below(placed.label.dirty, region_count(blocks));
    Refusal::NoSuchRegion.when(!known)?;
    Ok(placed.label)
}

// The number of the same paragraph, of any reading: also of one that `label_forms` does not give.
#[tactic(auto, unfolding(refusals::specs::Refusals::first_of, protocol::specs::Bays::bay_refusals))]
pub fn bay_refusal(d: usize, disks: usize, blocks: usize, reading: Reading) -> u8
    ensures { result ≡ first_of (bay_refusals d disks blocks reading) }
{
    if reading.refusal != 0 {
        return reading.refusal;
    }
    let placed = Placed {
        number: reading.number,
        disks: reading.disks,
        label: reading.label,
        length: reading.length,
    };
    match label_of_bay(d, disks, blocks, Ok(placed)) {
        Ok(_) => 0,
        Err(refusal) => refusal.number(),
    }
}
