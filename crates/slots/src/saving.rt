// Saving a state's labels to slots.
ghost use Rattle.std.specs.Prelude.{◌≡◌, List, ℕ, ◌*◌, length};
ghost use Rattle.refusals.specs.Refusals.{first_of, refusal_number};
ghost use Rattle.label.specs.Writing.{write_refusal};
ghost use Rattle.protocol.specs.Geometry.{label_form};
ghost use Rattle.protocol.specs.Loops.{ascending};
ghost use Rattle.protocol.specs.States.{label_at};
ghost use Rattle.protocol.specs.Soundness.{Sound};
ghost use Rattle.protocol.specs.Outcomes.{yields};
ghost use Rattle.protocol.specs.Saving.{slot_size, slot_bytes, save_refusals, save_outcome};

use crate::size::wrong_size;
use label::Label;
use label_forms::label_form;
use protocol::geometry::SLOT_SIZE;
use protocol::{Answer, State};
use refusals::Refusal;
use soundness::sound;
use state::{done, refused};

// The label, and "the rest of the slot zero".
fn write_slot(slot: &mut [u8], d: usize, disks: usize, label: Label)
    requires { (length slot.old ≡ slot_size) × (write_refusal label_form d disks label slot_size ≡ 0) }
    ensures { slot.new ≡ slot_bytes d disks label }
{
    let length = label_form::write(slot, d, disks, label).unwrap();
    buffers::clear(&mut slot[length..]);
}

// Cut out by number: of a slice that was lent in chunks to be written, a proof knows the length afterwards, and not
// what it holds.
fn write_slots(s: State, slots: &mut [u8])
    requires { Sound s × (length slots.old ≡ slot_size * s.disks) }
    ensures { slots.new ≡ ascending s.disks (λ d. slot_bytes d s.disks (label_at s.labels d)) }
{
    let disks = usize::from(s.disks);
    for d in 0..disks {
        let from = SLOT_SIZE * d;
        write_slot(&mut slots[from..from + SLOT_SIZE], d, disks, s.labels[d]);
    }
}

// "Every call that takes a state: 1, the state is not sound." "Save: 2, the slot buffer is not 5 × n bytes."
#[tactic(auto, unfolding(refusals::specs::Refusals::first_of, protocol::specs::Saving::save_refusals))]
fn save_refusal(s: State, slots: &[u8]) -> Result<(), Refusal>
    ensures { refusal_number result ≡ first_of (save_refusals s slots.now) }
{
    Refusal::Unsound.when(!sound(s))?;
    Refusal::BufferLength.when(wrong_size(usize::from(s.disks), slots.len()))
}

// The slot buffer is its output; it has no disk area, so it leaves any.
#[tactic(auto, using(refusals::proofs::Numbers::refuses), unfolding(protocol::specs::Saving::save_outcome, protocol::specs::Outcomes::refused_or))]
pub fn save(s: State, slots: &mut [u8]) -> Answer
    ensures { (area : List ℕ) → yields result area slots.new ≡ save_outcome s area slots.old }
{
    match save_refusal(s, slots) {
        Ok(()) => {
            write_slots(s, slots);
            done(s)
        }
        Err(refusal) => refused(s, refusal),
    }
}
