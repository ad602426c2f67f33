// Assembling a state from slots.
ghost use Rattle.std.specs.Prelude.{◌≡◌, ◌*◌, ◌≤◌, length, take, IfOk};
ghost use Rattle.refusals.specs.Refusals.{first_of, refusal_number};
ghost use Rattle.protocol.specs.Geometry.{most_disks};
ghost use Rattle.protocol.specs.Saving.{slot_size, assemble_refusals, assembled, assemble_answer};
ghost use Rattle.slots.specs.Below.{refusals_below, labels_below};

use crate::size::wrong_size;
use bays::{label_of_bay, wrong_block_count, wrong_disk_count};
use label::Label;
use label_forms::label_form;
use protocol::geometry::SLOT_SIZE;
use protocol::{Answer, Power, State};
use refusals::Refusal;
use sets::{DISKS, Mask};
use state::{blank_labels, done, refused, state_of, zero};

// "Assemble: 4. 5. 2, slots not 5 × n bytes. 8, R names a disk from n up."
#[tactic(auto, unfolding(refusals::specs::Refusals::first_of, protocol::specs::Saving::assemble_refusals))]
fn arguments_refusal(disks: usize, blocks: usize, online: Mask, slots: &[u8]) -> Result<(), Refusal>
    ensures { refusal_number result ≡ first_of (take 4 (assemble_refusals disks blocks online slots.now)) }
{
    Refusal::DiskCount.when(wrong_disk_count(disks))?;
    Refusal::BlockCount.when(wrong_block_count(blocks))?;
    Refusal::BufferLength.when(wrong_size(disks, slots.len()))?;
    Refusal::NoSuchDisk.when(!sets::below(online, disks))
}

// "Then for each slot ascending": the first refusal of theirs, or else their labels. The label reader is handed the
// part of the slots that starts at a disk's slot: it finds the label's end by itself, so no slot need be cut out, and
// d is asked for anyway.
fn read_slots(disks: usize, blocks: usize, slots: &[u8]) -> Result<[Label; DISKS], Refusal>
    requires { (disks ≤ most_disks) × (length slots.now ≡ slot_size * disks) }
    ensures refused { refusal_number result ≡ first_of (refusals_below disks disks blocks slots.now) }
    ensures labels { IfOk result (λ labels. labels ≡ labels_below disks slots.now) }
{
    let mut labels = blank_labels();
    for d in 0..disks {
        let read = label_form::read(&slots[SLOT_SIZE * d..]);
        labels[d] = label_of_bay(d, disks, blocks, read)?;
    }
    Ok(labels)
}

// "Assembling takes n, b, R and n slots, and gives a stopped state"
fn stopped_state(disks: usize, blocks: usize, online: Mask, slots: &[u8]) -> Result<State, Refusal>
    ensures refused { refusal_number result ≡ first_of (assemble_refusals disks blocks online slots.now) }
    ensures state { IfOk result (λ state. state ≡ assembled disks blocks online slots.now) }
{
    arguments_refusal(disks, blocks, online, slots)?;
    let labels = read_slots(disks, blocks, slots)?;
    Ok(state_of(disks as u8, blocks as u8, labels, online, Power::Stopped))
}

#[tactic(auto, using(refusals::proofs::Numbers::refuses), unfolding(protocol::specs::Saving::assemble_answer))]
pub fn assemble(disks: usize, blocks: usize, online: Mask, slots: &[u8]) -> Answer
    ensures { result ≡ assemble_answer disks blocks online slots.now }
{
    match stopped_state(disks, blocks, online, slots) {
        Ok(state) => done(state),
        Err(refusal) => refused(zero(), refusal),
    }
}
