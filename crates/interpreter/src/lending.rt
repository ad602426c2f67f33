// The bytes that a command lends to its call.
ghost use Rattle.std.specs.Prelude.{◌≡◌};
ghost use Rattle.buffers.specs.ByteLists.{bytes_of};
ghost use Rattle.protocol.specs.Geometry.{block_size};
ghost use Rattle.protocol.specs.States.{label_at};
ghost use Rattle.interpreter.specs.Lending.{shown_label, lent_bytes};

use buffers::ByteList;
use commands::Loan;
use label::Label;
use label_forms::label_form;
use protocol::State;
use protocol::geometry::BLOCK_SIZE;
use sets::DISKS;

// At most a block of bytes.
pub type Lent = ByteList<BLOCK_SIZE>;

// A disk from DISKS up has no label in a state: blank, whatever its number.
fn label_at(labels: [Label; DISKS], d: usize) -> Label
    ensures { result ≡ label_at labels d }
{
    labels.get(d).copied().unwrap_or(label::blank())
}

// The stored label, none for a disk that the cabinet does not have: the writer then refuses it.
fn shown_label(s: State, d: usize) -> Lent
    ensures { bytes_of result ≡ shown_label s d block_size }
{
    let mut bytes = [0u8; BLOCK_SIZE];
    let label = label_at(s.labels, d);
    let written = label_form::write(&mut bytes, d, usize::from(s.disks), label);
    Lent::first_of(bytes, written.unwrap_or(0))
}

pub fn lend(loan: Loan, s: State) -> Lent
    ensures { bytes_of result ≡ lent_bytes loan s }
{
    match loan {
        Loan::Block(v) => Lent::first_of([v; BLOCK_SIZE], BLOCK_SIZE),
        Loan::StoredLabel(d) => shown_label(s, d),
    }
}
