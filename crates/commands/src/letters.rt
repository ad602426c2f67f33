// Which command a letter is, with so many numbers.
ghost use Rattle.std.specs.Prelude.{◌≡◌, [], ◌∷◌};
ghost use Rattle.commands.specs.Commands.{command_with};
ghost use Rattle.commands.specs.Scanning.{decoded};

use crate::scanner::Scan;
use crate::{Command, Loan};
use protocol::Call;

// A call that takes no bytes. It is lent a block of zeros, as the definition has it, and no Option: no call then asks
// for one.
fn plain(call: Call) -> Command
    ensures { result ≡ Command.Perform call (Loan.Block 0) }
{
    Command::Perform {
        call,
        loan: Loan::Block(0),
    }
}

// The command of a letter and its numbers: the list, in the order of `command_with`.
#[tactic(auto, unfolding(crate::specs::Commands::command_with))]
fn with(letter: u8, numbers: &[u16]) -> Command
    ensures { result ≡ command_with letter numbers.now }
{
    match (letter, numbers) {
        (b'c', &[]) => plain(Call::PowerOff),
        (b'x', &[disk]) => plain(Call::Detach {
            disk: usize::from(disk),
        }),
        (b'r', &[disk]) => Command::Perform {
            call: Call::Attach {
                disk: usize::from(disk),
            },
            loan: Loan::StoredLabel(usize::from(disk)),
        },
        (b'q', &[budget]) => plain(Call::Clean { budget }),
        (b's', &[budget]) => plain(Call::Restart { budget }),
        (b'f', &[disks, blocks]) => Command::Format { disks, blocks },
        (b'j', &[disk, budget]) => plain(Call::Join {
            disk: usize::from(disk),
            budget,
        }),
        (b'g', &[block, budget]) => plain(Call::Read {
            block: usize::from(block),
            budget,
        }),
        // "write a block of 64 bytes v (at most 255)"
        (b'w', &[block, value, budget]) => match u8::try_from(value) {
            Ok(byte) => Command::Perform {
                call: Call::Write {
                    block: usize::from(block),
                    budget,
                },
                loan: Loan::Block(byte),
            },
            Err(_) => Command::Bad,
        },
        _ => Command::Bad,
    }
}

// The command of a line whose last word has ended.
#[tactic(auto, using(crate::proofs::Decoding::other_counts), unfolding(crate::specs::Scanning::decoded))]
pub fn decode(scan: Scan) -> Command
    ensures { result ≡ decoded scan }
{
    // A command is a letter and at most three numbers. Of these the last are the line's, one less than it has words.
    let numbers = [scan.third, scan.second, scan.last];
    match scan.words {
        1..=4 if scan.valid => with(scan.letter, &numbers[4 - scan.words..]),
        _ => Command::Bad,
    }
}
