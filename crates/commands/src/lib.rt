// A line of the cabinet program, taken apart (document 01, "The cabinet program").
#![tactic(auto)]

ghost use Rattle.std.specs.Prelude.{◌≡◌};
ghost use Rattle.commands.specs.Commands.{command_of};

use letters::decode;
use protocol::Call;
use scanner::Scan;

mod letters;
mod scanner;

// "or one over 32 bytes before its line feed"
pub const LINE_MOST: usize = 32;

// What a command lends to its call: a block filled with a byte, or the label that the state holds for a disk.
#[derive(Clone, Copy)]
pub enum Loan {
    Block(u8),
    StoredLabel(usize),
}

// A fresh, with its n and b; a call of the list, and what is lent to it; or any other line. `command_number` of
// specs/Commands.antt says which number each gives by itself. `Bad` is no `None` beside the others: it is executed and
// answered as they are, and `ProgramMeetsDemand3` tells lines apart by the variants.
#[derive(Clone, Copy)]
pub enum Command {
    Format { disks: u16, blocks: u16 },
    Perform { call: Call, loan: Loan },
    Bad,
}

// The command that a line is, without its line feed.
#[tactic(auto, using(crate::proofs::Decoding::one_pass_decodes), unfolding(crate::specs::Commands::command_of))]
pub fn parse(line: &[u8]) -> Command
    ensures { result ≡ command_of line.now }
{
    if LINE_MOST < line.len() {
        return Command::Bad;
    }
    decode(Scan::of(line).end_word())
}
