// What a command does to the cabinet, and what it is answered.
#![tactic(auto)]

ghost use Rattle.std.specs.Prelude.{◌≡◌, min};
ghost use Rattle.protocol.specs.Geometry.{area_size};
ghost use Rattle.interpreter.specs.Execution.{machine_of, executed_to, reply_to};
ghost use Rattle.interpreter.specs.Execution.{format_executed, call_executed, executed};

use commands::{Command, Loan};
use lending::lend;
use protocol::geometry::BLOCK_SIZE;
use protocol::{Answer, Call, State};
use refusals::Refusal;
use replies::Reply;

mod lending;

// How much of the memory is the disk area of so many disks and blocks. No more than there is: a call refuses numbers
// for which that is too little.
#[tactic(auto, unfolding(protocol::specs::Geometry::area_size))]
fn area_end(disks: u16, blocks: u16, most: usize) -> usize
    ensures { result ≡ min (area_size disks blocks) most }
{
    (usize::from(disks) * usize::from(blocks) * BLOCK_SIZE).min(most)
}

#[tactic(auto, unfolding(crate::specs::Execution::reply_to))]
fn reply_to(answer: Answer, byte: u8) -> Reply
    ensures { result ≡ reply_to answer.refusal answer.stores answer.state byte }
{
    Reply {
        result: answer.refusal,
        stores: answer.stores,
        current: state::current(answer.state.power),
        online: answer.state.online,
        byte,
    }
}

// "refused, they yield one that is all zero and stopped, and the program then keeps the one it had"
fn format(disks: u16, blocks: u16, state: &mut State, memory: &mut [u8]) -> Reply
    ensures { executed_to state.new memory.new result
        ≡ format_executed disks blocks (machine_of state.old memory.old) }
{
    let end = area_end(disks, blocks, memory.len());
    let answer = cabinet::format(usize::from(disks), usize::from(blocks), &mut memory[..end]);
    if answer.refusal == 0 {
        *state = answer.state;
    }
    let kept = Answer {
        state: *state,
        ..answer
    };
    reply_to(kept, 0)
}

// A call on the cabinet. The output stays zero unless a read is done.
fn perform(call: Call, loan: Loan, state: &mut State, memory: &mut [u8]) -> Reply
    ensures { executed_to state.new memory.new result ≡ call_executed call loan (machine_of state.old memory.old) }
{
    let end = area_end(
        u16::from(state.disks),
        u16::from(state.blocks),
        memory.len(),
    );
    let lent = lend(loan, *state);
    let mut output = [0u8; BLOCK_SIZE];
    let answer = cabinet::apply(
        call,
        *state,
        &mut memory[..end],
        lent.as_slice(),
        &mut output,
    );
    *state = answer.state;
    reply_to(answer, output[0])
}

// What a command does to the state, and to the memory, which holds the disk area at its front; and its reply.
#[tactic(auto, unfolding(crate::specs::Execution::executed))]
pub fn execute(command: Command, state: &mut State, memory: &mut [u8]) -> Reply
    ensures { executed_to state.new memory.new result ≡ executed command (machine_of state.old memory.old) }
{
    match command {
        Command::Format { disks, blocks } => format(disks, blocks, state, memory),
        Command::Perform { call, loan } => perform(call, loan, state, memory),
        Command::Bad => reply_to(state::refused(*state, Refusal::BadLine), 0),
    }
}
