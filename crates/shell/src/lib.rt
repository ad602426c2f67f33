// Input in blocks: bytes are buffered until their line ends, and replies are collected in a buffer.
#![tactic(auto)]

ghost use Rattle.std.specs.Prelude.{◌≡◌, ◌+◌, ◌*◌, ◌≤◌, [], length};
ghost use Rattle.buffers.specs.Buffers.{Stored};
ghost use Rattle.buffers.specs.ByteLists.{bytes_of};
ghost use Rattle.protocol.specs.States.{zero_state};
ghost use Rattle.replies.specs.Replies.{reply_most, reply_line};
ghost use Rattle.shell.specs.Dialogue.{line_ended, line_result, after_byte, printed_byte};
ghost use Rattle.shell.specs.Dialogue.{after_input, printed_input, printed_end, after_end, dialogue_of, dialogue};

use interpreter::execute;
use protocol::State;

mod line;

pub use line::Line;

// Between two bytes: the cabinet's state, the line under way, and how much of the output is used. The output and the
// memory are lent to each call, and not in this struct: each method would have to promise that it keeps the
// references.
#[derive(Clone, Copy)]
pub struct Shell {
    pub state: State,
    pub line: Line,
    pub used: usize,
}

impl Shell {
    // "Before the first good `f` the state is all zero".
    pub fn new() -> Self
        ensures { (result.state ≡ zero_state) × (bytes_of result.line ≡ []) × (result.used ≡ 0) }
    {
        Shell {
            state: state::zero(),
            line: Line::new(),
            used: 0,
        }
    }

    fn end_line(&mut self, memory: &mut [u8], out: &mut [u8])
        requires { self.old.used + reply_most ≤ length out.old }
        ensures dialogue { dialogue self.new memory.new ≡ line_ended (dialogue self.old memory.old) }
        ensures output { Stored self.old.used
            (reply_line (line_result (dialogue self.old memory.old)).reply)
            out.old self.new.used out.new }
        ensures room { self.new.used ≤ self.old.used + reply_most }
    {
        self.used = answer_line(
            self.line.as_slice(),
            &mut self.state,
            self.used,
            memory,
            out,
        );
        self.line.clear();
    }

    #[tactic(auto, using(crate::proofs::Blocks::serving))]
    fn take_byte(&mut self, byte: u8, memory: &mut [u8], out: &mut [u8])
        requires { self.old.used + reply_most ≤ length out.old }
        ensures dialogue { dialogue self.new memory.new ≡ after_byte byte (dialogue self.old memory.old) }
        ensures output { Stored self.old.used
            (printed_byte byte (dialogue self.old memory.old))
            out.old self.new.used out.new }
        ensures room { self.new.used ≤ self.old.used + reply_most }
    {
        if byte == b'\n' {
            self.end_line(memory, out);
        } else {
            self.line.push(byte);
        }
    }

    // Takes a block of input, cut anywhere. What its lines print stands in the output behind what was there.
    pub fn serve(&mut self, block: &[u8], memory: &mut [u8], out: &mut [u8])
        requires { self.old.used + length block.now * reply_most ≤ length out.old }
        ensures dialogue { dialogue self.new memory.new
            ≡ after_input block.now (dialogue self.old memory.old) }
        ensures output { Stored self.old.used
            (printed_input block.now (dialogue self.old memory.old))
            out.old self.new.used out.new }
        ensures room { self.new.used ≤ self.old.used + length block.now * reply_most }
    {
        for byte in block {
            self.take_byte(*byte, memory, out);
        }
    }

    // The input has ended, and with it a line that has begun.
    pub fn finish(&mut self, memory: &mut [u8], out: &mut [u8])
        requires { self.old.used + reply_most ≤ length out.old }
        ensures dialogue { dialogue self.new memory.new ≡ after_end (dialogue self.old memory.old) }
        ensures output { Stored self.old.used
            (printed_end (dialogue self.old memory.old))
            out.old self.new.used out.new }
        ensures room { self.new.used ≤ self.old.used + reply_most }
        ensures ended { bytes_of self.new.line ≡ [] }
    {
        self.used = finish(
            self.line.as_slice(),
            &mut self.state,
            self.used,
            memory,
            out,
        );
        self.line.clear();
    }
}

// A line has ended: it is executed, and its reply stands behind the others. Gives how much of the output is used.
fn answer_line(
    line: &[u8],
    state: &mut State,
    used: usize,
    memory: &mut [u8],
    out: &mut [u8],
) -> usize
    requires { used + reply_most ≤ length out.old }
    ensures dialogue { dialogue_of [] state.new memory.new ≡ line_ended (dialogue_of line.now state.old memory.old) }
    ensures output { Stored used
        (reply_line (line_result (dialogue_of line.now state.old memory.old)).reply)
        out.old result out.new }
    ensures room { result ≤ used + reply_most }
{
    let reply = execute(commands::parse(line), state, memory);
    replies::put_reply(out, used, reply)
}

// The input has ended, and with it a line that has begun: of any length, also one longer than a shell keeps. Gives how
// much of the output is used.
#[tactic(auto, using(crate::proofs::Blocks::serving))]
pub fn finish(
    line: &[u8],
    state: &mut State,
    used: usize,
    memory: &mut [u8],
    out: &mut [u8],
) -> usize
    requires { used + reply_most ≤ length out.old }
    ensures dialogue { dialogue_of [] state.new memory.new ≡ after_end (dialogue_of line.now state.old memory.old) }
    ensures output { Stored used
        (printed_end (dialogue_of line.now state.old memory.old))
        out.old result out.new }
    ensures room { result ≤ used + reply_most }
{
    if line.is_empty() {
        return used;
    }
    answer_line(line, state, used, memory, out)
}
