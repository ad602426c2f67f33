// The cabinet program: it reads a block of input, has the shell serve it, and writes the replies.
#![tactic(auto)]

ghost use Rattle.std.specs.Prelude.{◌≡◌, length, Some, None, MatchResult};
ghost use Rattle.buffers.specs.Buffers.{splice};
ghost use Rattle.protocol.specs.Geometry.{most_disks, most_blocks, area_size};
ghost use Rattle.shell.specs.Dialogue.{dialogue, initial};
ghost use Rattle.program.specs.Reads.{count_read, after_read, printed_read};
ghost use Rattle.console.specs.Runs.{Replies, Followed, Ran};

use program::goes_on;
use protocol::geometry::{BLOCK_SIZE, MOST_BLOCKS};
use replies::REPLY_MOST;
use sets::DISKS;
use shell::Shell;
use std::io;
use std::io::Read;

// The most bytes of input at a time.
const BLOCK: usize = 4096;

// Each byte of a block may end a line.
const OUTPUT: usize = BLOCK * REPLY_MOST;

// The largest disk area.
const MEMORY: usize = DISKS * MOST_BLOCKS * BLOCK_SIZE;

// What one read gave, and whether the replies to it were written. That flag says nothing of the read, so it is no
// Option round it.
#[derive(Clone, Copy)]
struct Served {
    got: Option<usize>,
    written: bool,
}

// What a read gave: how many bytes, none at the end of the input, or `None` where it failed. A function, since its
// clause says what becomes of an error: an edit that takes one for the end of the input is refused there.
fn count_of(read: io::Result<usize>) -> Option<usize>
    ensures { MatchResult read (λ n. result ≡ Some n) (λ _. result ≡ None) }
{
    read.ok()
}

// The memory of the program holds the largest disk area.
#[tactic(auto, unfolding(protocol::specs::Geometry::area_size))]
fn largest_area() -> [u8; MEMORY]
    ensures { length result ≡ area_size most_disks most_blocks }
{
    [0; MEMORY]
}

// The replies to what came are written, and the output is empty again.
fn answer(rt: &HostRuntime, got: Option<usize>, shell: &mut Shell, said: &[u8]) -> Served
    requires { Replies (count_read got) shell.old said.now }
    ensures { (result.got ≡ got) × (shell.new ≡ record shell.old { used = 0 }) }
{
    shell.used = 0;
    Served {
        got,
        written: rt.write_all(said).is_ok(),
    }
}

// What the program holds from read to read: the shell, the block that a read fills, the disk area, and the replies. It
// is made in `main`, which alone owns it, so that it is not copied: `out` has more bytes than all else.
#[derive(Drop)]
struct Program {
    shell: Shell,
    block: [u8; BLOCK],
    memory: [u8; MEMORY],
    out: [u8; OUTPUT],
}

impl Program {
    // One read, and the replies to what came, so that a person who types has them before the next read.
    fn serve_once(&mut self, rt: &HostRuntime) -> Served
        requires { self.old.shell.used ≡ 0 }
        ensures dialogue { dialogue self.new.shell self.new.memory
            ≡ after_read (count_read result.got) self.new.block (dialogue self.old.shell self.old.memory) }
        ensures output { self.new.out
            ≡ splice 0
            (printed_read (count_read result.got) self.new.block (dialogue self.old.shell self.old.memory))
            self.old.out }
        ensures room { self.new.shell.used ≡ 0 }
    {
        let got = count_of(rt.stdin().read(&mut self.block));
        program::hear(
            got,
            &self.block,
            &mut self.shell,
            &mut self.memory,
            &mut self.out,
        );
        let said = &self.out[..self.shell.used];
        answer(rt, got, &mut self.shell, said)
    }

    // The reads that follow one; none, where none is to follow. Their number only lets the proof see an end: at a read
    // each nanosecond it would be reached in 584 years.
    fn read_on(&mut self, rt: &HostRuntime, first: Served) -> Served
        requires { self.old.shell.used ≡ 0 }
        ensures { Followed first self.old result self.new }
    {
        let mut last = first;
        for _ in 0..u64::MAX - 1 {
            if !goes_on(last.got, last.written) {
                break;
            }
            last = self.serve_once(rt);
        }
        last
    }

    #[tactic(auto, using(crate::proofs::Runs::first_made))]
    fn run(&mut self, rt: &HostRuntime) -> Served
        requires { (dialogue self.old.shell self.old.memory ≡ initial self.old.memory)
            × (self.old.shell.used ≡ 0) }
        ensures { Ran self.old.memory self.new result }
    {
        let first = self.serve_once(rt);
        self.read_on(rt, first)
    }
}

fn main(rt: HostRuntime) {
    let mut program = Program {
        shell: Shell::new(),
        block: [0; BLOCK],
        memory: largest_area(),
        out: [0; OUTPUT],
    };
    program.run(&rt);
}
