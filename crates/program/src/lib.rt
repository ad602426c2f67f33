// The cabinet program but for its reads and writes: what a read gives is heard. `console` reads and writes.
#![tactic(auto)]

ghost use Rattle.std.specs.Prelude.{◌≡◌, ◌+◌, ◌*◌, ◌≤◌, length};
ghost use Rattle.buffers.specs.Buffers.{Stored};
ghost use Rattle.replies.specs.Replies.{reply_most};
ghost use Rattle.shell.specs.Dialogue.{dialogue};
ghost use Rattle.program.specs.Reads.{count_read, after_read, printed_read, goes_on};

use shell::Shell;

// What a read into the block gave: so many bytes, none at the end of the input, or `None` where it failed.
#[tactic(auto, using(crate::proofs::Reading::hearing))]
pub fn hear(got: Option<usize>, block: &[u8], shell: &mut Shell, memory: &mut [u8], out: &mut [u8])
    requires { (shell.old.used + length block.now * reply_most ≤ length out.old)
        × (shell.old.used + reply_most ≤ length out.old) }
    ensures dialogue { dialogue shell.new memory.new
        ≡ after_read (count_read got) block.now (dialogue shell.old memory.old) }
    ensures output { Stored shell.old.used
        (printed_read (count_read got) block.now (dialogue shell.old memory.old))
        out.old shell.new.used out.new }
    ensures room { shell.new.used ≤ length out.new }
{
    match got {
        None => {}
        Some(0) => shell.finish(memory, out),
        Some(count) => shell.serve(&block[..count.min(block.len())], memory, out),
    }
}

// Whether another read is to follow. An error or the end of the input ends the program; so does a reply that cannot be
// written, for nobody reads any more.
pub fn goes_on(got: Option<usize>, written: bool) -> bool
    ensures { result ≡ goes_on (count_read got) written }
{
    written && got.is_some_and(|count| 0 < count)
}
