// Byte buffers that a caller lends, and lists of bytes that are kept in one. What it means that bytes are stored in one
// stands in specs/.
#![tactic(auto)]

ghost use Rattle.std.specs.Prelude.{◌≡◌, length, replicate};

mod byte_list;

pub use byte_list::ByteList;

// `fill` by a name: its edits are a clearing that misses a byte, and one to another value.
pub fn clear(buffer: &mut [u8])
    ensures { buffer.new ≡ replicate (length buffer.old) 0 }
{
    buffer.fill(0);
}
