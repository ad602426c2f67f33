// Numbers as decimal numerals.
//
// Not by `Display`: std promises what a `write!` that gives `Ok` has written, and not that one with room gives `Ok`, so
// no reply could be promised in a buffer. And nothing of the product allocates, which rules out `format!`.
#![tactic(auto)]

ghost use Rattle.std.specs.Prelude.{◌+◌, ◌≤◌, length};
ghost use Rattle.buffers.specs.Buffers.{Stored};
ghost use Rattle.decimal.specs.Numerals.{numeral};

// Stores the number's numeral at a place, and gives the place behind it. The place is passed, and not the buffer from
// there on: `Stored` also says that what stands in front of it stays.
#[tactic(auto, using(crate::proofs::Putting::putting))]
pub fn put(out: &mut [u8], at: usize, n: u16) -> usize
    requires { at + length (numeral n) ≤ length out.old }
    ensures { Stored at (numeral n) out.old result out.new }
{
    if n < 10 {
        out[at] = b'0' + n as u8;
        at + 1
    } else {
        let last = put(out, at, n / 10);
        out[last] = b'0' + (n % 10) as u8;
        last + 1
    }
}
