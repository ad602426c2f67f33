// The line that answers a line of the cabinet program. `decimal` says why no `Display` writes it.
#![tactic(auto)]

ghost use Rattle.std.specs.Prelude.{◌+◌, ◌≤◌, length};
ghost use Rattle.buffers.specs.Buffers.{Stored};
ghost use Rattle.replies.specs.Replies.{field_most, reply_most, field, reply_line};

use sets::Mask;

// The five numbers, as they are printed, so no enum for the result: current is G, 0 if stopped; online is R; byte is
// the first byte read, 0 unless a read was done.
#[derive(Clone, Copy)]
pub struct Reply {
    pub result: u8,
    pub stores: u16,
    pub current: Mask,
    pub online: Mask,
    pub byte: u8,
}

// Five numbers of at most five digits, and a byte behind each.
pub const REPLY_MOST: usize = 30;

// Stores a number and the byte that ends it, and gives the place behind them: `put` of `decimal` says why by the place.
#[tactic(auto, using(decimal::proofs::Numerals::short))]
fn put_field(out: &mut [u8], at: usize, n: u16, end: u8) -> usize
    requires { at + field_most ≤ length out.old }
    ensures stored { Stored at (field n end) out.old result out.new }
    ensures bounded { result ≤ at + field_most }
{
    let last = decimal::put(out, at, n);
    out[last] = end;
    last + 1
}

// Stores the line of a reply, and gives the place behind it.
pub fn put_reply(out: &mut [u8], at: usize, reply: Reply) -> usize
    requires { at + reply_most ≤ length out.old }
    ensures stored { Stored at (reply_line reply) out.old result out.new }
    ensures bounded { result ≤ at + reply_most }
{
    let stores = put_field(out, at, u16::from(reply.result), b' ');
    let current = put_field(out, stores, reply.stores, b' ');
    let online = put_field(out, current, sets::number(reply.current), b' ');
    let byte = put_field(out, online, sets::number(reply.online), b' ');
    put_field(out, byte, u16::from(reply.byte), b'\n')
}
