// A list of bytes whose room is fixed.
ghost use Rattle.std.specs.Prelude.{◌≤◌, length};

// At most N bytes: the first `count` of so many. An array, since nothing here allocates. Clauses speak of its
// `bytes_of`, and not of a model: Rattle copies only what a clause sees whole.
#[derive(Clone, Copy)]
pub struct ByteList<const N: usize> {
    bytes: [u8; N],
    count: usize,
    ghost fits: { count ≤ length bytes },
}

impl<const N: usize> ByteList<N> {
    ghost use Rattle.std.specs.Prelude.{◌≡◌, [], eqb, take};
    ghost use Rattle.buffers.specs.ByteLists.{bytes_of, with_byte_within};

    pub fn new() -> Self
        ensures { bytes_of result ≡ [] }
    {
        ByteList {
            bytes: [0; N],
            count: 0,
        }
    }

    // The first `count` of these.
    pub fn first_of(bytes: [u8; N], count: usize) -> Self
        requires { count ≤ length bytes }
        ensures { bytes_of result ≡ take count bytes.entry }
    {
        ByteList { bytes, count }
    }

    pub fn is_empty(&self) -> bool
        ensures { result ≡ eqb (length (bytes_of self.now)) 0 }
    {
        self.count == 0
    }

    pub fn as_slice(&self) -> &[u8]
        ensures { result.now ≡ bytes_of self.now }
    {
        &self.bytes[..self.count]
    }

    // A byte for which there is no room is dropped.
    #[tactic(auto, using(crate::proofs::ByteLists::with_byte_stored, crate::proofs::ByteLists::with_byte_full))]
    pub fn push(&mut self, byte: u8)
        ensures { bytes_of self.new ≡ with_byte_within N (bytes_of self.old) byte }
    {
        if self.count < self.bytes.len() {
            self.bytes[self.count] = byte;
            self.count += 1;
        }
    }

    pub fn clear(&mut self)
        ensures { bytes_of self.new ≡ [] }
    {
        self.count = 0;
    }
}
