// Numbers whose bits stand for members: of a set of disks, or of a map of regions. Each has a width of its own.
ghost use Rattle.std.specs.Prelude.{◌≡◌, ℕ, ◌<◌, ◌^◌};
ghost use Rattle.sets.specs.Sets.{has, below};

// As many bits as the widest of them may have.
const WIDEST: usize = 64;

// No `Into<u64>`, which says how a value and its number are related, and not which number a clause may name.
pub trait Bits: Copy {
    ghost number: { Self → ℕ };

    fn wide(self) -> u64
        ensures { result ≡ number self };
}

impl Bits for u8 {
    ghost number = { λ bits. bits };

    fn wide(self) -> u64 {
        u64::from(self)
    }
}

// Nothing from WIDEST up is a member, so any number may be asked about.
pub fn has<B: Bits>(bits: B, member: usize) -> bool
    ensures { result ≡ has (B.number bits) member }
{
    let wide = bits.wide();
    member < WIDEST && (wide >> member) & 1 == 1
}

// Whether there are only members below n.
pub fn below<B: Bits>(bits: B, n: usize) -> bool
    ensures { result ≡ below (B.number bits) n }
{
    let wide = bits.wide();
    n >= WIDEST || wide >> n == 0
}
