// Sets of disks as masks: bit d stands for disk d (document 01, "What the cabinet is").
//
// A set's width stands here, in Mask and DISKS, and `impl Bits` names the same integer type. No definition, law or
// proof names it.
#![tactic(auto)]

ghost use Rattle.std.specs.Prelude.{◌≡◌, cond, ◌^◌, ◌<◌, ◌≤◌};
ghost use Rattle.sets.specs.Sets.{union, intersection, difference, subset};
ghost use Rattle.sets.specs.Sets.{singleton, all, size, lowest};

mod bits;

pub use bits::{Bits, below, has};

pub type Mask = u8;

// As many disks as a mask has bits: the most that a cabinet may have. Functions that need n up to it ask so: a type for
// such an n would hold one number, which each loop and each shift would take out again.
pub const DISKS: usize = 8;

pub fn union(a: Mask, b: Mask) -> Mask
    ensures { result ≡ union a b }
{
    a | b
}

pub fn intersection(a: Mask, b: Mask) -> Mask
    ensures { result ≡ intersection a b }
{
    a & b
}

pub fn difference(a: Mask, b: Mask) -> Mask
    ensures { result ≡ difference a b }
{
    a & !b
}

pub fn subset(a: Mask, b: Mask) -> bool
    ensures { result ≡ subset a b }
{
    intersection(a, b) == a
}

// A disk from DISKS up has no bit, so the bound must be asked.
pub fn singleton(d: usize) -> Mask
    requires { d < DISKS }
    ensures { result ≡ singleton d }
{
    1 << d
}

// The disk as a set, if it is wanted: a flag here and no branch in each of the loops that collect disks.
pub fn singleton_if(wanted: bool, d: usize) -> Mask
    requires { d < DISKS }
    ensures { result ≡ cond wanted (singleton d) 0 }
{
    if wanted { singleton(d) } else { 0 }
}

// The disks below n. A mask holds no more than DISKS of them, so the bound must be asked.
pub fn all(n: usize) -> Mask
    requires { n ≤ DISKS }
    ensures { result ≡ all n }
{
    // A shift by the whole width is undefined.
    if n < DISKS { singleton(n) - 1 } else { !0 }
}

// The set that a number stands for, bit d for disk d. One that a mask cannot hold stands for none, so the bound must be
// asked. No From, here and in `number`: who calls names no width, and so not the type. What narrows does so by `as`,
// here and elsewhere: the check proves that nothing is lost, and `try_from` would ask for an unwrap.
pub fn from_number(v: u16) -> Mask
    requires { v < 2 ^ DISKS }
    ensures { result ≡ v }
{
    v as Mask
}

// The number that a set is, wide enough for every width that a set may have.
pub fn number(s: Mask) -> u16
    ensures { result ≡ s }
{
    u16::from(s)
}

// No more than DISKS, so that sums of sizes are seen to fit. By `as`, here and below: std has no From of u32 for usize.
pub fn size(s: Mask) -> usize
    ensures { (result ≡ size s) × (result ≤ DISKS) }
{
    s.count_ones() as usize
}

// The empty set has no lowest member; its trailing zeros would be the width, so 0 is given instead, as the definition
// does.
pub fn lowest(s: Mask) -> usize
    ensures { result ≡ lowest s }
{
    if s == 0 {
        0
    } else {
        s.trailing_zeros() as usize
    }
}
