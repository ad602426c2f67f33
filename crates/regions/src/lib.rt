// Maps of regions: "the dirty map, bit r for region r" (document 01, "What the cabinet is").
//
// A map's width stands here, in RegionMap and REGIONS, apart from the width of a set of disks. What the operations
// mean, and their laws, are those of sets (crate `sets`), which name no width; nor does the code that asks for a bit.
// Those that make a map stay beside those that make a set: each is one operator of its own integer type.
#![tactic(auto)]

ghost use Rattle.std.specs.Prelude.{◌≡◌, ◌<◌};
ghost use Rattle.sets.specs.Sets.{has, union, difference, singleton, below};

pub type RegionMap = u8;

// As many regions as a map has bits: the most that a disk may have.
pub const REGIONS: usize = 8;

// This and `below` hand on to the generic ones. They stand beside them for their promises of maps, and for the edits
// that each has of its own. A region from REGIONS up is in no map, so any number may be asked about.
pub fn has(map: RegionMap, region: usize) -> bool
    ensures { result ≡ has map region }
{
    sets::has(map, region)
}

pub fn union(a: RegionMap, b: RegionMap) -> RegionMap
    ensures { result ≡ union a b }
{
    a | b
}

// The map with the region's bit standing. A region from REGIONS up has none, so the bound must be asked.
pub fn marked(map: RegionMap, region: usize) -> RegionMap
    requires { region < REGIONS }
    ensures { result ≡ union map (singleton region) }
{
    map | (1 << region)
}

// The map with the region's bit cleared.
pub fn cleared(map: RegionMap, region: usize) -> RegionMap
    requires { region < REGIONS }
    ensures { result ≡ difference map (singleton region) }
{
    map & !(1 << region)
}

// Whether the map has only regions below a count.
pub fn below(map: RegionMap, count: usize) -> bool
    ensures { result ≡ below map count }
{
    sets::below(map, count)
}
