// "A state is sound when", clause by clause. The sets that must name only disks below n are tested together, as
// one union, and the loop goes over all eight labels, so that compiled code knows the disk in each iteration: every
// call begins with this test.
#![tactic(auto)]

ghost use Rattle.std.specs.Prelude.{◌≡◌};
ghost use Rattle.protocol.specs.Geometry.{most_disks};
ghost use Rattle.protocol.specs.Soundness.{in_range, sound};
ghost use Rattle.soundness.specs.Clauses.{own_disk, add, survey_below, filled};

use bays::{region_count, wrong_block_count, wrong_disk_count};
use label::{Label, blank, same};
use protocol::{Power, State};
use regions::RegionMap;
use sets::{DISKS, Mask};
use state::current;

// "n and b are in range"
#[tactic(auto, unfolding(protocol::specs::Soundness::in_range))]
fn in_range(n: usize, b: usize) -> bool
    ensures { result ≡ in_range n b }
{
    !wrong_disk_count(n) & !wrong_block_count(b)
}

// "a C or T that is not 0 names its own disk"
#[tactic(auto, unfolding(crate::specs::Clauses::own_disk))]
fn own_disk(d: usize, set: Mask) -> bool
    ensures { result ≡ own_disk d set }
{
    (set == 0) | sets::has(set, d)
}

// What some labels say: whether each is fit by itself, the disks that their sets name, but for members, whose sets are
// G and none, and the regions that are dirty. `fit` is no Option round the rest: the loop goes over all labels anyway,
// and without a branch.
#[derive(Clone, Copy)]
struct Survey {
    fit: bool,
    named: Mask,
    dirty: RegionMap,
}

impl Survey {
    // With the label of disk d beside those that were surveyed: of a member "C = G and T = 0", of another disk below n
    // what its own sets say; "labels from n up are all zero".
    #[tactic(auto, unfolding(crate::specs::Clauses::add))]
    fn add(self, n: usize, g: Mask, d: usize, l: Label) -> Self
        ensures { result ≡ add n g d l self }
    {
        if sets::has(g, d) {
            return Survey {
                fit: self.fit & ((l.committed == g) & (l.tentative == 0)),
                dirty: regions::union(self.dirty, l.dirty),
                ..self
            };
        }
        if d < n {
            return Survey {
                fit: self.fit & (own_disk(d, l.committed) & own_disk(d, l.tentative)),
                named: sets::union(self.named, sets::union(l.committed, l.tentative)),
                dirty: regions::union(self.dirty, l.dirty),
            };
        }
        Survey {
            fit: self.fit & same(l, blank()),
            ..self
        }
    }
}

#[tactic(auto, unfolding(crate::specs::Clauses::survey_below))]
fn survey_labels(n: usize, g: Mask, labels: [Label; DISKS]) -> Survey
    ensures { result ≡ survey_below n g labels most_disks }
{
    let mut survey = Survey {
        fit: true,
        named: 0,
        dirty: 0,
    };
    for d in 0..DISKS {
        survey = survey.add(n, g, d, labels[d]);
    }
    survey
}

// "when running, G is not empty"
#[tactic(auto, unfolding(crate::specs::Clauses::filled))]
fn filled(power: Power) -> bool
    ensures { result ≡ filled power }
{
    !matches!(power, Power::Running(0))
}

// What goes on from here asks `Sound s` of the state as it came. A type that holds a sound state would put its field
// into each of those equations and each use of n, R and labels, and each paragraph would owe which state it hands on.
pub fn sound(s: State) -> bool
    ensures { result ≡ sound s }
{
    let n = usize::from(s.disks);
    let b = usize::from(s.blocks);
    let g = current(s.power);
    let survey = survey_labels(n, g, s.labels);
    let named = sets::union(sets::union(s.online, g), survey.named);
    let known = sets::below(named, n);
    let regions_known = regions::below(survey.dirty, region_count(b));
    in_range(n, b) & (known & (regions_known & (survey.fit & filled(s.power))))
}
