// A list of sets by value: no more than there are disks.
ghost use Rattle.std.specs.Prelude.{◌≤◌};
ghost use Rattle.protocol.specs.Geometry.{most_disks};

use sets::{DISKS, Mask};

// The first `count` of the sets. No Vec, since nothing here allocates; no fixed vector of the kit's, since that crate
// would be one more to trust; no `ByteList`, since a set need not be a byte, and that one drops what it has no room
// for.
#[derive(Clone, Copy)]
pub(crate) struct SetList {
    sets: [Mask; DISKS],
    count: usize,
    ghost fits: { count ≤ most_disks },
}

impl SetList {
    ghost use Rattle.std.specs.Prelude.{◌≡◌, [], ◌∷◌, ◌++◌, ◌+◌, ◌<◌};
    ghost use Rattle.finder.specs.SetLists.{listed};

    pub(crate) fn new() -> Self
        ensures { listed result ≡ [] }
    {
        SetList {
            sets: [0; DISKS],
            count: 0,
        }
    }

    pub(crate) fn push(&mut self, x: Mask)
        requires { self.old.count < DISKS }
        ensures count { self.new.count ≡ self.old.count + 1 }
        ensures sets { listed self.new ≡ listed self.old ++ x ∷ [] }
    {
        self.sets[self.count] = x;
        self.count += 1;
    }

    pub(crate) fn as_slice(&self) -> &[Mask]
        ensures { result.now ≡ listed self.now }
    {
        &self.sets[..self.count]
    }
}
