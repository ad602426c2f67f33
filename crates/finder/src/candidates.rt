// Whether a set is a candidate of a stage: one pass over the labels says which disks have it, and the rest are set
// operations.
ghost use Rattle.std.specs.Prelude.{◌≡◌};
ghost use Rattle.protocol.specs.Naming.{candidate};
ghost use Rattle.finder.specs.Stages.{stage_of};
ghost use Rattle.finder.specs.Masks.{backers, holders};

use crate::{Stage, View};
use sets::{DISKS, Mask};

impl View {
    // The disks whose label has what the stage asks of each member. The loop goes over all eight labels, so that
    // compiled code knows the disk in each iteration.
    #[tactic(auto, unfolding(crate::specs::Masks::backers))]
    pub(crate) fn backers(&self, stage: Stage, x: Mask) -> Mask
        ensures { result ≡ backers (stage_of stage) self.now.labels x }
    {
        let mut set = 0;
        #[tactic(auto, unfolding(protocol::specs::Loops::disks_where, protocol::specs::Loops::union_below))]
        for d in 0..DISKS {
            let backs = stage.backs(self.labels[d], x);
            set = sets::union(set, sets::singleton_if(backs, d));
        }
        set
    }

    // The disks that have the set as the one that the stage may test. Only in stage 2 are they not all that back it.
    pub(crate) fn holders(&self, stage: Stage, x: Mask, backing: Mask) -> Mask
        requires { backing ≡ backers (stage_of stage) self.now.labels x }
        ensures { result ≡ holders (stage_of stage) self.now.labels x }
    {
        match stage {
            Stage::First | Stage::Third => backing,
            Stage::Second => self.backers(Stage::First, x),
        }
    }

    // "A candidate is a non-empty set X inside R": every member backs it, and some member holds it, so it has one.
    pub(crate) fn is_candidate(&self, stage: Stage, x: Mask) -> bool
        ensures { result ≡ candidate (stage_of stage) self.now.disks self.now.online self.now.labels x }
    {
        let backing = self.backers(stage, x);
        let holding = self.holders(stage, x, backing);
        sets::subset(x, sets::intersection(self.online, backing))
            & (0 < sets::intersection(x, holding))
    }
}
