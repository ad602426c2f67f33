// The search for the set, among the sets that each stage lists and no others.
ghost use Rattle.std.specs.Prelude.{◌≡◌};
ghost use Rattle.protocol.specs.Geometry.{most_disks};
ghost use Rattle.protocol.specs.Loops.{union_below};
ghost use Rattle.protocol.specs.States.{tentative_at};
ghost use Rattle.protocol.specs.Finder.{found_among, among, find};
ghost use Rattle.naming.specs.Meaning.{found_of};
ghost use Rattle.finder.specs.Stages.{stage_of};
ghost use Rattle.finder.specs.Found.{another};

use crate::{Stage, View};
use naming::{Naming, Unnamed};
use sets::Mask;

// One candidate more, be it a set that was found before.
#[tactic(auto, unfolding(crate::specs::Found::another))]
fn another(found: Naming, x: Mask) -> Naming
    ensures { found_of result ≡ another (found_of found) x }
{
    match found {
        Err(Unnamed::Nothing) => Ok(x),
        Ok(_) | Err(Unnamed::Several) => Err(Unnamed::Several),
    }
}

impl View {
    // What is found among the sets of a list, whatever is on it: these are tested, and no others.
    #[tactic(auto, using(crate::proofs::Walk::found_none, crate::proofs::Walk::found_next))]
    fn found_among(&self, stage: Stage, sets: &[Mask]) -> Naming
        ensures { found_of result
            ≡ found_among (stage_of stage) self.now.disks self.now.online self.now.labels sets.now }
    {
        let mut found = Err(Unnamed::Nothing);
        for x in sets {
            if self.is_candidate(stage, *x) {
                found = another(found, *x);
            }
        }
        found
    }

    // What a stage finds: among the sets of its own list.
    #[tactic(auto, unfolding(protocol::specs::Finder::among, protocol::specs::Finder::found_among))]
    fn among(&self, stage: Stage) -> Naming
        ensures { found_of result ≡ among (stage_of stage) self.now.disks self.now.online self.now.labels }
    {
        self.found_among(stage, self.shortlist(stage).as_slice())
    }

    // The disks that are in any T. Mostly there is none, and then the first two stages have nothing to test.
    #[tactic(auto, unfolding(protocol::specs::Loops::union_below))]
    fn proposals(&self) -> Mask
        ensures { result ≡ union_below most_disks (tentative_at self.now.labels) }
    {
        let mut set = 0;
        for label in &self.labels {
            set = sets::union(set, label.tentative);
        }
        set
    }

    // "The first stage with a candidate decides: one candidate is the set, more than one is refused with 14. No
    // candidate in any stage is 13." A stage is tried if those before it found nothing.
    pub fn find(&self) -> Naming
        ensures { found_of result ≡ find self.now.disks self.now.online self.now.labels }
    {
        if 0 < self.proposals() {
            let first = self.among(Stage::First);
            if first != Err(Unnamed::Nothing) {
                return first;
            }
            let second = self.among(Stage::Second);
            if second != Err(Unnamed::Nothing) {
                return second;
            }
        }
        self.among(Stage::Third)
    }
}
