// Why a set is no candidate of a stage.
ghost use Rattle.std.specs.Prelude.{◌≡◌};
ghost use Rattle.protocol.specs.Diagnosis.{reason_for};
ghost use Rattle.finder.specs.Stages.{stage_of};

use crate::{Stage, View};
use protocol::Reason;
use sets::Mask;

impl View {
    // "the set is empty, or the lowest disk of it that is out of reach, or else the lowest disk of it that disagrees
    // with what that stage asks, or in stage 2 that no member has the set as its T, or that the set is a candidate"
    #[tactic(auto, using(crate::proofs::Masks::reason_by_masks))]
    pub fn reason_for(&self, stage: Stage, x: Mask) -> Reason
        ensures { result ≡ reason_for (stage_of stage) self.now.disks self.now.online self.now.labels x }
    {
        if x == 0 {
            return Reason::Empty;
        }
        let unreachable = sets::difference(x, self.online);
        if 0 < unreachable {
            return Reason::OutOfReach(sets::lowest(unreachable));
        }
        let backing = self.backers(stage, x);
        let disagree = sets::difference(x, backing);
        if 0 < disagree {
            return Reason::Disagrees(sets::lowest(disagree));
        }
        let proposing = sets::intersection(x, self.holders(stage, x, backing));
        if 0 < proposing {
            return Reason::IsCandidate;
        }
        Reason::NoneProposes
    }
}
