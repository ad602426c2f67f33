// The list of sets that a stage tests (document 02, 2.4).
ghost use Rattle.std.specs.Prelude.{◌≡◌, ◌<◌};
ghost use Rattle.protocol.specs.Finder.{repeated, shortlist};
ghost use Rattle.finder.specs.Stages.{stage_of};
ghost use Rattle.finder.specs.SetLists.{listed};

use crate::set_list::SetList;
use crate::{Stage, View};
use sets::DISKS;

impl View {
    // Whether a disk below d has the same set.
    fn repeated(&self, stage: Stage, d: usize) -> bool
        requires { d < DISKS }
        ensures { result ≡ repeated (stage_of stage) self.now.labels d }
    {
        let x = stage.tried(self.labels[d]);
        self.labels[..d].iter().any(|l| x == stage.tried(*l))
    }

    // "list for each stage at most n sets to test": those of the disks, ascending, each once. By the `min` compiled
    // code knows that there are no more than eight, and the disk in each iteration. `&`, since by `&&` a restart took
    // 5% longer.
    #[tactic(auto, unfolding(protocol::specs::Finder::shortlist, protocol::specs::Loops::ascending))]
    pub(crate) fn shortlist(&self, stage: Stage) -> SetList
        ensures { listed result ≡ shortlist (stage_of stage) self.now.disks self.now.labels }
    {
        let mut list = SetList::new();
        for d in 0..self.disks.min(DISKS) {
            let x = stage.tried(self.labels[d]);
            if (0 < x) & !self.repeated(stage, d) {
                list.push(x);
            }
        }
        list
    }
}
