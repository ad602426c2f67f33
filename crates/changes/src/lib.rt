// Stores on labels under a budget. They touch no block, so their promises hold for every disk area.
#![tactic(auto)]

ghost use Rattle.std.specs.Prelude.{◌≡◌, List, [], ◌∷◌, ℕ, ◌≤◌};
ghost use Rattle.protocol.specs.Loops.{for_each};
ghost use Rattle.budget.specs.Runs.{progress, run_all};
ghost use Rattle.changes.specs.Changes.{FitChange, changed, change_on};

use budget::Run;
use label::Label;
use sets::{DISKS, Mask};

// A store on a label, without its disk. A value and no closure: `change_on` and `FitChange` go by its cases.
#[derive(Clone, Copy)]
pub enum Change {
    // The dirty bit of a region: it stands, or it is cleared.
    Mark(usize),
    Clear(usize),
    // T = S
    Propose(Mask),
    // C = S and T = 0
    Commit(Mask),
}

impl Change {
    // What the store leaves of a label.
    fn apply(self, l: Label) -> Label
        requires { FitChange self }
        ensures { result ≡ changed self l }
    {
        match self {
            Change::Mark(r) => Label {
                dirty: regions::marked(l.dirty, r),
                ..l
            },
            Change::Clear(r) => Label {
                dirty: regions::cleared(l.dirty, r),
                ..l
            },
            Change::Propose(set) => Label {
                tentative: set,
                ..l
            },
            Change::Commit(set) => Label {
                committed: set,
                tentative: 0,
                ..l
            },
        }
    }
}

// The store on each disk of the set below n, ascending, while the power allows. Labels and budget are taken apart
// meanwhile: a budget in a register costs nothing to count down.
pub fn store_labels(run: Run, n: usize, set: Mask, change: Change) -> Run
    requires { (n ≤ DISKS) × FitChange change }
    ensures { (b : ℕ) (area : List ℕ) → progress result area
        ≡ run_all b (for_each n set (λ d. change_on change d ∷ [])) (progress run area) }
{
    if set == 0 {
        return run;
    }
    let mut labels = run.labels;
    let mut left = run.left;
    for d in 0..n {
        if (left != 0) & sets::has(set, d) {
            labels[d] = change.apply(labels[d]);
            left -= 1;
        }
    }
    Run { labels, left }
}
