// Moving to a set, and to L: the stores, how many they are, and a move to L that is a call's whole list. They touch no
// block, so their promises hold for every disk area.
#![tactic(auto)]

ghost use Rattle.std.specs.Prelude.{◌≡◌, true, List, ℕ, ◌*◌, ◌≤◌, eqb, length};
ghost use Rattle.sets.specs.Sets.{below};
ghost use Rattle.protocol.specs.Geometry.{most_disks};
ghost use Rattle.protocol.specs.States.{current_of, live};
ghost use Rattle.protocol.specs.Soundness.{Sound};
ghost use Rattle.protocol.specs.Lists.{move, move_to_live};
ghost use Rattle.protocol.specs.Outcomes.{yields, runs_with, carry_out};
ghost use Rattle.budget.specs.Runs.{progress, run_all};

use budget::{Run, ended, started};
use changes::Change;
use protocol::{Answer, State};
use sets::{DISKS, Mask};
use state::{current, live};

// "for each disk of S, ascending, store T = S; then for each disk of S, ascending, store C = S and T = 0"
pub fn move_to(run: Run, n: usize, set: Mask) -> Run
    requires { n ≤ DISKS }
    ensures { (b : ℕ) (area : List ℕ) → progress result area ≡ run_all b (move n set) (progress run area) }
{
    let run = changes::store_labels(run, n, set, Change::Propose(set));
    changes::store_labels(run, n, set, Change::Commit(set))
}

// Whether L is G: no current disk is out of reach.
pub fn all_live(s: State) -> bool
    ensures { result ≡ eqb (live s) (current_of s.power) }
{
    live(s) == current(s.power)
}

// "if L differs from G, move to L"
pub fn move_to_live(run: Run, s: State) -> Run
    requires { s.disks ≤ DISKS }
    ensures { (b : ℕ) (area : List ℕ) → progress result area ≡ run_all b (move_to_live s) (progress run area) }
{
    if all_live(s) {
        return run;
    }
    move_to(run, usize::from(s.disks), live(s))
}

// How many stores a move has.
pub fn move_length(set: Mask) -> usize
    ensures { ((n : ℕ) → below set n ≡ true → result ≡ length (move n set)) × (result ≤ 2 * most_disks) }
{
    2 * sets::size(set)
}

// How many "if L differs from G, move to L" has.
#[tactic(auto, unfolding(protocol::specs::Lists::move_to_live))]
pub fn live_length(s: State) -> usize
    ensures { (Sound s → result ≡ length (move_to_live s)) × (result ≤ 2 * most_disks) }
{
    if all_live(s) { 0 } else { move_length(live(s)) }
}

// The move to L, and nothing else: what a read stores where L differs from G, and a swap of a current disk.
pub fn moved_to_live(s: State, budget: u16) -> Answer
    requires { Sound s }
    ensures { (area output : List ℕ) → yields result area output
        ≡ carry_out (move s.disks (live s)) budget s area output (runs_with (live s) s output) }
{
    let live = live(s);
    let stores = move_length(live);
    let run = move_to(started(s, budget), usize::from(s.disks), live);
    ended(s, run, stores, live, budget)
}
