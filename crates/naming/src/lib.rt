// What the labels of disks in reach name (document 01, "Which set a restart names").
#![tactic(auto)]

ghost use Rattle.std.specs.Prelude.{◌≡◌, Err};
ghost use Rattle.refusals.specs.Refusals.{number_of};
ghost use Rattle.protocol.specs.Naming.{found_number};
ghost use Rattle.naming.specs.Meaning.{found_of, refusal_of};

use refusals::Refusal;
use sets::Mask;

// The set that a restart names, or why it names none. `found_of` of specs/Meaning.antt says what each case is in the
// paper's definition.
pub type Naming = Result<Mask, Unnamed>;

#[derive(Clone, Copy, PartialEq, Eq)]
pub enum Unnamed {
    Nothing,
    Several,
}

// The paper's number is that of its definition, `found_number`.
impl From<Unnamed> for Refusal {
    ghost from_gives = { λ unnamed refusal. (refusal ≡ refusal_of unnamed)
        × (number_of refusal ≡ found_number (found_of (Err unnamed))) };

    fn from(unnamed: Unnamed) -> Refusal {
        match unnamed {
            Unnamed::Nothing => Refusal::NoSet,
            Unnamed::Several => Refusal::SeveralSets,
        }
    }
}
