// Which stage a number stands for, and what each stage asks of a label.
ghost use Rattle.std.specs.Prelude.{◌≡◌, true, false, MatchResult};
ghost use Rattle.refusals.specs.declared.Refusal.TheVariants.{NoSuchStage};
ghost use Rattle.protocol.specs.Naming.{backs};
ghost use Rattle.protocol.specs.Finder.{tried};
ghost use Rattle.protocol.specs.Diagnosis.{no_such_stage, stage_numbered};
ghost use Rattle.finder.specs.Stages.{stage_of};

use crate::Stage;
use label::Label;
use refusals::Refusal;
use sets::Mask;

// "23, the stage is not 1, 2 or 3"
impl TryFrom<usize> for Stage {
    type Error = Refusal;

    ghost try_from_gives = { λ number result. MatchResult result
        (λ stage. (no_such_stage number ≡ false) × (stage_of stage ≡ stage_numbered number))
        (λ refusal. (no_such_stage number ≡ true) × (refusal ≡ NoSuchStage)) };

    fn try_from(number: usize) -> Result<Stage, Refusal> {
        match number {
            1 => Ok(Stage::First),
            2 => Ok(Stage::Second),
            3 => Ok(Stage::Third),
            _ => Err(Refusal::NoSuchStage),
        }
    }
}

impl Stage {
    // "Stage 1: every member has T = X. Stage 2: every member has T = X or C = X .. Stage 3: every member has C = X."
    #[tactic(auto, unfolding(protocol::specs::Naming::backs))]
    pub(crate) fn backs(self, l: Label, x: Mask) -> bool
        ensures { result ≡ backs (stage_of self) l x }
    {
        match self {
            Stage::First => l.tentative == x,
            Stage::Second => (l.tentative == x) | (l.committed == x),
            Stage::Third => l.committed == x,
        }
    }

    // The set of a label that the stage may test: in stage 2 the T, which "some member" must have.
    #[tactic(auto, unfolding(protocol::specs::Finder::tried))]
    pub(crate) fn tried(self, l: Label) -> Mask
        ensures { result ≡ tried (stage_of self) l }
    {
        match self {
            Stage::First | Stage::Second => l.tentative,
            Stage::Third => l.committed,
        }
    }
}
