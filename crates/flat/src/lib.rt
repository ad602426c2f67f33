// States and answers as programs in C and Rust hold them: numbers only, laid out as C does. The labels come first,
// and the state in an answer: so compiled code copies them in pieces that start where they do.
#![tactic(auto)]

ghost use Rattle.std.specs.Prelude.{◌≡◌};
ghost use Rattle.protocol.specs.Diagnosis.{reason_number, reason_disk};
ghost use Rattle.flat.specs.Flat.{power_of, opened, flat_state, flat_answer, flat_diagnosis};

use label::Label;
use protocol::{Answer, Diagnosis, Power, Reason, State};
use sets::{DISKS, Mask};

// A state without its enum: `current` is G, and 0 when the cabinet is stopped. A running cabinet with no current disk
// is not sound, so nothing is lost.
#[repr(C)]
#[derive(Clone, Copy)]
pub struct FlatState {
    pub labels: [Label; DISKS],
    pub disks: u8,
    pub blocks: u8,
    pub online: Mask,
    pub current: Mask,
}

// The answer of every exported call.
#[repr(C)]
#[derive(Clone, Copy)]
pub struct FlatAnswer {
    pub state: FlatState,
    pub stores: u16,
    pub refusal: u8,
}

// The answer of a diagnosis without its enum: the reason's number and disk, as `reason_number` and `reason_disk` of
// protocol/specs/Diagnosis.antt give them.
#[repr(C)]
#[derive(Clone, Copy)]
pub struct FlatDiagnosis {
    pub disk: usize,
    pub refusal: u8,
    pub reason: u8,
    pub set: Mask,
}

#[tactic(auto, unfolding(crate::specs::Flat::power_of))]
fn power_of(current: Mask) -> Power
    ensures { result ≡ power_of current }
{
    if current == 0 {
        Power::Stopped
    } else {
        Power::Running(current)
    }
}

impl From<FlatState> for State {
    ghost from_gives = { λ flat state. state ≡ opened flat };

    #[tactic(auto, unfolding(crate::specs::Flat::opened))]
    fn from(flat: FlatState) -> State {
        state::state_of(
            flat.disks,
            flat.blocks,
            flat.labels,
            flat.online,
            power_of(flat.current),
        )
    }
}

impl From<State> for FlatState {
    ghost from_gives = { λ state flat. flat ≡ flat_state state };

    #[tactic(auto, unfolding(crate::specs::Flat::flat_state))]
    fn from(state: State) -> FlatState {
        // By a variable: the check follows no field that is an array straight into a literal.
        let labels = state.labels;
        FlatState {
            labels,
            disks: state.disks,
            blocks: state.blocks,
            online: state.online,
            current: state::current(state.power),
        }
    }
}

impl From<Answer> for FlatAnswer {
    ghost from_gives = { λ answer flat. flat ≡ flat_answer answer };

    #[tactic(auto, unfolding(crate::specs::Flat::flat_answer))]
    fn from(answer: Answer) -> FlatAnswer {
        FlatAnswer {
            state: FlatState::from(answer.state),
            stores: answer.stores,
            refusal: answer.refusal,
        }
    }
}

fn reason_number(reason: Reason) -> u8
    ensures { result ≡ reason_number reason }
{
    match reason {
        Reason::NoReason => 0,
        Reason::Empty => 1,
        Reason::OutOfReach(_) => 2,
        Reason::Disagrees(_) => 3,
        Reason::NoneProposes => 4,
        Reason::IsCandidate => 5,
    }
}

fn reason_disk(reason: Reason) -> usize
    ensures { result ≡ reason_disk reason }
{
    match reason {
        Reason::OutOfReach(d) | Reason::Disagrees(d) => d,
        Reason::NoReason | Reason::Empty | Reason::NoneProposes | Reason::IsCandidate => 0,
    }
}

impl From<Diagnosis> for FlatDiagnosis {
    ghost from_gives = { λ diagnosis flat. flat ≡ flat_diagnosis diagnosis };

    #[tactic(auto, unfolding(crate::specs::Flat::flat_diagnosis))]
    fn from(diagnosis: Diagnosis) -> FlatDiagnosis {
        FlatDiagnosis {
            disk: reason_disk(diagnosis.reason),
            refusal: diagnosis.refusal,
            reason: reason_number(diagnosis.reason),
            set: diagnosis.set,
        }
    }
}
