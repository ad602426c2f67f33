// Document 01's cabinet: the types of its state, its calls and their answers. The definitions over them stand in
// specs/, the theorems in proofs/; no call runs here.
#![tactic(auto)]

use label::Label;
use sets::{DISKS, Mask};

pub mod geometry;

// "a power condition: either running with a current set G, or stopped with none". No Option: the definitions and the
// theorems over them (`Sound`, `runs_with`, `Demand3`) tell the two apart by these names.
#[derive(Clone, Copy)]
pub enum Power {
    Stopped,
    Running(Mask),
}

// "The state holds n, b, the labels of eight disks in an array, the set R of disks in reach, and a power condition."
// disks is n, blocks is b, online is R.
#[derive(Clone, Copy)]
pub struct State {
    pub disks: u8,
    pub blocks: u8,
    pub labels: [Label; DISKS],
    pub online: Mask,
    pub power: Power,
}

// What every call yields beside its buffers: the refusal's number, 0 if done; the number of stores made; the state. No
// Result: a call that the power cuts has a number and a state, and the theorems (`Demand3`, `SwapsBlank`) speak of the
// number. Code has a `Refusal` until it makes one of these.
#[derive(Clone, Copy)]
pub struct Answer {
    pub refusal: u8,
    pub stores: u16,
    pub state: State,
}

// Why a disk's own set is no candidate of a stage, or that it is one (document 02, 2.2): in the order of the paper's
// sentence, with the disk that the sentence names. `reason_number` and `reason_disk` of specs/Diagnosis.antt give each
// case's number and value. A refused diagnosis has a reason too, with a number as the others, so it is no Option.
#[derive(Clone, Copy)]
pub enum Reason {
    NoReason,
    Empty,
    OutOfReach(usize),
    Disagrees(usize),
    NoneProposes,
    IsCandidate,
}

// What a diagnosis yields: the refusal's number, 0 if done, as `DiagnosisRight` and C have it; the reason; the set that
// a restart would find without the disk, else 0.
#[derive(Clone, Copy)]
pub struct Diagnosis {
    pub refusal: u8,
    pub reason: Reason,
    pub set: Mask,
}

// The calls of document 01's list, "The list and the book", and those that document 02 adds to it. Numbers are wider
// than the state's own, so that 256 is no disk 0; the budget is the paper's supply, 0 to 65,535. A write's data, a
// read's output and the label that a returned disk shows are lent beside the call. A stage is the number that C passes.
#[derive(Clone, Copy)]
pub enum Call {
    Read { block: usize, budget: u16 },
    Write { block: usize, budget: u16 },
    Join { disk: usize, budget: u16 },
    Clean { budget: u16 },
    Restart { budget: u16 },
    Detach { disk: usize },
    Attach { disk: usize },
    PowerOff,
    Diagnose { stage: usize, disk: usize },
    Swap { disk: usize, budget: u16 },
}
