// The forms of label that there are, each a module with its constant, its reader and its writer.
#![tactic(auto)]

pub mod narrow;

// The form of the labels that the cabinet has, saves and assembles. The most disks are what it allows, and sets::DISKS.
pub use narrow as label_form;
