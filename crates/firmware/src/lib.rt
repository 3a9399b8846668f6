// The engine for C: numbers and pointers only, total over any input. The crate firmware_c exports these functions, which include/coherence.h
// declares.
#![tactic(auto)]

pub mod chassis;
mod fields;
mod halves;
pub mod journals;
pub mod looks;
pub mod version;

pub use fields::FIELDS;
