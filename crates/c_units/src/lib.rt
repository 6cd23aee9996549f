//! What a file gives to its program.
//!
//! It stands on the crates of the stages: `c_recognised`, `c_walks`, `c_initial_values`, `c_numbers` and `c_numbered`. It promises that the
//! unit of an annotated file is the one that `unit_of` of `c_erasure` defines.
//!
//! `NoMemory` is also answered where `c_initial_values` answers it of what a checked file rules out.
#![tactic(auto)]

mod functions;
mod mentions;
mod objects;
mod unit;

pub use unit::unit_of;
