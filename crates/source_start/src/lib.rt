//! What a run of the interpreter starts with: the memory in which a program's objects hold what they are initialized with, and counts that
//! are all 0; and its counts in the order of a profile.
//!
//! It stands on `source_values`, which has the sizes of objects, on `source_state`, whose `Room` it makes, and on `c_typed`, whose counts it
//! gives.
#![tactic(auto)]

mod beginning;
mod counters;
mod objects;
mod profile;
mod values;

pub use beginning::start;
pub use counters::no_counts;
pub use profile::counts;
