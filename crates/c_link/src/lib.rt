//! The program of several files, joined by the names of what they declare, or why they are none (C99 6.2.2, 6.2.7, 6.9).
//!
//! It stands on `c_typed` and `c_erasure`, on `c_numbers` for the tables of names and for the numbers that a unit's parts get in the program, and on `c_walks`
//! for what stands at the nodes of trees. It promises that what it answers is the program of the units, or the first gap in the order in which gaps are
//! looked for.
#![tactic(auto)]

mod clashes;
mod gap;
mod held;
mod identities;
mod initial_texts;
mod joining;
mod limits;
mod linked;
mod linking;
mod missing;
mod names;
mod program;
mod records;
mod structures;
mod tables;
mod tags;
mod troubles;
mod types;

pub use gap::Gap;
pub use limits::Passed;
pub use linking::link;
pub use troubles::Trouble;
