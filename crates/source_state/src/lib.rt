//! What a run of a C program keeps between two steps: the locals of the function that runs, memory, and what is counted of functions and loops; what is
//! done to it without the trace, as definitions (`specs/Steps/`) and as code; and how a step ends.
//!
//! It stands on `block_memory`, whose store it has, and on `c_meaning`, whose world and frames these are. It promises that its calls do what the definitions
//! say; and that what those do is what the parts of a run in `c_meaning` do, whatever the trace is, and that what is counted stays what the trace tells
//! (`proofs/Steps/`).
#![tactic(auto)]

mod calls;
mod counting;
mod ends;
mod locals;
mod memory;
mod room;
mod stack;

pub use counting::Counters;
pub use ends::{Final, Moved, undefined};
pub use room::Room;
pub use stack::Stack;
