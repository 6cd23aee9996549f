//! A machine that runs RV32IM programs, with the environment's calls read, write and exit.
//!
//! It stands on `lay_base` and `rv_isa`. It promises that a run is the run of the image by `rv_isa`'s
//! step, for known input: it ends at the least number of steps at which that run ends, and has then
//! read and written what that run has. A run takes no memory, and comes to a fault only where its
//! input or its output failed.
//!
//! Not proved: how fast a step is, how much memory `new` takes (that of all segments, and 65,536 decoded words), what memory holds after a fault, and the texts
//! of `Debug`.
#![tactic(auto)]

mod arithmetic;
mod calls;
mod decoder;
mod execution;
mod hart;
mod machine;
mod making;
mod memory;
mod registers;
mod rows;
mod streams;

pub use machine::{Machine, MachineEnd};
