//! The engine that runs three-address code: the calls that wait, the function that runs and its steps that are left, its locals and temporaries, memory,
//! and what is counted.
//!
//! It stands on `tac_ir`, whose run it is proved against, on `source_state`, whose `Room` it has, and on `source_values`, which has the operators. It promises
//! that each of its steps is the step of that run (`proofs/`), but for what is written and read outside, which it answers to its caller.
//!
//! `proofs/Falling` has that each step of steady code leaves less of a measure, the turns and between two of them the steps, and `proofs/Rooming` that such a
//! step puts no more into the block of a local than it has room for.
#![tactic(auto)]

mod calls;
mod engine;
mod far;
mod library;
mod places;
mod stepping;
mod temporaries;
mod values;

pub use engine::{Caller, Engine};
