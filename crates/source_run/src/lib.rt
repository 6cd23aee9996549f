//! The interpreter: runs a C program on a source and a sink, by its meaning, and counts its functions and loops.
//!
//! It stands on `lower_tac`, by whose law the run of a program's three-address code is the run of the program, on `tac_engine`, which makes the steps of the
//! code, and on `source_start`, which has the memory with which a program starts.
//!
//! A run is over some time, whatever its input: its code is steady, so its turns bound its steps.
//!
//! Not said: what the counts are after ReadFault, WriteFault and Memory. Each byte is written by a call of its own.
#![tactic(auto)]

mod end;
mod runner;
mod stepping;

pub use end::RunEnd;
pub use runner::Runner;
