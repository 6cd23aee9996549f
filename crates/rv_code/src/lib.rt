//! Machine code for three-address code: each step has its instructions, each temporary a word of its function's frame.
#![tactic(auto)]

mod frames;
mod functions;
mod layout;
mod operators;
mod programs;
mod steps;
mod words;

pub use frames::places;
pub use layout::{Layout, Places};
pub use programs::program;
