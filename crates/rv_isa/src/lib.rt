//! The instruction set RV32IM: instructions, their words, and what the machine does with them.
//!
//! It stands on `lay_base`. It promises that `encode` gives an instruction's word by the table of
//! the RISC-V unprivileged specification, and that the step's decoder reads that word as the
//! instruction again.
//!
//! That each line of `executed` is as the specification has it, beyond the examples, is to be read beside it. Choices of this project are: FENCE has any fields
//! and does nothing; which calls there are; and that an ECALL with another number or descriptor traps. Not proved: the texts of `Debug`.
#![tactic(auto)]

mod decoding;
mod encoding;
mod fields;
mod image;
mod instruction;
mod running;

pub use decoding::decode;
pub use encoding::{encode, words_are_read_back};
pub use image::{Image, Segment};
pub use instruction::Inst;
pub use running::runs_compose;
