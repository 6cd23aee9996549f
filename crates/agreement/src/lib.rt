//! Agreement of a source program and an ELF file: the statement of compiler correctness.
//!
//! Definitions, and the law that the third clause of agreement for an input follows from the first two. It stands on `block_memory`, which says how a run of
//! a source program ends, on `rv_isa` and on `elf32`; the calls that compile cite it.
#![tactic(auto)]

mod laws;

pub use laws::nothing_else_is_done;
