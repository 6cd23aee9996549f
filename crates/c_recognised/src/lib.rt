//! Allocations of records and null pointers in annotated trees, recognised.
//!
//! It stands on `c_annotated`, on `c_walks`, whose walk changes the trees, and on the definitions of `c_erasure`. It promises that a tree then
//! has a node for each allocation of records and for each null pointer constant that is converted to a pointer, and that the places of the
//! `sizeof`s are kept that are size operands of allocations.
#![tactic(auto)]

mod allocations;
mod operands;
mod recognition;
mod sizes;

pub use recognition::Recognition;
