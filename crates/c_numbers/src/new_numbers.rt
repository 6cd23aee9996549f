//! Typed trees with other numbers for their types, objects, functions and records.
//!
//! It stands on `c_walks`, whose walk changes the trees. It promises that a tree is changed into what `c_typed` defines as its renaming, whatever the
//! numbers are.

mod numbers;
mod parts;

pub use numbers::{Numbers, Renumbering};
pub use parts::{renumber_function, renumber_mention, renumber_object};
