//! The checker of one file: from its tree to what it gives to its program, or a fault of its types (C99 6.5 to 6.9): declarations at file scope
//! (`file_declarations`), and definitions of functions with all items of the file (`file_items`).
//!
//! It stands on `c_file_tags`, `c_externals`, `c_check_statements` and `c_units`, and on the laws of `c_checking_units`. It promises that `check` answers
//! the unit that erases to the tree; or, where there is none, the fault at which the checker that `c_erasure` defines stops, whose rule is broken at its
//! place; or that no memory was left.
#![tactic(auto)]

mod checking;
mod fault;
mod file_declarations;
mod file_items;

pub use checking::check;
pub use fault::CheckFault;
