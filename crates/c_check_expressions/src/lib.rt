//! The checker of expressions, and of what they lead to: type names, specifiers and declarators (C99 6.5, 6.6, 6.7.2 to 6.7.6).
//!
//! It stands on `c_declaring` and `c_nodes`, and mirrors the recursion of `c_erasure` over the tree, function by function. It promises that
//! each answers what the definition of its name says of the tree and of the file up to there, with the file after it, or that no memory was
//! left.
//!
//! Not proved: that the stack has room for the functions, which call themselves as deep as the tree is.
#![tactic(auto)]

mod declarators;
mod expressions;
mod operators;
mod places;
mod start;
mod types;

pub use c_declaring::{mention, mentions_in};
pub use declarators::derivations;
pub use expressions::{constant, find, value};
pub use types::base;
