//! The depth of a tree and the number of its nodes.
//!
//! It stands on `c_ast`, whose trees it measures. It promises the numbers that `c_ast` defines, of trees whose numbers fit.
//!
//! Not proved: that the stack has room for the functions, which call themselves as deep as the tree is.
#![tactic(auto)]

mod measuring;
mod size;
mod sizes;

pub use sizes::{depth, nodes, nodes_of_item};
