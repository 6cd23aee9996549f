//! The readers of expressions, type names, specifiers and declarators (C99 6.5, 6.7).
//!
//! It stands on `c_cursor` and `c_grammar`. It promises that each reader answers what the reader on lists of its name
//! gives, of which `c_grammar` proves that what is read is spelled so, well formed and so deep, and that whatever is so is
//! read.
//!
//! Not proved: how much memory a tree takes, that the stack has room for the readers, which call themselves no deeper than the depth that they are given,
//! times a constant, and how many tokens a failure says are left.
#![tactic(auto)]

mod assignment;
mod binary;
mod declarator_names;
mod declarators;
mod enumerations;
mod level;
mod means;
mod postfix;
mod primary;
mod specifiers;
mod structures;
mod type_names;
mod unary;
mod within;

pub use declarator_names::has_name;
pub use level::Level;
pub use means::{Means, Next, Read};
pub use within::{declarator_inside, expression_inside, specifiers_inside};
