//! The parser: the tree of a file's tokens, with initializers, declarations, statements and the items of a file (C99 6.7
//! to 6.9).
//!
//! It stands on `c_expressions`, `c_cursor` and `c_grammar`. It promises that the tree of a file's bytes is found exactly
//! where there is one, and that there is at most one. Each reader answers what the reader on lists of its name gives.
//!
//! Not proved: how much memory a tree takes, and that the stack has room. The place of `NoParse` is that of the token at which reading stopped; the contract
//! says only that it is the place of a token or of the end.
#![tactic(auto)]

mod conditions;
mod declarations;
mod declarators;
mod faults;
mod initializers;
mod items;
mod iteration;
mod laws;
mod loops;
mod parsing;
mod selection;
mod statements;
mod switch_labels;
mod switches;
mod typenames;

pub use faults::ParseFault;
pub use laws::{
    files_have_one_tree, nodes_have_places, tokens_have_one_tree, trees_are_small,
    trees_begin_first,
};
pub use parsing::parse;
