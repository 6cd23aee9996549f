//! Typed trees of annotated ones: in place of each type stands its number in a table.
//!
//! It stands on `c_annotated`, whose trees it reads, on `c_typed`, whose trees it makes, and on `c_numbers`. It promises that a tree is
//! rebuilt as `c_typed` defines a renaming of types, whatever the table is.
#![tactic(auto)]

mod expressions;
mod initializers;
mod statements;

pub use expressions::Numbering;
pub use statements::optional_statement;
