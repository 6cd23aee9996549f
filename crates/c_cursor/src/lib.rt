//! The tokens of a file as they are read: a cursor whose value is the list of what is left, the tests on its front, the
//! names that typedefs have declared, and operators by their tokens (C99 6.4.6, 6.5, 6.7).
//!
//! It stands on `c_tokens`, `c_ast` and `c_grammar`, and on the kit's `indexmap`. It promises of each call what the definition of its name in
//! `c_grammar` says of that list.
#![tactic(auto)]

mod begins;
mod cursor;
mod failure;
mod names;
mod operators;
mod typenames;

pub use cursor::{Cursor, deeper_than};
pub use failure::Failure;
pub use operators::{level_of, strength_of};
pub use typenames::Typenames;
