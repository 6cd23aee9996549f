//! What declarations in blocks make (C99 6.7): locals, and objects that are made before the program starts.
//!
//! It stands on `c_check_expressions` and `c_check_parts`. It promises that `local_declaration` answers what the definition of its name in
//! `c_erasure` says of a declaration, after other statements, or that no memory was left.

mod declarations;
mod names;
mod places;
mod statements;

pub use declarations::local_declaration;
pub use places::{inside, scope_in};
pub use statements::add_statement;
