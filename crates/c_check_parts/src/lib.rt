//! The checker of initializers (`initializer_parts`, C99 6.7.8): which parts of an object hold what, or the rule that is broken; and what declarations in
//! blocks make (`block_locals`, C99 6.7): locals, and objects that are made before the program starts.
//!
//! It stands on `c_check_expressions`, which finds the expressions in them, and on `c_initial_values` for constants, sizes and offsets. It promises
//! that each function answers what the definition of its name in the checker of `c_erasure` says, or that no memory was left.
//!
//! Not said: that no part begins past 2^32 bytes. Where one does, which the limits of types rule out, more memory is asked for than there can be.
#![tactic(auto)]

mod block_locals;
mod initializer_parts;

pub use block_locals::{add_statement, inside, local_declaration, scope_in};
pub use initializer_parts::{constants_if_any, initial_if_any, initializer, sized};
