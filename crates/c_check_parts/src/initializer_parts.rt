//! The checker of initializers (C99 6.7.8): which parts of an object hold what, or the rule that is broken.
//!
//! It stands on `c_check_expressions`, which finds the expressions in initializers, and on `c_initial_values` for constants, sizes and offsets. It
//! promises that each function answers what the definition of its name in `c_erasure` says, or that no memory was left.

mod constants;
mod recursion;
mod texts;
mod values;
mod whole;

pub use whole::{constants_if_any, initial_if_any, initializer, sized};
