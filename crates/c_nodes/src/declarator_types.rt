//! The types that specifiers and declarators make of their parts once these are found (C99 6.7.2 to 6.7.6), or the rule that is broken.
//!
//! It stands on `c_nodes` and mirrors the functions of `c_erasure` that ask nothing of the names of a file, one for one. It promises that
//! each answers what the definition of its name says, or that no memory was left.

mod declarators;
mod lengths;
mod specifiers;
mod words;

pub use declarators::{
    Derivation, Shape, closed, counted, derived, object, parameter_type, scalar, small,
    typedef_named, variable,
};
pub use lengths::{Integer, constant, int_value, length, next_value};
pub use specifiers::{Storage, storage_of};
pub use words::{Base, base_kind};
