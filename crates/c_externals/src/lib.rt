//! What external declarations make known (C99 6.9): names, objects and functions of the file, parameters of a definition, and what is zero at the
//! end.
//!
//! It stands on `c_declaring`, and mirrors the functions of `c_erasure` on files that walk over no tree. It promises that each answers what the
//! definition of its name says, with the file after it, or that no memory was left.
//!
//! Not proved: how much time a declaration takes; earlier declarations of its name
//! are found by `BoundNames` of `c_scopes`, with no walk over the names of the file.
#![tactic(auto)]

mod functions;
mod library;
mod names;
mod objects;
mod parameters;
mod settling;

pub use functions::{bind_function, declare_function, define_function};
pub use names::{Named, at_file_scope, bind, library_named, once, own_name, place_of};
pub use objects::{bind_object, define_object};
pub use parameters::{Received, parameters_of, receive};
pub use settling::closed;
