//! The tags of a file: those of structures that have none, made of the presumed file and line of the place of the keyword `struct` and of the number on that
//! line, found in the tokens (`untagged_structs`, C99 6.7.2.3); and what the tree declares inside its specifiers, in the order of the text (`marks`, `walk`),
//! with the lists that it tells (`tables`).
//!
//! It stands on `c_scopes`, whose lists it makes, on `c_lexer` and on the laws of `c_erasure`. It promises that the lists of a file's tree are those of
//! `c_erasure`.
//!
//! Not proved: how much time and memory it takes. The tag of each `struct` is made, whether its structure has one or not.
#![tactic(auto)]

mod marks;
mod tables;
mod tags;
mod untagged_structs;
mod walk;

pub use tags::tags_of;
