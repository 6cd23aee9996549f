//! What operators make of values (C99 6.5), with the tests of pointers on a store, and what they ask of types: a table by their numbers, which is made once
//! for a program.
//!
//! It stands on `c_types` and `c_typed` for sizes and arithmetic, on `memory_words` and `block_memory`, whose values these are, and on `c_meaning`,
//! whose definitions each of its calls computes.
//!
//! `Types::of` takes a program no type of which is larger than the limit of types, nor what one points to; the checker accepts no other.
#![tactic(auto)]

mod converting;
mod numbers;
mod offsets;
mod paths;
mod pointed;
mod pointers;
mod row;
mod rows;
mod sizes;
mod table;

pub use converting::{convert, null_or_pointer};
pub use numbers::{binary, bytes_of, flag, is_true, number_of, pointer_of, unary};
pub use paths::{field_in, is_subscript, part_in, way_to};
pub use pointers::{compared, distance, moved, moved_from};
pub use row::{Sort, TypeRow};
pub use table::Types;
