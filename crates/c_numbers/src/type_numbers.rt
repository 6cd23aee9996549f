//! Types, each once, in the order in which they came, and types with other numbers of records.
//!
//! It stands on `c_numbers`. It promises that a look-up answers a type's place in the list of the types, each once.

mod renumbered;
mod type_keys;
mod type_table;

pub use renumbered::renumbered_type;
pub use type_table::TypeTable;
