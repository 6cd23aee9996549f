//! Numbers for keys and for types, and typed trees with other numbers: a table that gives each key the number of its first place (`key_numbers`), types,
//! each once, in the order in which they came (`type_numbers`), and trees with other numbers for their types, objects, functions and records
//! (`new_numbers`).
//!
//! It stands on `c_typed`, on `c_erasure`, on `c_walks` and on the kit's `indexmap`. It promises that a look-up answers the place in the list of the keys, or
//! types, each once; and that a tree is changed into what `c_typed` defines as its renaming, whatever the numbers are.
//!
//! Not proved: how long a look-up takes; a hash table finds a key in time that does not grow with their number, where the hashes of keys differ. That new
//! numbers keep the typing rules is not said here; the numbers of locals, fields and blocks stay.
#![tactic(auto)]

mod key_numbers;
mod new_numbers;
mod type_numbers;

pub use key_numbers::{KeyTable, NameTable, NumberSet};
pub use new_numbers::{Numbers, Renumbering, renumber_function, renumber_mention, renumber_object};
pub use type_numbers::{TypeTable, renumbered_type};
