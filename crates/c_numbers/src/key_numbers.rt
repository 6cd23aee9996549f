//! Numbers for keys: a table that gives each key the number of its first place.
//!
//! It stands on `lay_base` and on the kit's `indexmap`. It promises that a look-up answers a key's place in the list of the keys, each
//! once, in the order in which they came.

mod key_table;
mod name_table;
mod number_set;

pub use key_table::KeyTable;
pub use name_table::NameTable;
pub use number_set::NumberSet;
