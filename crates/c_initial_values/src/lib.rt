//! What objects of a file hold at first: the values of constant expressions, and the types of which initializers speak.
//!
//! It stands on `c_annotated`, whose trees it reads, and on `c_types` for sizes. It promises the values of `initial_value` and the mentions of
//! `told_by_initial`.
//!
//! Not said: that no offset passes 32 bits. Where one does, as in no object within the limits of types, more memory is asked for than there can be.
#![tactic(auto)]

mod address;
mod mentions;
mod sizes;
mod stores;
mod values;

pub use address::Address;
pub use mentions::told_by_initial;
pub use sizes::{field_offset, further, size};
pub use stores::{Store, stores_of};
pub use values::{Value, initial_value};
