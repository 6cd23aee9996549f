//! How often the fields of records are accessed, alone and two together, by a profile or by the depths of loops.
//!
//! It stands on `c_facts`, `c_typed` and `lay_base`. It promises that the accesses and the weights of their groups are those of the definitions (`Weighs`), or
//! that memory is out; and that hotness, affinity and whether a field is read are, for the fields of a record, exactly the sums and the search that their
//! definitions say (`field_weights`), or that memory is out.
//! A law: each access of a program has a weight, where a profile, if there is one, fits the program (`accesses_are_weighed`).
//!
//! Not proved: that a program spends its time so. Weights only choose between layouts that are all right.
#![tactic(auto)]

mod access;
mod fields;
mod laws;
mod of_record;
mod profile;
mod sums;
mod walking;
mod weights;

pub use access::Access;
pub use fields::FieldWeights;
pub use laws::accesses_are_weighed;
pub use of_record::{field_weights, hotnesses};
pub use weights::{Weights, weigh};
