//! What the functions of a program say of types and of the fields of records, as a flat list: which pointers are converted or passed to the library, of which
//! fields the address is taken, where fields are accessed, and in which loops. Whoever judges a record, weighs its fields or plans its layout reads
//! that list, and no tree.
//!
//! It stands on `lay_base` and `c_typed`. It promises that the list is the one that its definition says (`facts_of`), in the order of the functions in
//! profiles and, in each, of its text, or that memory is out; and that where a profile fits the program, the functions and loops that the list begins are as
//! many as the profile's counts (`groups_meet_counts`).
//!
//! Initial values of objects are in no tree: what those say stands in the program's mentions.
#![tactic(auto)]

mod contexts;
mod conversions;
mod expressions;
mod fact;
mod fields;
mod found;
mod functions;
mod laws;
mod statements;
mod variables;

pub use fact::Fact;
pub use functions::facts;
pub use laws::groups_meet_counts;
