//! The types of C programs (C99 6.2.5) as plain data, lists of records, and how both lie in memory.
//!
//! It stands on `lay_base`, whose list and shared values its types are built of. It promises that two types are
//! equal where they are built alike, that sizes and offsets are those of C99 with the widths of the
//! profile, and that every record of a list is complete.
//!
//! Not proved: how long anything takes. A size is found in as many steps as a type has dimensions, a record is added in as many as its fields have. Which
//! types are compatible, and which conversions there are, the layers above say.
#![tactic(auto)]

mod fault;
mod kinds;
mod laws;
mod laying;
mod layout;
mod record;
mod records;
mod sameness;
mod sizes;
mod ty;
mod types;

pub use fault::RecordFault;
pub use kinds::{is_signed, width};
pub use laws::{
    added_records_have_their_size, fields_lie_apart, layouts_stay, sizes_are_multiples,
};
pub use record::{Field, Record};
pub use records::{Records, records_are_complete};
pub use sameness::same;
pub use sizes::{align_of, checked_size_of, offset_of, size_of};
pub use ty::{IntKind, Ty};
pub use types::{copy, is_object, parts};
