//! Refusals: every reason for which a command ends without its result, with its code, its exit
//! status and its text.
//!
//! It stands on `lay_base`. It promises that what is written for a refusal is the text of the table, or
//! a first part of it where the sink failed.
//!
//! That codes differ from one another is seen in the table, and no clause says it. Not proved: the text of `Debug`.
#![tactic(auto)]

mod lines;
mod names;
mod put;
mod refusal;
mod table;

pub use names::undefined_name;
pub use put::put_refusal;
pub use refusal::Refusal;
pub use table::{code_of, places_of, status_of_refusal};
