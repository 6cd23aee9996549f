//! Which records of a program may be laid out anew: those that violate none of ten tests. The tests are the ways in which a program could come to see how
//! the fields of a record lie: by a pointer to it as one of another type, the address of a field, its size, an object or an array of it, or by records
//! within records.
//!
//! It stands on `c_facts`, `c_typed`, `c_types` and `lay_base`. It promises that a record has a verdict exactly where it violates a test, and that the verdict
//! is the first of its violations, by file, by byte and then in the order of the tests (`AreVerdicts`).
//!
//! Not proved: that a record without a violation can be laid out anew with no change to what a program does. That is said of the rewritings.
#![tactic(auto)]

mod facts;
mod fields;
mod holdings;
mod judging;
mod laws;
mod marks;
mod mentions;
mod violation;

pub use judging::{Verdicts, judge};
pub use laws::holdings_are_exact;
pub use violation::{Test, Violation};
