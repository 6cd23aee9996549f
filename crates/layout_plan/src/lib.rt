//! How the records of a program are laid out anew: which fields go, in which order the others stand, and in which parts.
//!
//! It stands on `c_facts`, `legality`, `affinity`, `c_typed`, `c_types` and `lay_base`. It promises that a plan is the one of its definition (`plan_of`), or
//! that memory is out; and that what it is made from are the facts, the first violations and the weights of the program (`IsPlanned`). A record that
//! violates a test keeps the layout that is declared. No part is larger than a record may be.
//!
//! Not proved: that a program with its records laid out so does what it did. That is said of the rewritings.
#![tactic(auto)]

mod laws;
mod order;
mod outline;
mod outlining;
mod parts;
mod peeling;
mod placing;
mod planning;
mod plans;

pub use laws::plans_are_one;
pub use planning::{plan, planned};
pub use plans::{Decision, PartField, Plan, Planned, RecordPlan};
