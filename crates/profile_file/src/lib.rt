//! Profiles as text: read, written, and compared with a program.
//!
//! It stands on `lay_base`, `c_types`, `c_typed`, `itoa` and `thiserror`.
//!
//! Not proved: how long anything takes. `read` goes over the text once. `fits` looks for each next function among all of them, since to put them into the
//! order of a profile would take memory: that is 2nm looks for m functions that are defined among n, and m names more where a name differs.
#![tactic(auto)]

mod fault;
mod fitting;
mod laws;
mod lines;
mod numbers;
mod reading;
mod writing;

pub use fault::ProfileFault;
pub use fitting::fits;
pub use laws::counts_are_one;
pub use reading::read;
pub use writing::write;
