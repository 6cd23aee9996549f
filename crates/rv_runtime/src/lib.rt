//! The runtime of compiled programs: the routines that they call, as words at fixed addresses.
//!
//! It stands on `rv_isa`, whose instructions the routines are, and on `lay_base`. It promises that `runtime` answers the bytes of the routines, each at its
//! place, which stand at the front of a program's text, and `runtime_data` those at the front of its data; that the routines stand where these bytes do; and
//! what each of them leaves (`specs/Laws.antt`). For proofs about code that calls them, `proofs/` says the same backwards, for any claim: `malloc_works`,
//! `calloc_works`, `malloc_stops`, `calloc_stops`, `free_works`, `copy_works`, `fill_works`, `compare_works`, `start_works`, `exit_works`.
//!
//! `Steps`, of specs and proofs, are definitions and laws about the machine on code that stands, for proofs that go backwards from where a run leads: a state
//! is given by its parts, its registers as a function of their numbers, so that what an instruction reads and what it leaves hold by computation. A claim
//! speaks of a state, the events before it and the steps to come; for each kind of instruction a law takes the claim of the state after it and gives the claim
//! of the state before.
#![tactic(auto)]

mod laws;
mod words;

pub use laws::{blocks_fit, exit_ends, heap_begins, routines_stand, routines_work, start_leads};
pub use words::{runtime, runtime_data};
