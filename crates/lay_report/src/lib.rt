//! The report of a compilation: what becomes of each record of a program, line by line.
//!
//! It stands on `layout_plan`, `affinity`, `legality`, `c_typed`, `c_types`, `itoa` and `lay_base`. It promises that a report is the text of its definition
//! (`IsReport`), by a plan or, where there is none, of records as they are declared; or that memory is out.
#![tactic(auto)]

mod records;
mod reporting;
mod text;

pub use reporting::report;
