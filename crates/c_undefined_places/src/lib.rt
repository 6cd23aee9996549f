//! The places that a program names stand in its files, with tokens before them: those of its functions and of what stands in them, of undefined steps of its
//! runs, and of violations of records. And the program is covered: each record that stands in it as a value or in an array violates a test.
//!
//! It stands on `c_checking_units`, which has the tokens of a part of a tree, on `c_link` for the programs of files, on `c_well_typed` for their functions and
//! objects, on `c_meaning` for runs, and on `c_facts` and `legality` for what records violate. It has laws alone.
#![tactic(auto)]

mod laws;

pub use laws::{
    facts_stand_in_files, programs_are_covered, programs_stand_in_files,
    undefined_steps_stand_in_files, violations_stand_in_files,
};
