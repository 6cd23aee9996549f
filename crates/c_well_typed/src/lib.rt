//! What the front end accepts is well typed: every node keeps its rule. How much room a program is given by its size (`ProgramWeights`): the code bytes
//! and frame bytes that typed functions and records weigh. There are tokens before each place that a gap of the units of files names (`GapPlaces`). Which
//! typed programs a C text can say, by what a printer needs beside the rule of each node (`Printable`): the program of some files is such.
//!
//! It stands on `c_typed`, which has the rules, on `c_erasure`, on `c_link`, which says what gaps are, and on the laws of the checker. It has laws alone.
//!
//! That what a pointer of the program points to is small is said of files of at most 4 MiB alone, so that no string literal is longer than the greatest type:
//! `sizeof &"..."` speaks of a pointer to an array of the literal's length. That a text with a program's functions has them again is for a printer to prove.
#![tactic(auto)]

mod gap_places;
mod laws;
mod printable;
mod program_weights;

pub use gap_places::gaps_have_places;
pub use laws::{
    initials_lie_within, locals_are_complete, moves_keep_typing, programs_are_well_typed,
    programs_are_within_limits, programs_have_few_functions, programs_have_few_loops,
    programs_have_small_arrays, programs_have_small_sizes, programs_have_texts,
    programs_have_typed_functions, programs_have_typed_objects, texts_hold_numbers,
    units_are_countable, units_are_well_typed, units_have_typed_functions,
    units_have_whole_elements,
};
pub use printable::{
    literals_stand_once, programs_are_printable, programs_have_printable_functions,
    programs_have_printable_objects, programs_have_printable_types,
};
pub use program_weights::{joined_are_bounded, programs_are_bounded, units_are_bounded};
