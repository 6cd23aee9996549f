//! Laws of three-address code and of machine code: where jumps lead, how long code is, what it costs, and how much room it takes.
//!
//! It stands on `lower_tac` and `rv_code`, whose code it speaks of, on `rv_image`, and on `c_well_typed`, whose weights and limits bound that code. By its laws
//! each jump leads to a step of its function, and on or back to where a turn is taken, no step writes a local that lies in a block, and a function pays for
//! its steps and its temporaries by what is in it; machine code is as long as it was laid out for, each instruction has a word, the code of a program is
//! within 512 bytes for each node, no frame takes more than a call of its function weighs, and the image of a program of files is within the parts of the
//! address space. The laws of prices and frames ask that the locals stand in the scopes that declare them (`HasScopes`), as those of well typed functions do.
//!
//! By laws of its own, over `source_start` and `source_values`, the start of a run of a program of files wants nothing but memory, and its types are small.
#![tactic(auto)]

mod compiled;
mod lowered;
mod starting;

pub use compiled::{
    code_fits, code_is_in_range, code_is_within, data_fits, entries_are_as_long, frames_are_small,
    frames_are_weighed, functions_are_as_long, functions_are_paid, programs_are_as_long,
    programs_are_small, programs_fit, steps_are_as_long, texts_are_within, words_are_paid,
};
pub use lowered::{
    bytes_are_left, bytes_are_within, code_is_paid, few_are_asked, frames_are_within,
    frames_weigh_less, jumps_lead_on, jumps_stand, kinds_stand, labels_are_few,
    programs_are_within, programs_have_few_steps, sizes_stand, steps_are_few, temporaries_are_few,
    typed_functions_have_scopes,
};
pub use starting::{programs_start_fit, types_are_small};
