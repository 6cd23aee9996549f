//! The laws of images and of steady code, by those of runs of code and those of the crates below.

ghost use Rattle.c_typed.specs.Programs.{program_data};
ghost use Rattle.compiled_files.specs.Laws.{ImageIsOfProgram, ProgramIsSteady};

use crate::code_runs::{
    allocations_have_room, calls_have_room, earlier_fits, light_runs_fit, runs_add, steps_add,
};
use c_meaning::runs_have_room;
use c_typed::Typed;
use c_well_typed::{
    initials_lie_within, programs_are_bounded, programs_are_printable, programs_are_well_typed,
};
use code_bounds::{
    frames_are_weighed, functions_are_as_long, jumps_lead_on, jumps_stand, kinds_stand,
    programs_are_as_long, programs_fit, steps_are_as_long, typed_functions_have_scopes,
};
use lower_tac::runs_are_same;
use tac_ir::Tac;

/// The file of the image of a program of files is one of the program, where it loads as that image. What is known of such a program makes its code sound,
/// sound code stands in the image, and the machine on it comes to what the run of the code comes to.
pub fn images_are_of_programs(p: &Typed, t: &Tac)
    ensures { ImageIsOfProgram (program_data p.now) t.now }
{
    programs_are_well_typed(p);
    programs_are_printable(p);
    programs_are_bounded();
    initials_lie_within();
    programs_fit(p, t);
    jumps_stand();
    kinds_stand();
    typed_functions_have_scopes();
    steps_are_as_long();
    functions_are_as_long();
    programs_are_as_long();
    frames_are_weighed();
    runs_are_same();
    runs_add();
    steps_add();
    earlier_fits();
    light_runs_fit();
    calls_have_room();
    allocations_have_room();
    runs_have_room();
}

/// The code of a program of files is steady: no function of it takes many steps without a turn, and each block of a local has room for what is put there.
pub fn programs_are_steady(p: &Typed)
    ensures { ProgramIsSteady (program_data p.now) }
{
    programs_are_well_typed(p);
    programs_are_printable(p);
    initials_lie_within();
    jumps_stand();
    kinds_stand();
    typed_functions_have_scopes();
    jumps_lead_on();
}
