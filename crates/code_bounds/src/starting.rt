//! Laws about what is asked of a program before it runs or its code is made.

ghost use Rattle.c_typed.specs.Programs.{program_data};
ghost use Rattle.code_bounds.specs.StartLaws.{ProgramHasSmallTypes, ProgramStartsFit};

use c_typed::Typed;
use c_types::records_are_complete;
use c_well_typed::{
    initials_lie_within, programs_are_within_limits, programs_have_few_loops,
    programs_have_small_sizes, programs_have_texts, programs_have_typed_objects,
    texts_hold_numbers,
};

/// What the objects of a program of files hold at first fits into them, and its loops and bytes can be counted.
pub fn programs_start_fit(p: &Typed)
    ensures { ProgramStartsFit (program_data p.now) }
{
    records_are_complete(&p.records);
    programs_have_typed_objects(p);
    programs_have_texts(p);
    programs_have_few_loops();
    programs_are_within_limits();
    initials_lie_within();
    texts_hold_numbers();
}

/// No type of a program of files is larger than the limit of types, nor what one points to.
pub fn types_are_small(p: &Typed)
    ensures { ProgramHasSmallTypes (program_data p.now) }
{
    programs_have_small_sizes(p);
}
