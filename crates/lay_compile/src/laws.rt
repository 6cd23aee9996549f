//! Laws about programs and faults.

ghost use Rattle.c_link.specs.Programs.{ProgramsAreOne};
ghost use Rattle.lay_compile.specs.Places.{FaultsStandInFiles};

use c_checking_units::{faults_have_places, units_are_one};
use c_lexer::{texts_have_one_reading, tokens_have_places};
use c_parser::files_have_one_tree;
use c_well_typed::gaps_have_places;

/// Files have at most one program.
pub fn programs_are_one()
    ensures { ProgramsAreOne }
{
    texts_have_one_reading();
    files_have_one_tree();
    units_are_one();
}

/// Each place that a fault of the files names is one of the file of its number, and there are tokens before it. So lines are presumed of it.
pub fn faults_stand_in_files()
    ensures { FaultsStandInFiles }
{
    tokens_have_places();
    faults_have_places();
    gaps_have_places();
}
