//! Laws of the program of some files: where its places stand, and that it is covered.

ghost use Rattle.c_undefined_places.specs.Covered.{ProgramsAreCovered};
ghost use Rattle.c_undefined_places.specs.Laws.{ProgramsStandInFiles, UndefinedStepsStandInFiles};
ghost use Rattle.c_undefined_places.specs.Verdicts.{FactsStandInFiles, ViolationsStandInFiles};

use c_checking_laws::texts_are_in_order;
use c_lexer::tokens_have_places;
use c_well_typed::units_have_typed_functions;

/// The place of each function of the program of some files, and each place in its body, is one of the file of its number, and there are tokens before it. So
/// lines are presumed of it.
pub fn programs_stand_in_files()
    ensures { ProgramsStandInFiles }
{
    tokens_have_places();
    texts_are_in_order();
}

/// Where a run of the program of some files is undefined, the place of that step is one of the file of its number, and there are tokens before it.
pub fn undefined_steps_stand_in_files()
    ensures { UndefinedStepsStandInFiles }
{
    tokens_have_places();
    texts_are_in_order();
}

/// What the functions of the program of some files say of types and of records stands at such places.
pub fn facts_stand_in_files()
    ensures { FactsStandInFiles }
{
    tokens_have_places();
    texts_are_in_order();
}

/// Where a record of the program of some files violates a test, it does so at such a place. So the place that a verdict names has a line.
pub fn violations_stand_in_files()
    ensures { ViolationsStandInFiles }
{
    tokens_have_places();
    texts_are_in_order();
}

/// The program of some files is covered: a record violates a test where it is the type of an object, a parameter or a local, where an array of it stands in the
/// type of anything of the program, or where an address of one is among what objects hold at first.
pub fn programs_are_covered()
    ensures { ProgramsAreCovered }
{
    tokens_have_places();
    units_have_typed_functions();
}
