//! Laws about what is well typed.

ghost use Rattle.c_typed.specs.Programs.{program_data};
ghost use Rattle.c_well_typed.specs.Within.{InitialsLieWithin, ProgramHasTexts, ProgramsAreWithinLimits, ProgramsHaveFewFunctions};
ghost use Rattle.c_well_typed.specs.Within.{ProgramsHaveFewLoops, TextsHoldNumbers};
ghost use Rattle.c_well_typed.specs.Laws.{LocalsAreComplete, ProgramHasSmallArrays, ProgramHasTypedFunctions, ProgramHasTypedObjects, ProgramIsWellTyped, UnitsAreWellTyped};
ghost use Rattle.c_well_typed.specs.Laws.{ProgramHasSmallSizes, UnitsHaveTypedFunctions, UnitsHaveWholeElements};
ghost use Rattle.c_well_typed.specs.CountableUnits.{UnitsAreCountable};
ghost use Rattle.c_well_typed.specs.Moves.{MovesKeepTyping};

use crate::printable::programs_have_printable_types;
use c_checking_laws::texts_are_in_order;
use c_checking_units::arrays_are_small;
use c_lexer::tokens_have_places;
use c_typed::Typed;
use c_types::records_are_complete;

/// The functions of the unit of a file are well typed over its lists, where allocations are recognised and types are numbers: each node of
/// a body keeps its rule, each number names something there, and each type is within the limits (C99 6.5, 6.7.8, 6.8, 6.9.1).
pub fn units_have_typed_functions()
    ensures { UnitsHaveTypedFunctions }
{
    tokens_have_places();
    texts_are_in_order();
}

/// The unit of a file is well typed: its functions are, its types are small, and what each object holds at first are values of the parts at their
/// bytes (6.7.8). A number is one of its part's type, an address is that of an object of the unit, at a byte of it or its end, or of a function.
pub fn units_are_well_typed()
    ensures { UnitsAreWellTyped }
{
    tokens_have_places();
    texts_are_in_order();
}

/// So are the functions of a program of files, over the program's lists, where files share names and structures (6.2.2, 6.2.7); and it has a `main`.
pub fn programs_have_typed_functions(p: &Typed)
    ensures { ProgramHasTypedFunctions (program_data p.now) }
{
    records_are_complete(&p.records);
    units_have_typed_functions();
}

/// And so is what the objects of a program of files hold at first, where files share names and structures (6.2.2, 6.2.7, 6.7.8).
pub fn programs_have_typed_objects(p: &Typed)
    ensures { ProgramHasTypedObjects (program_data p.now) }
{
    records_are_complete(&p.records);
    units_are_well_typed();
}

/// In the unit of a file the elements of array types are complete (6.7.5.2): an array is declared of a complete type alone, and a call gives none,
/// since each function type that is declared there gives a number, a pointer or nothing.
pub fn units_have_whole_elements()
    ensures { UnitsHaveWholeElements }
{
    tokens_have_places();
    texts_are_in_order();
}

/// The program of some files is well typed: each type of it is as large as in a unit, since no other file completes the elements of an array (6.7.5.2).
pub fn programs_are_well_typed(p: &Typed)
    ensures { ProgramIsWellTyped (program_data p.now) }
{
    records_are_complete(&p.records);
    units_have_typed_functions();
    units_are_well_typed();
    units_have_whole_elements();
}

/// In each type of the program of some files of at most 4 MiB the arrays are within the limit of sizes and of complete elements, those behind pointers too
/// (6.7.5.2): no other file makes one longer.
pub fn programs_have_small_arrays(p: &Typed)
    ensures { ProgramHasSmallArrays (program_data p.now) }
{
    records_are_complete(&p.records);
    units_have_typed_functions();
    arrays_are_small();
}

/// So no type of such a program is larger than the limit, nor what one points to; and no array has more elements, since no object is empty.
pub fn programs_have_small_sizes(p: &Typed)
    ensures { ProgramHasSmallSizes (program_data p.now) }
{
    records_are_complete(&p.records);
    programs_have_printable_types(p);
    programs_have_small_arrays(p);
}

/// Each parameter and local of a typed function with a body has a complete type (6.7, 6.9.1).
#[tactic(auto, using(crate::proofs::CompleteLocals::locals_complete))]
pub fn locals_are_complete()
    ensures { LocalsAreComplete }
{}

/// What a typed object holds at first lies in it, each value at a multiple of its size (6.2.8, 6.7.8).
pub fn initials_lie_within()
    ensures { InitialsLieWithin }
{}

/// The object of each string literal of a program of files is an array of characters (6.4.5).
pub fn programs_have_texts(p: &Typed)
    ensures { ProgramHasTexts (program_data p.now) }
{
    records_are_complete(&p.records);
    units_are_well_typed();
    tokens_have_places();
    texts_are_in_order();
}

/// Where it is so and the object is typed, it holds no pointer.
pub fn texts_hold_numbers()
    ensures { TextsHoldNumbers }
{}

/// A program of files has few nodes, and few bytes of locals and of objects.
pub fn programs_are_within_limits()
    ensures { ProgramsAreWithinLimits }
{}

/// So each of its functions has few loops.
pub fn programs_have_few_loops()
    ensures { ProgramsHaveFewLoops }
{
    tokens_have_places();
}

/// And a program of files has few functions, since each is declared in the tree of a file (6.7, 6.9.1).
pub fn programs_have_few_functions()
    ensures { ProgramsHaveFewFunctions }
{}

/// The records of the unit of a file are complete, and each object, parameter and local of it has a complete type within the limits, so its
/// objects can be counted (6.7, 6.9).
pub fn units_are_countable()
    ensures { UnitsAreCountable }
{
    units_have_typed_functions();
}

/// What is well typed over some lists is so, with other numbers, over lists in which each type, record, object and function keeps what it is
/// under its new number.
#[tactic(auto, using(crate::proofs::Moved::moves_keep_typing))]
pub fn moves_keep_typing()
    ensures { MovesKeepTyping }
{}
