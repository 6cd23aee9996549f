//! Laws about what can be said in C.

ghost use Rattle.c_typed.specs.Programs.{program_data};
ghost use Rattle.c_well_typed.specs.Printable.Laws.{HasLiteralsOnce, HasPrintableObjects, HasPrintableTypes, ProgramHasPrintableFunctions, ProgramIsPrintable};

use crate::laws::units_have_typed_functions;
use c_checking_laws::texts_are_in_order;
use c_lexer::tokens_have_places;
use c_typed::Typed;
use c_types::records_are_complete;

/// Declarators make the types of a program of files, and its structures have members (C99 6.7.2.1, 6.7.5).
pub fn programs_have_printable_types(p: &Typed)
    ensures { HasPrintableTypes (program_data p.now) }
{
    records_are_complete(&p.records);
    units_have_typed_functions();
    tokens_have_places();
}

/// What the objects of a program of files hold at first is named by braces in the order of their parts, and the object of a string literal holds its
/// bytes and a zero (C99 6.4.5, 6.7.8).
pub fn programs_have_printable_objects(p: &Typed)
    ensures { HasPrintableObjects (program_data p.now) }
{
    records_are_complete(&p.records);
    units_have_typed_functions();
    tokens_have_places();
}

/// The object of each string literal of a program of files is referred to once, in the bodies of its functions or in what its objects hold at first
/// (C99 6.4.5).
pub fn literals_stand_once(p: &Typed)
    ensures { HasLiteralsOnce (program_data p.now) }
{
    tokens_have_places();
    texts_are_in_order();
}

/// Each function of a program of files is printable (C99 6.5, 6.7.8, 6.8): its body is a block, constants are values of literals, enumerators and `sizeof`,
/// braces name the parts of a local in order, an `else` finds its `if`, arms have labels, and a local is marked as a block just where it is no number or
/// pointer, or its address is taken.
pub fn programs_have_printable_functions(p: &Typed)
    ensures { ProgramHasPrintableFunctions (program_data p.now) }
{
    records_are_complete(&p.records);
    tokens_have_places();
    units_have_typed_functions();
}

/// The program of some files is printable (C99 6.4.4 to 6.9): its types are such that declarators make them, constants are those of literals and
/// enumerators, braces name in order what its objects and locals hold at first, an `else` finds its `if`, and each string literal stands once.
pub fn programs_are_printable(p: &Typed)
    ensures { ProgramIsPrintable (program_data p.now) }
{
    programs_have_printable_types(p);
    programs_have_printable_objects(p);
    literals_stand_once(p);
    programs_have_printable_functions(p);
}
