//! Laws about the limits of types.

ghost use Rattle.c_checking_units.specs.TypeLimits.Limits.{TypesAreSmall, UnitsHaveSmallArrays};

use c_checking_laws::texts_are_in_order;
use c_lexer::tokens_have_places;

/// Where the checker answers a file, each type of which it speaks is within the limits of types: those of its objects, its functions and their
/// locals, of each node of their trees, and those that it mentions. The text is of at most 4 MiB.
pub fn types_are_small()
    ensures { TypesAreSmall }
{
    tokens_have_places();
}

/// In each type of the unit of a file the arrays are within the limit of sizes and of complete elements, those behind pointers too (C99 6.7.5.2). The text
/// is of at most 4 MiB.
pub fn arrays_are_small()
    ensures { UnitsHaveSmallArrays }
{
    tokens_have_places();
    texts_are_in_order();
}
