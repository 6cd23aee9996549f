//! Laws about units and the checker.

ghost use Rattle.c_checking_units.specs.Units.{FaultsHaveNoUnit};
ghost use Rattle.c_erasure.specs.Erasing.{UnitsAreOne};

use c_checking_laws::texts_are_in_order;
use c_lexer::tokens_have_places;

/// The tree of a text has at most one unit.
pub fn units_are_one()
    ensures { UnitsAreOne }
{
    tokens_have_places();
    texts_are_in_order();
}

/// Where the checker stops with a fault, the tree of the text has no unit. It is asked that the names of structures without a tag are
/// those of the text, and begin as no identifier does.
pub fn faults_have_no_unit()
    ensures { FaultsHaveNoUnit }
{
    tokens_have_places();
    texts_are_in_order();
}
