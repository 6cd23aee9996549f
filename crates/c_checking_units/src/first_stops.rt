//! A law about the faults of whole files.

ghost use Rattle.c_checking_units.specs.FirstStops.Faults.{FaultsBreakRules};

use c_checking_laws::texts_are_in_order;
use c_lexer::tokens_have_places;

/// Where the checker stops with a fault in the tree of a text, the rule that the fault names is broken at its place. It is asked that the names of
/// structures without a tag begin as no identifier does.
pub fn faults_break_rules()
    ensures { FaultsBreakRules }
{
    tokens_have_places();
    texts_are_in_order();
}
