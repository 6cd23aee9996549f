//! A law about the places of faults.

ghost use Rattle.c_checking_units.specs.FaultPlaces.Places.{FaultsHavePlaces};

use c_lexer::tokens_have_places;

/// Where the checker stops in the tree of a text, there are tokens before each place that its fault names, also before the one at which a name
/// stood first. So lines are presumed of it.
pub fn faults_have_places()
    ensures { FaultsHavePlaces }
{
    tokens_have_places();
}
