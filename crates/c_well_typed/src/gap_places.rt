//! A law about the places of gaps.

ghost use Rattle.c_well_typed.specs.GapPlaces.Places.{GapsHavePlaces};

use c_checking_laws::texts_are_in_order;
use c_lexer::tokens_have_places;

/// Where the units of files are at odds, each place that the gap names is one of the file of its number, and there are tokens before it. So lines
/// are presumed of it.
pub fn gaps_have_places()
    ensures { GapsHavePlaces }
{
    tokens_have_places();
    texts_are_in_order();
}
