//! A law of records within records: it does nothing, and whoever calls it learns what it ensures.

ghost use Rattle.c_types.specs.Views.{records_of};
ghost use Rattle.legality.specs.Holdings.{HoldingsAreExact};

use c_types::{Records, records_are_complete};

/// What is found of the records that an object holds by value is what it holds.
#[tactic(auto, using(crate::proofs::Held::holdings_are_exact))]
pub fn holdings_are_exact(r: &Records)
    ensures { HoldingsAreExact (records_of r.now) }
{
    records_are_complete(r);
}
