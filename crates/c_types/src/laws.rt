//! Laws about layouts: each function does nothing, and whoever calls it learns what it ensures.

ghost use Rattle.std.specs.Prelude.{List};
ghost use Rattle.c_types.specs.Laws.{FieldsLieApart, HasItsSize, LayoutsStay, SizesAreMultiples};
ghost use Rattle.c_types.specs.Types as Types;
ghost use Rattle.c_types.specs.Views.{records_of};

use crate::records::{Records, records_are_complete};

/// More records leave the sizes, alignments and offsets of complete types as they are.
#[tactic(auto, using(crate::proofs::Growing::layouts_stay))]
pub fn layouts_stay()
    ensures { (records more : List Types.Record) → LayoutsStay records more }
{}

/// A record has the size with which it is added.
#[tactic(auto, using(crate::proofs::Growing::has_its_size))]
pub fn added_records_have_their_size()
    ensures { (records : List Types.Record) → (r : Types.Record) → HasItsSize records r }
{}

/// Alignments are 1, 2 or 4, and a size is a multiple of its alignment.
#[tactic(auto, using(crate::proofs::Multiples::sizes_are_multiples))]
pub fn sizes_are_multiples()
    ensures { (records : List Types.Record) → SizesAreMultiples records }
{}

/// The fields of a record lie in it, in declared order, apart from one another and aligned where it is.
#[tactic(auto, using(crate::proofs::Apart::fields_lie_apart))]
pub fn fields_lie_apart(r: &Records)
    ensures { FieldsLieApart (records_of r.now) }
{
    records_are_complete(r);
}
