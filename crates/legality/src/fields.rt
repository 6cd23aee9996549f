//! The fields that hold records, and those in whose types arrays of records stand.

ghost use Rattle.std.specs.Prelude.{flat_map, map};
ghost use Rattle.c_types.specs.Views.{field_of, records_of};
ghost use Rattle.legality.specs.Breaches.{by_field, by_held, by_records};
ghost use Rattle.legality.specs.Firsts.{Marks};

use crate::holdings::held_in;
use crate::marks::{mark, mark_all, mark_arrays};
use crate::violation::{Test, Violation};
use c_types::{Field, Record};
use lay_base::{List, Place};

fn mark_held(firsts: &mut [Option<Violation>], owner: usize, place: Place, held: &[usize])
    ensures { Marks firsts.old firsts.new (by_held owner place held.now) }
{
    if !held.is_empty() {
        mark(firsts, Test::Nest, place, owner);
        mark_all(firsts, Test::Nest, place, held);
    }
}

fn mark_fields(
    firsts: &mut [Option<Violation>],
    holdings: &[List<usize>],
    owner: usize,
    fields: &[Field],
)
    ensures { Marks firsts.old firsts.new (flat_map (by_field holdings.now owner) (map field_of fields.now)) }
{
    for f in fields {
        mark_held(firsts, owner, f.place, held_in(holdings, &f.ty));
        mark_arrays(firsts, Test::Objt, f.place, &f.ty);
    }
}

pub fn mark_records(firsts: &mut [Option<Violation>], holdings: &[List<usize>], records: &[Record])
    ensures { Marks firsts.old firsts.new (by_records holdings.now 0 (records_of records.now)) }
{
    for (number, r) in records.iter().enumerate() {
        mark_fields(firsts, holdings, number, r.fields.as_slice());
    }
}
