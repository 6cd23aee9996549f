//! Where fields lie.

ghost use Rattle.std.specs.Prelude.{◌≡◌, ◌≤◌, ◌<◌, length};
ghost use Rattle.c_types.specs.Layouts.{offset_of};
ghost use Rattle.c_types.specs.Limits.{greatest_size};
ghost use Rattle.c_types.specs.Views.{records_of};

use c_types::{Records, fields_lie_apart, offset_of, records_are_complete};

/// Where a field of a record of the list begins, and 0 where there is no such field.
#[tactic(auto, using(crate::proofs::Past::no_field, crate::proofs::Past::small_offset))]
fn offset_in(records: &Records, number: usize, field: usize) -> u32
    requires { number < length records.now }
    ensures value { result ≡ offset_of (records_of records.now) number field }
    ensures small { result ≤ greatest_size }
{
    if field >= records.get(number).fields.len() {
        return 0;
    }
    fields_lie_apart(records);
    records_are_complete(records);
    offset_of(records, number, field)
}

/// Where a field of a record begins, and 0 where there is no such field.
#[tactic(auto, using(crate::proofs::Past::no_record))]
pub fn offset(records: &Records, number: usize, field: usize) -> u32
    ensures value { result ≡ offset_of (records_of records.now) number field }
    ensures small { result ≤ greatest_size }
{
    if number < records.len() {
        offset_in(records, number, field)
    } else {
        0
    }
}
