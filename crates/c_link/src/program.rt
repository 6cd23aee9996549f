//! The program of units.

ghost use Rattle.std.specs.Prelude.{◌≡◌, ◌≤◌, [], false, true, IfOk, OnOk, length, map};
ghost use Rattle.c_link.specs.Joining.{all_tags, joined, records};
ghost use Rattle.c_link.specs.Placing.{placed, put};
ghost use Rattle.c_link.specs.JoinedRecords.{AreWhole, CanFollow};
ghost use Rattle.c_link.specs.JoinedViews.{assembled, tagged};
ghost use Rattle.c_link.specs.Views.{joined_of};
ghost use Rattle.c_typed.specs.Programs.{program_data, unit_data};
ghost use Rattle.c_types.specs.Views.{records_of, type_of};

use crate::joining::{Joined, joined_units};
use crate::records::all_records;
use crate::tables::{Tables, program_tables};
use c_numbers::NameTable;
use c_typed::{Typed, Unit};
use c_types::{Record, RecordFault, Records};
use lay_base::{List, NoMemory};
use std::alloc::Global;

/// Adds a record, where there is none of its number.
fn join_record(records: &mut Records, number: usize, r: Record) -> Result<(), NoMemory>
    requires { length records.old ≤ number → CanFollow records.old r }
    ensures { OnOk result (records.new ≡ put false records.old number r) }
{
    if number < records.len() {
        return Ok(());
    }
    match records.add(r) {
        Ok(_) => Ok(()),
        Err(RecordFault::Memory(want)) => Err(want),
        Err(RecordFault::TooBig(_)) => unreachable!(),
    }
}

/// The first record of each tag.
fn joined_records(alloc: Global, tags: &NameTable, all: List<Record>) -> Result<Records, NoMemory>
    requires { AreWhole (placed (λ r. true) tags.now [] (map tagged (records_of all))) }
    ensures { IfOk result (λ r. records_of r ≡ placed (λ r. true) tags.now [] (map tagged (records_of all))) }
{
    let mut records = Records::new(alloc);
    for r in all.into_vec() {
        join_record(&mut records, tags.number(r.tag.as_slice()), r)?;
    }
    Ok(records)
}

fn assembled(records: Records, tables: Tables, joined: Joined, main: usize) -> Typed
    ensures { program_data result ≡ assembled (records_of records) (map type_of tables.types) (joined_of joined) main }
{
    let Tables { types, .. } = tables;
    let Joined {
        objects,
        functions,
        mentions,
        nodes,
    } = joined;
    Typed {
        records,
        types: types.into_list(),
        objects: List::of(objects),
        functions: List::of(functions),
        mentions,
        main,
        nodes,
    }
}

/// The program of units, whether they have a gap or not. Their tags are these.
pub fn join(alloc: Global, tags: &NameTable, units: List<Unit>) -> Result<Typed, NoMemory>
    requires tags { tags.now ≡ all_tags (map unit_data units) }
    requires whole { AreWhole (records (map unit_data units)) }
    ensures { IfOk result (λ p. program_data p ≡ joined (map unit_data units)) }
{
    let tables = program_tables(alloc, tags, units.as_slice())?;
    // The key of the name `main`.
    let main = tables.functions.number(&[0, 109, 97, 105, 110]);
    let all = all_records(alloc, tags, units.as_slice())?;
    let records = joined_records(alloc, tags, all)?;
    let joined = joined_units(alloc, tags, &tables, units)?;
    Ok(assembled(records, tables, joined, main))
}
