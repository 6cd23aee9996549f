//! Structures of one tag whose members differ (C99 6.2.7).

ghost use Rattle.std.specs.Prelude.{◌≡◌, ◌++◌, [], IfOk, MatchOption, OnOk, map};
ghost use Rattle.c_link.specs.Joining.{all_tags};
ghost use Rattle.c_link.specs.Clashes.{clashes, differing, same_field, same_fields, trouble_of};
ghost use Rattle.c_link.specs.Gaps.{HasNone, IsEarliest, IsTagClash};
ghost use Rattle.c_link.specs.Repeats.{told_if_any};
ghost use Rattle.c_typed.specs.Programs.{unit_data};
ghost use Rattle.c_types.specs.Views.{field_of, record_of, records_of};
ghost use Rattle.std.specs.Option.{option_copied, option_map};

use crate::joining::put;
use crate::records::all_records;
use crate::troubles::{Trouble, add_trouble, earliest};
use c_numbers::NameTable;
use c_typed::Unit;
use c_types::{Field, Record, same};
use lay_base::{List, NoMemory};
use std::alloc::Global;

fn same_field(f: &Field, g: &Field) -> bool
    ensures { result ≡ same_field (field_of f.now) (field_of g.now) }
{
    f.name.as_slice() == g.name.as_slice() && same(&f.ty, &g.ty)
}

fn same_fields(all: &[Field], others: &[Field]) -> bool
    ensures { result ≡ same_fields (map field_of all.now) (map field_of others.now) }
{
    if all.len() != others.len() {
        return false;
    }
    for (index, f) in all.iter().enumerate() {
        if !same_field(f, &others[index]) {
            return false;
        }
    }
    true
}

fn add_clash(
    alloc: Global,
    troubles: &mut List<Trouble>,
    first: Option<&Record>,
    r: &Record,
) -> Result<(), NoMemory>
    ensures { OnOk result (map trouble_of troubles.new ≡ map trouble_of troubles.old ++ told_if_any differing (option_map record_of (option_copied first.entry)) (record_of r.now)) }
{
    match first {
        Some(first) if !same_fields(r.fields.as_slice(), first.fields.as_slice()) => {
            add_trouble(alloc, troubles, &r.tag, r.place, first.place)
        }
        _ => Ok(()),
    }
}

/// The troubles with the tags of some records, in their order.
fn tag_troubles(alloc: Global, tags: &NameTable, all: &[Record]) -> Result<List<Trouble>, NoMemory>
    ensures { IfOk result (λ troubles. map trouble_of troubles ≡ clashes tags.now [] (records_of all.now)) }
{
    let mut troubles = List::new(alloc);
    let mut firsts: Vec<&Record> = Vec::new(alloc);
    for r in all {
        let number = tags.number(r.tag.as_slice());
        add_clash(alloc, &mut troubles, firsts.get(number).copied(), r)?;
        put(&mut firsts, number, false, r)?;
    }
    Ok(troubles)
}

/// The earliest trouble with a tag among the units, if there is one. The tags are those of the units.
pub fn tag_clash(
    alloc: Global,
    tags: &NameTable,
    units: &[Unit],
) -> Result<Option<Trouble>, NoMemory>
    requires { tags.now ≡ all_tags (map unit_data units.now) }
    ensures { IfOk result (λ found. MatchOption found (HasNone (IsTagClash (map unit_data units.now))) (λ t. IsEarliest (IsTagClash (map unit_data units.now)) (trouble_of t))) }
{
    let all = all_records(alloc, tags, units)?;
    Ok(earliest(tag_troubles(alloc, tags, all.as_slice())?))
}
