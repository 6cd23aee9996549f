//! The records of the units, with the numbers of the program.

ghost use Rattle.std.specs.Prelude.{◌≡◌, ◌++◌, IfOk, OnOk, flat_map, map};
ghost use Rattle.c_link.specs.Joining.{records_in};
ghost use Rattle.c_numbers.specs.NewNumbers.Numbers.{number_at};
ghost use Rattle.c_numbers.specs.TypeNumbers.Renumbered.{field_in, record_in};
ghost use Rattle.c_typed.specs.Programs.{unit_data};
ghost use Rattle.c_types.specs.Views.{field_of, record_of, records_of};

use crate::tags::numbers_of_structures;
use c_numbers::{NameTable, Numbers, renumbered_type};
use c_typed::Unit;
use c_types::{Field, Record};
use lay_base::{List, Name, NoMemory, add, copied};
use std::alloc::Global;

/// A copy of a name.
pub fn copy_of_name(alloc: Global, name: &Name) -> Result<Name, NoMemory>
    ensures { IfOk result (λ copy. copy ≡ name.now) }
{
    Ok(Name::of(copied(alloc, name.as_slice())?))
}

fn renumbered_field(alloc: Global, numbers: &Numbers, f: &Field) -> Result<Field, NoMemory>
    ensures { IfOk result (λ r. field_of r ≡ field_in (number_at numbers.now) (field_of f.now)) }
{
    let name = copy_of_name(alloc, &f.name)?;
    let ty = renumbered_type(alloc, numbers, &f.ty)?;
    Ok(Field {
        name,
        ty,
        place: f.place,
    })
}

fn renumbered_record(alloc: Global, numbers: &Numbers, it: &Record) -> Result<Record, NoMemory>
    ensures { IfOk result (λ r. record_of r ≡ record_in (number_at numbers.now) (record_of it.now)) }
{
    let mut fields = List::new(alloc);
    for f in it.fields.as_slice() {
        add(&mut fields, renumbered_field(alloc, numbers, f)?)?;
    }
    Ok(Record {
        tag: copy_of_name(alloc, &it.tag)?,
        place: it.place,
        fields,
    })
}

fn add_records(
    alloc: Global,
    tags: &NameTable,
    all: &mut List<Record>,
    u: &Unit,
) -> Result<(), NoMemory>
    ensures { OnOk result (records_of all.new ≡ records_of all.old ++ records_in tags.now (unit_data u.now)) }
{
    let numbers = numbers_of_structures(alloc, tags, u)?;
    for it in u.records.as_slice() {
        add(all, renumbered_record(alloc, &numbers, it)?)?;
    }
    Ok(())
}

/// All records of the units.
pub fn all_records(
    alloc: Global,
    tags: &NameTable,
    units: &[Unit],
) -> Result<List<Record>, NoMemory>
    ensures { IfOk result (λ all. records_of all ≡ flat_map (records_in tags.now) (map unit_data units.now)) }
{
    let mut all = List::new(alloc);
    for u in units {
        add_records(alloc, tags, &mut all, u)?;
    }
    Ok(all)
}
