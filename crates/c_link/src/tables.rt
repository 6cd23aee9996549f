//! The tables by which a program's numbers go, and what a unit's numbers become.

ghost use Rattle.std.specs.Prelude.{◌≡◌, IfOk, OnOk, map};
ghost use Rattle.c_link.specs.Joining.{all_tags, renaming, tables};
ghost use Rattle.c_link.specs.Views.{tables_of, with_unit_in};
ghost use Rattle.c_numbers.specs.NewNumbers.Numbers.{renaming_of};
ghost use Rattle.c_typed.specs.Programs.{unit_data};

use crate::identities::{add_keys, function_keys, numbers_of, object_keys};
use crate::tags::numbers_of_structures;
use crate::types::{add_types, numbers_of_types};
use c_numbers::{KeyTable, NameTable, Renumbering, TypeTable};
use c_typed::Unit;
use lay_base::NoMemory;
use std::alloc::Global;

/// The types, objects and functions of a program, each by its number.
#[derive(Drop)]
pub struct Tables {
    pub types: TypeTable,
    pub objects: KeyTable,
    pub functions: KeyTable,
}

fn add_unit(
    alloc: Global,
    tags: &NameTable,
    tables: &mut Tables,
    unit: usize,
    u: &Unit,
) -> Result<(), NoMemory>
    ensures { OnOk result (tables_of tags.now tables.new ≡ with_unit_in (tables_of tags.now tables.old) (unit, unit_data u.now)) }
{
    add_types(alloc, &mut tables.types, tags, u)?;
    let objects = object_keys(alloc, unit, u.objects.as_slice())?;
    add_keys(&mut tables.objects, objects)?;
    let functions = function_keys(alloc, unit, u.functions.as_slice())?;
    add_keys(&mut tables.functions, functions)
}

/// The tables of the program of some units, whose tags are these.
pub fn program_tables(alloc: Global, tags: &NameTable, units: &[Unit]) -> Result<Tables, NoMemory>
    requires { tags.now ≡ all_tags (map unit_data units.now) }
    ensures { IfOk result (λ t. tables_of tags.now t ≡ tables (map unit_data units.now)) }
{
    let mut tables = Tables {
        types: TypeTable::new(alloc),
        objects: KeyTable::new(alloc),
        functions: KeyTable::new(alloc),
    };
    for (k, u) in units.iter().enumerate() {
        add_unit(alloc, tags, &mut tables, k, u)?;
    }
    Ok(tables)
}

/// What the numbers of a unit become in the program.
pub fn renumbering(
    alloc: Global,
    tags: &NameTable,
    tables: &Tables,
    unit: usize,
    u: &Unit,
) -> Result<Renumbering, NoMemory>
    ensures { IfOk result (λ to. renaming_of to ≡ renaming (tables_of tags.now tables.now) unit (unit_data u.now)) }
{
    let records = numbers_of_structures(alloc, tags, u)?;
    let types = numbers_of_types(alloc, &tables.types, &records, u.types.as_slice())?;
    let keys = object_keys(alloc, unit, u.objects.as_slice())?;
    let objects = numbers_of(alloc, &tables.objects, keys.as_slice())?;
    let keys = function_keys(alloc, unit, u.functions.as_slice())?;
    let functions = numbers_of(alloc, &tables.functions, keys.as_slice())?;
    Ok(Renumbering {
        types,
        objects,
        functions,
        records,
    })
}
