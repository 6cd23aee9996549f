//! The names with linkage of some units (C99 6.2.2).

ghost use Rattle.std.specs.Prelude.{◌≡◌, ◌++◌, ◌∷◌, [], IfOk, OnOk, flat_map, get_or, map};
ghost use Rattle.c_link.specs.Gaps.{linked_by};
ghost use Rattle.c_link.specs.Names.{linked_of};
ghost use Rattle.c_numbers.specs.NewNumbers.Numbers.{number_at};
ghost use Rattle.c_numbers.specs.TypeNumbers.Renumbered.{renumbered};
ghost use Rattle.c_typed.specs.Programs.{unit_data};
ghost use Rattle.c_types.specs.Types.{void};
ghost use Rattle.c_types.specs.Views.{type_of};

use crate::records::copy_of_name;
use crate::tags::numbers_of_structures;
use c_numbers::{NameTable, Numbers, renumbered_type};
use c_typed::Unit;
use c_types::Ty;
use lay_base::{List, Name, NoMemory, Place, add};
use std::alloc::Global;

/// A name with linkage where a unit declares it, with its type in the program.
#[derive(Drop)]
pub struct Linked {
    pub name: Name,
    pub place: Place,
    pub ty: Ty,
    pub is_defined: bool,
}

/// Adds a name with linkage. There is no type past the list's end.
fn add_linked(
    alloc: Global,
    records: &Numbers,
    types: &[Ty],
    all: &mut List<Linked>,
    name: &Name,
    place: Place,
    number: usize,
    is_defined: bool,
) -> Result<(), NoMemory>
    ensures { OnOk result (map linked_of all.new ≡ map linked_of all.old ++ record { name = name.now; place = place; ty = renumbered (number_at records.now) (get_or (map type_of types.now) number void); is_defined = is_defined } ∷ []) }
{
    let name = copy_of_name(alloc, name)?;
    let ty = match types.get(number) {
        Some(t) => renumbered_type(alloc, records, t)?,
        None => Ty::Void,
    };
    add(
        all,
        Linked {
            name,
            place,
            ty,
            is_defined,
        },
    )
}

fn add_unit(
    alloc: Global,
    tags: &NameTable,
    all: &mut List<Linked>,
    u: &Unit,
) -> Result<(), NoMemory>
    ensures { OnOk result (map linked_of all.new ≡ map linked_of all.old ++ linked_by tags.now (unit_data u.now)) }
{
    let records = numbers_of_structures(alloc, tags, u)?;
    let types = u.types.as_slice();
    for o in u.objects.as_slice() {
        if o.linked {
            let is_defined = o.initial.is_some();
            add_linked(
                alloc, &records, types, all, &o.name, o.place, o.ty, is_defined,
            )?;
        }
    }
    for f in u.functions.as_slice() {
        if f.linked {
            let is_defined = f.body.is_some();
            add_linked(
                alloc, &records, types, all, &f.name, f.place, f.ty, is_defined,
            )?;
        }
    }
    Ok(())
}

/// The names with linkage of the units, in their order, with their types in the program.
pub fn linked_in(alloc: Global, tags: &NameTable, units: &[Unit]) -> Result<List<Linked>, NoMemory>
    ensures { IfOk result (λ all. map linked_of all ≡ flat_map (linked_by tags.now) (map unit_data units.now)) }
{
    let mut all = List::new(alloc);
    for u in units {
        add_unit(alloc, tags, &mut all, u)?;
    }
    Ok(all)
}
