//! The types of a program, and the numbers that a unit's types have among them.

ghost use Rattle.std.specs.Prelude.{◌≡◌, IfOk, OnOk, fold, get_or, map};
ghost use Rattle.c_erasure.specs.Units.{number_in};
ghost use Rattle.c_link.specs.Joining.{types_in};
ghost use Rattle.c_numbers.specs.NewNumbers.Numbers.{number_at};
ghost use Rattle.c_numbers.specs.TypeNumbers.Adding.{with_type};
ghost use Rattle.c_numbers.specs.TypeNumbers.Renumbered.{renumbered};
ghost use Rattle.c_typed.specs.Programs.{unit_data};
ghost use Rattle.c_types.specs.Types.{void};
ghost use Rattle.c_types.specs.Views.{type_of};

use crate::tags::numbers_of_structures;
use c_numbers::{NameTable, Numbers, TypeTable, renumbered_type};
use c_typed::Unit;
use c_types::Ty;
use lay_base::{List, NoMemory, add};
use std::alloc::Global;

/// Adds the types of a unit.
pub fn add_types(
    alloc: Global,
    types: &mut TypeTable,
    tags: &NameTable,
    u: &Unit,
) -> Result<(), NoMemory>
    ensures { OnOk result (map type_of types.new ≡ fold with_type (map type_of types.old) (types_in tags.now (unit_data u.now))) }
{
    let records = numbers_of_structures(alloc, tags, u)?;
    for t in u.types.as_slice() {
        types.add(alloc, renumbered_type(alloc, &records, t)?)?;
    }
    Ok(())
}

/// The numbers of a unit's types.
pub fn numbers_of_types(
    alloc: Global,
    types: &TypeTable,
    records: &Numbers,
    all: &[Ty],
) -> Result<Numbers, NoMemory>
    ensures { IfOk result (λ numbers. number_at numbers ≡ (λ i. number_in (map type_of types.now) (renumbered (number_at records.now) (get_or (map type_of all.now) i void)))) }
{
    let mut entries = List::new(alloc);
    for t in all {
        let t = renumbered_type(alloc, records, t)?;
        add(&mut entries, types.number(alloc, &t)?)?;
    }
    let otherwise = types.number(alloc, &Ty::Void)?;
    Ok(Numbers { entries, otherwise })
}
