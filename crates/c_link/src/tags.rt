//! The tags of a program's structures, and the numbers that a unit's structures have among them.

ghost use Rattle.std.specs.Prelude.{◌≡◌, IfOk, map};
ghost use Rattle.c_link.specs.Joining.{all_tags, structure_in};
ghost use Rattle.c_numbers.specs.NewNumbers.Numbers.{number_at};
ghost use Rattle.c_typed.specs.Programs.{unit_data};

use c_numbers::{NameTable, Numbers};
use c_typed::Unit;
use lay_base::{List, NoMemory, add};
use std::alloc::Global;

/// The tags of the units' structures, those first that a unit completes.
pub fn all_tags(alloc: Global, units: &[Unit]) -> Result<NameTable, NoMemory>
    ensures { IfOk result (λ tags. tags ≡ all_tags (map unit_data units.now)) }
{
    let mut tags = NameTable::new(alloc);
    for u in units {
        for r in u.records.as_slice() {
            tags.add(alloc, &r.tag)?;
        }
    }
    for u in units {
        for name in u.incomplete.as_slice() {
            tags.add(alloc, name)?;
        }
    }
    Ok(tags)
}

/// The numbers of a unit's structures.
pub fn numbers_of_structures(alloc: Global, tags: &NameTable, u: &Unit) -> Result<Numbers, NoMemory>
    ensures { IfOk result (λ numbers. number_at numbers ≡ structure_in tags.now (unit_data u.now)) }
{
    let mut entries = List::new(alloc);
    for r in u.records.as_slice() {
        add(&mut entries, tags.number(r.tag.as_slice()))?;
    }
    for name in u.incomplete.as_slice() {
        add(&mut entries, tags.number(name.as_slice()))?;
    }
    Ok(Numbers {
        entries,
        otherwise: tags.number(&[]),
    })
}
