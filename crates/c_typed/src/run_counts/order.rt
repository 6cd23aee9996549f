//! The order of the functions in counts.

ghost use Rattle.std.specs.Prelude.{◌≡◌, IfOk};
ghost use Rattle.c_typed.specs.RunCounts.Order.{defined_in, profile_order};
ghost use Rattle.c_typed.specs.Programs.{program_data};

use crate::program::Typed;
use lay_base::{NoMemory, Place, push};
use std::alloc::Global;

/// A function that a program defines: its number in the program, and the place of its definition.
#[derive(Clone, Copy)]
pub struct Defined {
    pub number: usize,
    pub place: Place,
}

/// The functions that a program defines, by their numbers.
fn defined_in(alloc: Global, p: &Typed) -> Result<Vec<Defined>, NoMemory>
    ensures { IfOk result (λ all. all.items ≡ defined_in (program_data p.now)) }
{
    let mut all = Vec::new(alloc);
    for (number, f) in p.functions.as_slice().iter().enumerate() {
        if f.body.is_some() {
            let defined = Defined {
                number,
                place: f.place,
            };
            push(&mut all, defined)?;
        }
    }
    Ok(all)
}

/// The functions that a program defines, in the order of the files and places of their definitions.
pub fn profile_order(alloc: Global, p: &Typed) -> Result<Vec<Defined>, NoMemory>
    ensures { IfOk result (λ order. order.items ≡ profile_order (program_data p.now)) }
{
    let mut order = defined_in(alloc, p)?;
    order.sort_unstable_by_key(|f| (f.place.file, f.place.at, f.number));
    Ok(order)
}
