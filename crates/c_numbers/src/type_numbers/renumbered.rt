//! Types with other numbers of records.

ghost use Rattle.std.specs.Prelude.{◌≡◌, IfOk};
ghost use Rattle.c_numbers.specs.NewNumbers.Numbers.{number_at};
ghost use Rattle.c_numbers.specs.TypeNumbers.Renumbered.{renumbered};
ghost use Rattle.c_types.specs.Views.{type_of};

use crate::new_numbers::Numbers;
use c_types::Ty;
use lay_base::{NoMemory, add, shared, with_room};
use std::alloc::Global;

/// A copy of a type with other numbers of records.
pub fn renumbered_type(alloc: Global, records: &Numbers, t: &Ty) -> Result<Ty, NoMemory>
    ensures { IfOk result (λ r. type_of r ≡ renumbered (number_at records.now) (type_of t.now)) }
{
    match t {
        Ty::Void => Ok(Ty::Void),
        Ty::Int(kind) => Ok(Ty::Int(*kind)),
        Ty::Pointer(to) => {
            let to = renumbered_type(alloc, records, to.get())?;
            Ok(Ty::Pointer(shared(alloc, to)?))
        }
        Ty::Array(element, length) => {
            let element = renumbered_type(alloc, records, element.get())?;
            Ok(Ty::Array(shared(alloc, element)?, *length))
        }
        Ty::Function(result, parameters) => {
            let returned = renumbered_type(alloc, records, result.get())?;
            let returned = shared(alloc, returned)?;
            let mut copies = with_room(alloc, parameters.get().len())?;
            for parameter in parameters.get().as_slice() {
                add(&mut copies, renumbered_type(alloc, records, parameter)?)?;
            }
            Ok(Ty::Function(returned, shared(alloc, copies)?))
        }
        Ty::Record(number) => Ok(Ty::Record(records.at(*number))),
    }
}
