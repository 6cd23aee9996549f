//! Types as keys.

ghost use Rattle.std.specs.Prelude.{◌≡◌, ◌++◌, ◌∷◌, [], IfOk, OnOk};
ghost use Rattle.c_numbers.specs.TypeNumbers.TypeKeys.{kind_number, type_key};
ghost use Rattle.c_types.specs.Views.{type_of};

use c_types::{IntKind, Ty};
use lay_base::{NoMemory, push};
use std::alloc::Global;

fn kind_number(kind: IntKind) -> u64
    ensures { result ≡ kind_number kind }
{
    match kind {
        IntKind::Char => 0,
        IntKind::SChar => 1,
        IntKind::UChar => 2,
        IntKind::Short => 3,
        IntKind::UShort => 4,
        IntKind::Int => 5,
        IntKind::UInt => 6,
        IntKind::Long => 7,
        IntKind::ULong => 8,
    }
}

fn append_two(key: &mut Vec<u64>, first: u64, second: u64) -> Result<(), NoMemory>
    ensures { OnOk result (key.new.items ≡ key.old.items ++ first ∷ second ∷ []) }
{
    push(key, first)?;
    push(key, second)
}

#[tactic(auto, using(crate::proofs::TypeNumbers::Keys::two_appended, crate::proofs::TypeNumbers::Keys::one_appended, crate::proofs::TypeNumbers::Keys::pair_appended))]
fn append_type(key: &mut Vec<u64>, t: &Ty) -> Result<(), NoMemory>
    ensures { OnOk result (key.new.items ≡ key.old.items ++ type_key (type_of t.now)) }
{
    match t {
        Ty::Void => push(key, 0),
        Ty::Int(kind) => append_two(key, 1, kind_number(*kind)),
        Ty::Pointer(to) => {
            push(key, 2)?;
            append_type(key, to.get())
        }
        Ty::Array(element, length) => {
            append_two(key, 3, *length)?;
            append_type(key, element.get())
        }
        Ty::Function(result, parameters) => {
            push(key, 4)?;
            append_type(key, result.get())?;
            for parameter in parameters.get().as_slice() {
                push(key, 1)?;
                append_type(key, parameter)?;
            }
            push(key, 0)
        }
        Ty::Record(number) => append_two(key, 5, *number as u64),
    }
}

/// The key of a type.
pub fn type_key(alloc: Global, t: &Ty) -> Result<Vec<u64>, NoMemory>
    ensures { IfOk result (λ key. key.items ≡ type_key (type_of t.now)) }
{
    let mut key = Vec::new(alloc);
    append_type(&mut key, t)?;
    Ok(key)
}

/// A number by which a type is looked for before its key is made.
pub fn hint(t: &Ty) -> u64 {
    match t {
        Ty::Void => 0,
        Ty::Int(kind) => kind_number(*kind).wrapping_add(1),
        Ty::Pointer(to) => hint(to.get()).wrapping_mul(11).wrapping_add(16),
        Ty::Array(element, length) => hint(element.get()).wrapping_mul(37).wrapping_add(*length),
        Ty::Function(result, _) => hint(result.get()).wrapping_add(512),
        Ty::Record(number) => (*number as u64).wrapping_add(256),
    }
}
