//! Copies of types, the number of their parts, and which of them fully describe objects.

ghost use Rattle.std.specs.Prelude.{◌≡◌, ◌-◌, ◌^◌, IfOk, min};
ghost use Rattle.c_types.specs.Objects.{is_object, parts};
ghost use Rattle.c_types.specs.Views.{type_of};

use crate::ty::Ty;
use lay_base::{List, NoMemory, Shared, add, shared};
use std::alloc::Global;

/// A copy of a type. It shares the types of which the type is built, and takes memory only for one that has as many owners as can be counted.
#[cycle(copying)]
pub fn copy(alloc: Global, t: &Ty) -> Result<Ty, NoMemory>
    ensures { IfOk result (λ copy. copy ≡ t.now) }
{
    match t {
        Ty::Void => Ok(Ty::Void),
        Ty::Int(kind) => Ok(Ty::Int(*kind)),
        Ty::Pointer(to) => Ok(Ty::Pointer(share(alloc, to)?)),
        Ty::Array(element, length) => Ok(Ty::Array(share(alloc, element)?, *length)),
        Ty::Function(result, parameters) => {
            let result = share(alloc, result)?;
            Ok(Ty::Function(result, share_all(alloc, parameters)?))
        }
        Ty::Record(number) => Ok(Ty::Record(*number)),
    }
}

/// One more owner of a type, or a copy with its first.
#[cycle(copying)]
fn share(alloc: Global, t: &Shared<Ty>) -> Result<Shared<Ty>, NoMemory>
    ensures { IfOk result (λ copy. copy ≡ t.now) }
{
    match t.again() {
        Some(t) => Ok(t),
        None => shared(alloc, copy(alloc, t.get())?),
    }
}

/// One more owner of a list of types, or a copy with its first.
#[cycle(copying)]
fn share_all(alloc: Global, all: &Shared<List<Ty>>) -> Result<Shared<List<Ty>>, NoMemory>
    ensures { IfOk result (λ copy. copy ≡ all.now) }
{
    if let Some(all) = all.again() {
        return Ok(all);
    }
    let mut copies = List::new(alloc);
    for t in all.get().as_slice() {
        add(&mut copies, copy(alloc, t)?)?;
    }
    shared(alloc, copies)
}

/// How many types a type is built of, itself among them, or `u32::MAX` where they are more. A record
/// is one, whatever its fields are.
pub fn parts(t: &Ty) -> u32
    ensures { result ≡ min (parts (type_of t.now)) (2 ^ 32 - 1) }
{
    match t {
        Ty::Void | Ty::Int(_) | Ty::Record(_) => 1,
        Ty::Pointer(t) | Ty::Array(t, _) => parts(t.get()).saturating_add(1),
        Ty::Function(result, parameters) => {
            let mut count = parts(result.get());
            for parameter in parameters.get().as_slice() {
                count = count.saturating_add(parts(parameter));
            }
            count.saturating_add(1)
        }
    }
}

/// Whether a type fully describes an object (C99 6.2.5), where so many records are complete.
pub fn is_object(records: usize, t: &Ty) -> bool
    ensures { result ≡ is_object records (type_of t.now) }
{
    match t {
        Ty::Void | Ty::Function(_, _) => false,
        Ty::Int(_) | Ty::Pointer(_) => true,
        Ty::Array(element, length) => *length > 0 && is_object(records, element.get()),
        Ty::Record(number) => *number < records,
    }
}
