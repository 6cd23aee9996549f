//! Sizes of types, and where fields begin.

ghost use Rattle.std.specs.Prelude.{◌≡◌, ◌+◌, ◌-◌, ◌*◌, ◌^◌, ℕ, IfOk, IsErr, get_or, min};
ghost use Rattle.c_initial_values.specs.Values.{declared_by};
ghost use Rattle.c_types.specs.Layouts.{offset_of, size_of};
ghost use Rattle.c_types.specs.Types.{structure, void};
ghost use Rattle.c_types.specs.Views.{records_of, type_of};
ghost use Rattle.c_typed.specs.InitialValues.{element_size};

use c_annotated::Object;
use c_types::{Records, Ty, offset_of, records_are_complete, size_of, width};
use lay_base::{NoMemory, filled, reserve};
use std::alloc::Global;

/// The size of the record with that number, which is 0 past the end.
#[tactic(auto, using(crate::proofs::Objects::no_size, crate::proofs::Objects::small_record))]
fn record_size(records: &Records, number: usize) -> u32
    ensures { result ≡ size_of (records_of records.now) (structure number) }
{
    if number >= records.len() {
        return 0;
    }
    records_are_complete(records);
    size_of(records, &Ty::Record(number))
}

/// The size of an array of so many elements of that size.
fn array_size(element: u64, length: u64) -> u64
    ensures { (size : ℕ) → element ≡ min size (2 ^ 64 - 1) → result ≡ min (size * length) (2 ^ 64 - 1) }
{
    element.saturating_mul(length)
}

/// The size of a type, or `u64::MAX` where it passes that. What is no object has the size 0.
pub fn size(records: &Records, t: &Ty) -> u64
    ensures { result ≡ min (size_of (records_of records.now) (type_of t.now)) (2 ^ 64 - 1) }
{
    match t {
        Ty::Void | Ty::Function(_, _) => 0,
        Ty::Int(kind) => u64::from(width(*kind)),
        Ty::Pointer(_) => 4,
        Ty::Array(element, length) => array_size(size(records, element.get()), *length),
        Ty::Record(number) => u64::from(record_size(records, *number)),
    }
}

/// The size of what a pointer points to, or `u64::MAX` where it passes that, and 0 of any other type.
pub fn element_size(records: &Records, t: &Ty) -> u64
    ensures { result ≡ min (element_size (records_of records.now) (type_of t.now)) (2 ^ 64 - 1) }
{
    match t {
        Ty::Pointer(to) => size(records, to.get()),
        _ => 0,
    }
}

/// The size of an object by its number, or `u64::MAX` where it passes that.
#[tactic(auto, using(crate::proofs::Objects::known, crate::proofs::Objects::unknown))]
pub fn object_size(records: &Records, objects: &[Object], number: usize) -> u64
    ensures { result ≡ min (size_of (records_of records.now) (get_or (declared_by records.now objects.now).objects number void)) (2 ^ 64 - 1) }
{
    if number >= objects.len() {
        return 0;
    }
    size(records, &objects[number].ty)
}

/// Where a field begins; it is 0 of a field that is not there.
#[tactic(auto, using(crate::proofs::Objects::no_record, crate::proofs::Objects::no_field))]
pub fn field_offset(records: &Records, number: usize, field: usize) -> u32
    ensures { result ≡ offset_of (records_of records.now) number field }
{
    if number >= records.len() || field >= records.get(number).fields.len() {
        return 0;
    }
    offset_of(records, number, field)
}

/// Asks for more bytes than a vector can have.
fn refused<T>(alloc: Global) -> Result<T, NoMemory>
    ensures { IsErr result }
{
    let mut bytes = filled(alloc, 0_u8, 1)?;
    reserve(&mut bytes, usize::MAX)?;
    // No number is its capacity.
    let _capacity = bytes.capacity();
    unreachable!()
}

/// So many bytes further on, where `u64::MAX` stands for all numbers from there on. At 2^32, which the limits of types rule out, more memory is asked for
/// than there can be.
pub fn further(alloc: Global, at: u32, by: u64) -> Result<u32, NoMemory>
    ensures { (exact : ℕ) → by ≡ min exact (2 ^ 64 - 1) → IfOk result (λ next. next ≡ at + exact) }
{
    match u32::try_from(u64::from(at).saturating_add(by)) {
        Ok(next) => Ok(next),
        Err(_) => refused(alloc),
    }
}
