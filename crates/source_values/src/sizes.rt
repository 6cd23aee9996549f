//! Sizes of all types, objects or not.

ghost use Rattle.std.specs.Prelude.{◌≡◌, ◌≤◌, ◌-◌, ◌*◌, ◌^◌, ℕ, min};
ghost use Rattle.c_types.specs.Layouts.{size_of};
ghost use Rattle.c_types.specs.Limits.{greatest_size};
ghost use Rattle.c_types.specs.Types.{structure};
ghost use Rattle.c_types.specs.Views.{records_of, type_of};
ghost use Rattle.c_typed.specs.Programs.{program_data};
ghost use Rattle.c_meaning.specs.Program.{element_size, length_of};

use c_typed::Typed;
use c_types::{Records, Ty, records_are_complete, size_of, width};

/// The size of the record with that number, which is 0 past the end.
#[tactic(auto, using(crate::proofs::Past::no_size, crate::proofs::Past::small_record))]
fn record_size(records: &Records, number: usize) -> u32
    ensures value { result ≡ size_of (records_of records.now) (structure number) }
    ensures small { result ≤ greatest_size }
{
    if number >= records.len() {
        return 0;
    }
    records_are_complete(records);
    size_of(records, &Ty::Record(number))
}

/// The size of an array of so many elements of that size.
fn array_size(element: u64, length: u64) -> u64
    ensures { (size : ℕ) → element ≡ min size (2 ^ 64 - 1) → result ≡ min (size * length) (2 ^ 64 - 1) }
{
    element.saturating_mul(length)
}

/// The size of a type, or `u64::MAX` where it passes that.
pub fn size(records: &Records, t: &Ty) -> u64
    ensures { result ≡ min (size_of (records_of records.now) (type_of t.now)) (2 ^ 64 - 1) }
{
    match t {
        Ty::Void | Ty::Function(_, _) => 0,
        Ty::Int(kind) => u64::from(width(*kind)),
        Ty::Pointer(_) => 4,
        Ty::Array(element, length) => array_size(size(records, element.get()), *length),
        Ty::Record(number) => u64::from(record_size(records, *number)),
    }
}

/// The size of what a pointer points to, or of the elements of an array, or `u64::MAX` where it passes that.
pub fn element_size(typed: &Typed, t: &Ty) -> u64
    ensures { result ≡ min (element_size (program_data typed.now) (type_of t.now)) (2 ^ 64 - 1) }
{
    match t {
        Ty::Pointer(t) | Ty::Array(t, _) => size(&typed.records, t.get()),
        _ => 0,
    }
}

/// How many elements an array has.
pub fn length(t: &Ty) -> u64
    ensures { result ≡ length_of (type_of t.now) }
{
    match t {
        Ty::Array(_, length) => *length,
        _ => 0,
    }
}
