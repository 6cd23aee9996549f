//! Bytes of objects, and moves from one to another.

ghost use Rattle.std.specs.Prelude.{◌≡◌, ◌≤◌, ◌-◌, ◌^◌, ◌+ℤ◌, ◌*ℤ◌, ℕ, Some, get_or, min, nat_abs, pos};
ghost use Rattle.std.specs.Option.{option_map};
ghost use Rattle.c_typed.specs.AnswerViews.{constant_view};
ghost use Rattle.c_typed.specs.InitialValues.{inside, moved, number_in, or_negated, subscripted, within};
ghost use Rattle.c_typed.specs.Subscripts.{is_subscript};
ghost use Rattle.c_typed.specs.Typed.{Declared};
ghost use Rattle.c_initial_values.specs.Values.{address_of, declared_by};
ghost use Rattle.c_typed.specs.Constants.{kind_of};
ghost use Rattle.c_typed.specs.Conversions.{number_of};
ghost use Rattle.c_types.specs.Layouts.{size_of};
ghost use Rattle.c_types.specs.Types.{array, void};
ghost use Rattle.c_types.specs.Views.{type_of};

use crate::sizes::{object_size, size};
use c_annotated::Object;
use c_typed::{Constant, PointerOp, is_signed};
use c_types::{Records, Ty};

/// A byte of an object, or the end of it.
#[derive(Clone, Copy)]
pub struct Address {
    /// The number of the object.
    pub object: usize,
    pub offset: u32,
}

/// The number that a constant of a type stands for.
pub fn number_in(t: &Ty, c: Constant) -> Option<i64>
    ensures { result ≡ number_in (type_of t.now) (constant_view c) }
{
    match c {
        Constant::Valued(v) => Some(number_of(t, v)),
        _ => None,
    }
}

/// The number for which 32 bits stand; of a type that is no integer type they stand for an `int`.
fn number_of(t: &Ty, v: u32) -> i64
    ensures { result ≡ number_of (kind_of (type_of t.now)) v }
{
    let is_unsigned = match t {
        Ty::Int(kind) => !is_signed(*kind),
        _ => false,
    };
    if is_unsigned {
        i64::from(v)
    } else {
        i64::from(v.cast_signed())
    }
}

/// The byte of an object at an offset, where its end is known. `u64::MAX` stands for all ends from there on.
fn byte_of(n: usize, end: u64, offset: i128) -> Option<Address>
    ensures { (d : Declared) → end ≡ min (size_of d.records (get_or d.objects n void)) (2 ^ 64 - 1) → option_map address_of result ≡ within d n offset }
{
    if offset < 0 || offset > i128::from(end) || offset > 0xFFFF_FFFF {
        None
    } else {
        Some(Address {
            object: n,
            offset: offset as u32,
        })
    }
}

/// The byte that lies so many elements from another, which is none of an object where it is too far.
fn byte_at(from: u32, k: i128, size: u64) -> i128
    requires { nat_abs k ≤ 2 ^ 63 }
    ensures { result ≡ pos from +ℤ k *ℤ pos size }
{
    i128::from(from) + k * i128::from(size)
}

/// The byte of the object that lies so many elements of that size from another one. `u64::MAX` stands for all sizes from there on.
fn elements_on(
    records: &Records,
    objects: &[Object],
    a: Address,
    k: i128,
    size: u64,
) -> Option<Address>
    requires { nat_abs k ≤ 2 ^ 63 }
    ensures { (exact : ℕ) → size ≡ min exact (2 ^ 64 - 1) → option_map address_of result
        ≡ within (declared_by records.now objects.now) a.object (pos a.offset +ℤ k *ℤ pos exact) }
{
    let end = object_size(records, objects, a.object);
    byte_of(a.object, end, byte_at(a.offset, k, size))
}

/// So many elements of that size further on in the object.
pub fn moved(
    records: &Records,
    objects: &[Object],
    a: Option<Address>,
    k: Option<i64>,
    size: u64,
) -> Option<Address>
    ensures { (exact : ℕ) → size ≡ min exact (2 ^ 64 - 1)
        → option_map address_of result ≡ moved (declared_by records.now objects.now) (option_map address_of a) k exact }
{
    match (a, k) {
        (Some(a), Some(k)) => elements_on(records, objects, a, i128::from(k), size),
        _ => None,
    }
}

/// So many elements of that size further on or back in the object.
pub fn moved_by(
    records: &Records,
    objects: &[Object],
    op: PointerOp,
    a: Option<Address>,
    k: Option<i64>,
    size: u64,
) -> Option<Address>
    ensures { (exact : ℕ) → size ≡ min exact (2 ^ 64 - 1) → option_map address_of result
        ≡ moved (declared_by records.now objects.now) (option_map address_of a) (or_negated (declared_by records.now objects.now) op k) exact }
{
    match (op, a, k) {
        (PointerOp::Subtract, Some(a), Some(k)) => {
            elements_on(records, objects, a, (-1_i128) * i128::from(k), size)
        }
        (PointerOp::Subtract, _, _) => None,
        (PointerOp::Add, a, k) => moved(records, objects, a, k, size),
    }
}

/// Whether a number may be a subscript of an array of that length; under `&` it may be the length.
fn is_subscript(length: u64, addressed: bool, number: i64) -> bool
    ensures { result ≡ is_subscript length addressed number }
{
    let number = i128::from(number);
    let length = i128::from(length);
    0 <= number && (number < length || addressed && number == length)
}

/// An element of an array; under `&` its end too.
pub fn subscripted(
    records: &Records,
    objects: &[Object],
    addressed: bool,
    t: &Ty,
    a: Option<Address>,
    k: Option<i64>,
) -> Option<Address>
    ensures { option_map address_of result
        ≡ subscripted (declared_by records.now objects.now) addressed (type_of t.now) (option_map address_of a) k }
{
    match t {
        Ty::Array(element, length) => {
            element_at(records, objects, addressed, element.get(), *length, a, k)
        }
        _ => None,
    }
}

/// An element of an array of that length; under `&` its end too.
fn element_at(
    records: &Records,
    objects: &[Object],
    addressed: bool,
    element: &Ty,
    length: u64,
    a: Option<Address>,
    k: Option<i64>,
) -> Option<Address>
    ensures { option_map address_of result
        ≡ subscripted (declared_by records.now objects.now) addressed (array (type_of element.now) length) (option_map address_of a) k }
{
    match (a, k) {
        (Some(a), Some(k)) => {
            if !is_subscript(length, addressed, k) {
                return None;
            }
            moved(records, objects, Some(a), Some(k), size(records, element))
        }
        _ => None,
    }
}

/// An address whose byte lies in the object.
fn inside(records: &Records, objects: &[Object], a: Option<Address>) -> Option<Address>
    ensures { option_map address_of result ≡ inside (declared_by records.now objects.now) (option_map address_of a) }
{
    match a {
        None => None,
        Some(a) => {
            if u64::from(a.offset) < object_size(records, objects, a.object) {
                Some(a)
            } else {
                None
            }
        }
    }
}

/// The address of a field that begins so many bytes further on, where its first byte lies in the object.
pub fn field_at(
    records: &Records,
    objects: &[Object],
    a: Option<Address>,
    offset: u32,
) -> Option<Address>
    ensures { let d = declared_by records.now objects.now in
        option_map address_of result ≡ inside d (moved d (option_map address_of a) (Some (pos offset)) 1) }
{
    let a = moved(records, objects, a, Some(i64::from(offset)), 1);
    inside(records, objects, a)
}
