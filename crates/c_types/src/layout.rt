//! Sizes and alignments of types, and where the fields of a record lie.

ghost use Rattle.std.specs.Prelude.{◌≡◌, ◌≤◌, ◌<◌, ◌*◌, ℕ, IsTrue, length};
ghost use Rattle.c_types.specs.Layouts.{alignment_in, layout_at, size_in};
ghost use Rattle.c_types.specs.Limits.{greatest_size, size_if_small};
ghost use Rattle.c_types.specs.Objects.{is_object};
ghost use Rattle.c_types.specs.Views.{type_of};

use crate::kinds::width;
use crate::ty::Ty;
use lay_base::List;

/// The greatest size of a type, in bytes.
pub const GREATEST_SIZE: u64 = 16_777_216;

/// Where the fields of a record begin, the size of the record and its alignment, in bytes.
#[derive(Drop)]
pub struct Layout {
    pub offsets: List<u32>,
    pub size: u32,
    pub alignment: u32,
}

/// The layout of the record with that number.
#[tactic(auto, using(crate::proofs::Lists::layout_at_place))]
pub fn layout_at(known: &[Layout], number: usize) -> &Layout
    requires { number < length known.now }
    ensures { result.now ≡ layout_at known.now number }
{
    &known[number]
}

/// The alignment of an object type, by the layouts of the records.
pub fn alignment_in(known: &[Layout], t: &Ty) -> u32
    requires { IsTrue (is_object (length known.now) (type_of t.now)) }
    ensures { result ≡ alignment_in known.now (type_of t.now) }
{
    match t {
        Ty::Void | Ty::Function(_, _) => 1,
        Ty::Int(kind) => width(*kind),
        Ty::Pointer(_) => 4,
        Ty::Array(element, _) => alignment_in(known, element.get()),
        Ty::Record(number) => layout_at(known, *number).alignment,
    }
}

/// The size of an object type, by the layouts of the records.
pub fn size_in(known: &[Layout], t: &Ty) -> u32
    requires object { IsTrue (is_object (length known.now) (type_of t.now)) }
    requires bounded { size_in known.now (type_of t.now) ≤ greatest_size }
    ensures { result ≡ size_in known.now (type_of t.now) }
{
    match t {
        Ty::Void | Ty::Function(_, _) => 0,
        Ty::Int(kind) => width(*kind),
        Ty::Pointer(_) => 4,
        Ty::Array(element, length) => {
            (u64::from(size_in(known, element.get())) * *length) as u32
        }
        Ty::Record(number) => layout_at(known, *number).size,
    }
}

/// A size, or `None` where it passes the greatest.
fn size_if_small(size: u128) -> Option<u32>
    ensures { result ≡ size_if_small size }
{
    if size <= u128::from(GREATEST_SIZE) {
        Some(size as u32)
    } else {
        None
    }
}

/// The size of an array, from that of its element.
#[tactic(auto, using(crate::proofs::Checked::none_of_more))]
fn array_size(element: Option<u32>, length: u64) -> Option<u32>
    requires { 0 < length }
    ensures { (size : ℕ) → element ≡ size_if_small size → result ≡ size_if_small (size * length) }
{
    match element {
        Some(size) => size_if_small(u128::from(size) * u128::from(length)),
        None => None,
    }
}

/// The size of an object type by the layouts of the records, or `None` where it passes the greatest.
pub fn checked_size_in(known: &[Layout], t: &Ty) -> Option<u32>
    requires { IsTrue (is_object (length known.now) (type_of t.now)) }
    ensures { result ≡ size_if_small (size_in known.now (type_of t.now)) }
{
    match t {
        Ty::Void | Ty::Function(_, _) => Some(0),
        Ty::Int(kind) => Some(width(*kind)),
        Ty::Pointer(_) => Some(4),
        Ty::Array(element, length) => array_size(checked_size_in(known, element.get()), *length),
        Ty::Record(number) => size_if_small(u128::from(layout_at(known, *number).size)),
    }
}
