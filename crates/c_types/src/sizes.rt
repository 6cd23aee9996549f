//! Sizes, alignments and offsets over a list of records, in bytes.

ghost use Rattle.std.specs.Prelude.{◌≡◌, ◌≤◌, ◌<◌, IsSomeAnd, IsTrue, length, slice_get};
ghost use Rattle.c_types.specs.Layouts.{align_of, offset_of, size_of};
ghost use Rattle.c_types.specs.Limits.{greatest_size, size_if_small};
ghost use Rattle.c_types.specs.Objects.{is_object};
ghost use Rattle.c_types.specs.Views.{records_of, type_of};

use crate::layout::{alignment_in, checked_size_in, layout_at, size_in};
use crate::records::Records;
use crate::ty::Ty;

/// The size of an object type (C99 6.5.3.4), in bytes, where it is at most 16,777,216.
pub fn size_of(r: &Records, t: &Ty) -> u32
    requires object { IsTrue (is_object (length r.now) (type_of t.now)) }
    requires bounded { size_of (records_of r.now) (type_of t.now) ≤ greatest_size }
    ensures { result ≡ size_of (records_of r.now) (type_of t.now) }
{
    size_in(r.layouts(), t)
}

/// The size of an object type, or `None` where it passes 16,777,216 bytes.
pub fn checked_size_of(r: &Records, t: &Ty) -> Option<u32>
    requires { IsTrue (is_object (length r.now) (type_of t.now)) }
    ensures { result ≡ size_if_small (size_of (records_of r.now) (type_of t.now)) }
{
    checked_size_in(r.layouts(), t)
}

/// The alignment of an object type (C99 3.2), in bytes: 1, 2 or 4.
pub fn align_of(r: &Records, t: &Ty) -> u32
    requires { IsTrue (is_object (length r.now) (type_of t.now)) }
    ensures { result ≡ align_of (records_of r.now) (type_of t.now) }
{
    alignment_in(r.layouts(), t)
}

/// Where a field of a record begins (C99 6.7.2.1), in bytes from the start of the record. Both have
/// their numbers, which are counted from 0.
pub fn offset_of(r: &Records, number: usize, field: usize) -> u32
    requires { IsSomeAnd (slice_get r.now number) (λ it. field < length it.fields) }
    ensures { result ≡ offset_of (records_of r.now) number field }
{
    layout_at(r.layouts(), number).offsets.as_slice()[field]
}
