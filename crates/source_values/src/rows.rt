//! The rows of all types of a program.

ghost use Rattle.std.specs.Prelude.{◌≡◌, IfOk, slice_get};
ghost use Rattle.c_types.specs.Types.{void};
ghost use Rattle.c_types.specs.Views.{type_of};
ghost use Rattle.c_typed.specs.Constants.{kind_of};
ghost use Rattle.c_typed.specs.Programs.{ProgramData, program_data};
ghost use Rattle.c_meaning.specs.Program.{access_of};
ghost use Rattle.source_values.specs.Rows.{AreRows, IsSmall, TypesAreSmall, row_for};
ghost use Rattle.source_values.specs.Sorts.{sort_of};

use crate::row::{Sort, TypeRow};
use crate::sizes::{element_size, length, size};
use block_memory::Access;
use c_typed::Typed;
use c_types::{IntKind, Ty};
use lay_base::{NoMemory, push};
use std::alloc::Global;

fn sort(t: &Ty) -> Sort
    ensures { result ≡ sort_of (type_of t.now) }
{
    match t {
        Ty::Void => Sort::Void,
        Ty::Int(kind) => Sort::Number(*kind),
        Ty::Pointer(_) => Sort::Pointer,
        _ => Sort::Other,
    }
}

fn access(t: &Ty, number: usize) -> Access
    ensures { result ≡ access_of (type_of t.now) number }
{
    match t {
        Ty::Int(kind) => Access::Number(*kind),
        _ => Access::Pointer(number),
    }
}

fn kind(t: &Ty) -> IntKind
    ensures { result ≡ kind_of (type_of t.now) }
{
    match t {
        Ty::Int(kind) => *kind,
        _ => IntKind::Int,
    }
}

/// What is kept of a type with that number.
fn row_for(typed: &Typed, t: &Ty, index: usize) -> TypeRow
    requires { IsSmall (row_for (program_data typed.now) (type_of t.now) index) }
    ensures { result ≡ row_for (program_data typed.now) (type_of t.now) index }
{
    TypeRow {
        sort: sort(t),
        access: access(t, index),
        size: size(&typed.records, t) as u32,
        element: element_size(typed, t) as u32,
        length: length(t) as u32,
        kind: kind(t),
    }
}

/// The rows of all types.
pub fn rows(alloc: Global, typed: &Typed) -> Result<Vec<TypeRow>, NoMemory>
    requires { TypesAreSmall (program_data typed.now) }
    ensures { IfOk result (λ rows. AreRows (program_data typed.now) rows.items) }
{
    let mut rows = Vec::new(alloc);
    for (index, t) in typed.types.as_slice().iter().enumerate() {
        let row = row_for(typed, t, index);
        push(&mut rows, row)?;
    }
    Ok(rows)
}

#[inline(always)]
pub fn row_at(rows: &[TypeRow], number: usize) -> Option<TypeRow>
    ensures { result ≡ slice_get rows.now number }
{
    rows.get(number).copied()
}

/// What is kept of `void` with that number.
#[inline(always)]
pub fn row_of_void(number: usize) -> TypeRow
    ensures { (p : ProgramData) → result ≡ row_for p void number }
{
    TypeRow {
        sort: Sort::Void,
        access: Access::Pointer(number),
        size: 0,
        element: 0,
        length: 0,
        kind: IntKind::Int,
    }
}
