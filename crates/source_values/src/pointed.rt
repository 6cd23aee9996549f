//! What types of pointers point to.

ghost use Rattle.std.specs.Prelude.{◌≡◌};
ghost use Rattle.std.specs.Option.{option_copied};
ghost use Rattle.c_types.specs.Sameness.{same_type};
ghost use Rattle.c_types.specs.Types.{void, pointer as pointer_to};
ghost use Rattle.c_types.specs.Views.{type_of};
ghost use Rattle.c_typed.specs.Programs.{program_data};
ghost use Rattle.c_meaning.specs.Program.{type_at};
ghost use Rattle.source_values.specs.Rows.{type_if_any};

use c_typed::Typed;
use c_types::{Ty, same};

/// The type with that number, where there is one.
#[tactic(auto, using(crate::proofs::Past::type_found))]
fn type_at<'a>(typed: &'a Typed, number: usize) -> Option<&'a Ty>
    ensures { type_if_any (option_copied result) ≡ type_at (program_data typed.now) number }
{
    typed.types.get(number)
}

fn is_void(t: &Ty) -> bool
    ensures { result ≡ same_type (type_of t.now) void }
{
    match t {
        Ty::Void => true,
        Ty::Int(_) | Ty::Pointer(_) | Ty::Array(_, _) | Ty::Function(_, _) | Ty::Record(_) => false,
    }
}

/// Whether a type is the one with that number.
fn is_type(typed: &Typed, t: &Ty, number: usize) -> bool
    ensures { result ≡ same_type (type_of t.now) (type_at (program_data typed.now) number) }
{
    match type_at(typed, number) {
        Some(other) => same(t, other),
        None => is_void(t),
    }
}

/// Whether a type is that of pointers to the type with that number.
fn is_pointer_to(typed: &Typed, t: &Ty, number: usize) -> bool
    ensures { result ≡ same_type (type_of t.now) (pointer_to (type_at (program_data typed.now) number)) }
{
    match t {
        Ty::Pointer(to) => is_type(typed, to.get(), number),
        Ty::Void | Ty::Int(_) | Ty::Array(_, _) | Ty::Function(_, _) | Ty::Record(_) => false,
    }
}

/// Whether the type with a number points to the type with another.
pub fn points_to(typed: &Typed, pointer: usize, to: usize) -> bool
    ensures { result ≡ same_type (type_at (program_data typed.now) pointer) (pointer_to (type_at (program_data typed.now) to)) }
{
    match type_at(typed, pointer) {
        Some(t) => is_pointer_to(typed, t, to),
        None => false,
    }
}
