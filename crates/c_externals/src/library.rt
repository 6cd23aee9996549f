//! The types of the functions of the library (C99 7.19.7, 7.20.3, 7.20.4, 7.21).

ghost use Rattle.std.specs.Prelude.{◌≡◌, map};
ghost use Rattle.c_types.specs.Sameness.{same_type, same_types};
ghost use Rattle.c_types.specs.Types.{function, integer, pointer, void};
ghost use Rattle.c_types.specs.Views.{listed, type_of, types_of};
ghost use Rattle.c_types.specs.declared.ty.IntKind.TheVariants.{Int, UInt};
ghost use Rattle.c_typed.specs.Fits.{library_type};
ghost use Rattle.c_externals.specs.Signatures.{simple_type};

use c_typed::LibraryFunction;
use c_types::{IntKind, Ty};

/// A type in the signatures of the library.
#[derive(Clone, Copy)]
pub enum Simple {
    Void,
    Int,
    /// An `unsigned int`, which counts bytes.
    Size,
    /// A pointer to `void`.
    Bytes,
}

fn is_void(t: &Ty) -> bool
    ensures { result ≡ same_type (type_of t.now) void }
{
    matches!(t, Ty::Void)
}

fn is_int(t: &Ty) -> bool
    ensures { result ≡ same_type (type_of t.now) (integer Int) }
{
    matches!(t, Ty::Int(IntKind::Int))
}

fn is_size(t: &Ty) -> bool
    ensures { result ≡ same_type (type_of t.now) (integer UInt) }
{
    matches!(t, Ty::Int(IntKind::UInt))
}

fn is_void_pointer(t: &Ty) -> bool
    ensures { result ≡ same_type (type_of t.now) (pointer void) }
{
    match t {
        Ty::Pointer(to) => is_void(to.get()),
        _ => false,
    }
}

fn is_simple(t: &Ty, s: Simple) -> bool
    ensures { result ≡ same_type (type_of t.now) (simple_type s) }
{
    match s {
        Simple::Void => is_void(t),
        Simple::Int => is_int(t),
        Simple::Size => is_size(t),
        Simple::Bytes => is_void_pointer(t),
    }
}

fn are_simple(all: &[Ty], wanted: &[Simple]) -> bool
    ensures { result ≡ same_types (types_of all.now) (listed (map simple_type wanted.now)) }
{
    if all.len() != wanted.len() {
        return false;
    }
    for (index, t) in all.iter().enumerate() {
        if !is_simple(t, wanted[index]) {
            return false;
        }
    }
    true
}

/// Whether a type is that of a function which gives that result and takes those parameters.
pub fn is_signature(t: &Ty, returned: Simple, wanted: &[Simple]) -> bool
    ensures { result ≡ same_type (type_of t.now) (function (simple_type returned) (listed (map simple_type wanted.now))) }
{
    match t {
        Ty::Function(result, parameters) => {
            is_simple(result.get(), returned) && are_simple(parameters.get().as_slice(), wanted)
        }
        _ => false,
    }
}

/// Whether a type is that of a function of the library.
pub fn is_library_type(t: &Ty, which: LibraryFunction) -> bool
    ensures { result ≡ same_type (type_of t.now) (library_type which) }
{
    match which {
        LibraryFunction::Malloc => is_signature(t, Simple::Bytes, &[Simple::Size]),
        LibraryFunction::Calloc => is_signature(t, Simple::Bytes, &[Simple::Size, Simple::Size]),
        LibraryFunction::Free => is_signature(t, Simple::Void, &[Simple::Bytes]),
        LibraryFunction::Memcpy | LibraryFunction::Memmove => is_signature(
            t,
            Simple::Bytes,
            &[Simple::Bytes, Simple::Bytes, Simple::Size],
        ),
        LibraryFunction::Memset => is_signature(
            t,
            Simple::Bytes,
            &[Simple::Bytes, Simple::Int, Simple::Size],
        ),
        LibraryFunction::Memcmp => is_signature(
            t,
            Simple::Int,
            &[Simple::Bytes, Simple::Bytes, Simple::Size],
        ),
        LibraryFunction::Putchar => is_signature(t, Simple::Int, &[Simple::Int]),
        LibraryFunction::Getchar => is_signature(t, Simple::Int, &[]),
        LibraryFunction::Exit => is_signature(t, Simple::Void, &[Simple::Int]),
    }
}
