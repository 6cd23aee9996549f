//! Sorts of types, and what conversions make of types and values.

ghost use Rattle.std.specs.Prelude.{◌≡◌, IfOk, IsTrue, OnErr};
ghost use Rattle.c_types.specs.Views.{type_of};
ghost use Rattle.c_typed.specs.Conversions.{adjusted, as_kind, common_kind, common_promoted, is_signed, promoted_kind, sign_extended};
ghost use Rattle.c_typed.specs.Conversions.{is_array, is_function, is_integer, is_pointer, is_record, is_scalar};

use c_types::{IntKind, Ty};
use lay_base::{NoMemory, shared};
use std::alloc::Global;

/// Whether a type is an integer type (C99 6.2.5).
pub fn is_integer(t: &Ty) -> bool
    ensures { result ≡ is_integer (type_of t.now) }
{
    matches!(t, Ty::Int(_))
}

/// Whether a type is a pointer type (C99 6.2.5).
pub fn is_pointer(t: &Ty) -> bool
    ensures { result ≡ is_pointer (type_of t.now) }
{
    matches!(t, Ty::Pointer(_))
}

/// Whether a type is scalar: an integer type or a pointer type (C99 6.2.5).
pub fn is_scalar(t: &Ty) -> bool
    ensures { result ≡ is_scalar (type_of t.now) }
{
    matches!(t, Ty::Int(_) | Ty::Pointer(_))
}

/// Whether a type is a structure type (C99 6.2.5).
pub fn is_record(t: &Ty) -> bool
    ensures { result ≡ is_record (type_of t.now) }
{
    matches!(t, Ty::Record(_))
}

/// Whether a type is an array type (C99 6.2.5).
pub fn is_array(t: &Ty) -> bool
    ensures { result ≡ is_array (type_of t.now) }
{
    matches!(t, Ty::Array(_, _))
}

/// Whether a type is a function type (C99 6.2.5).
pub fn is_function(t: &Ty) -> bool
    ensures { result ≡ is_function (type_of t.now) }
{
    matches!(t, Ty::Function(_, _))
}

/// The integer promotions (C99 6.3.1.1): every integer type narrower than `int` promotes to it.
pub fn promoted_kind(kind: IntKind) -> IntKind
    ensures { result ≡ promoted_kind kind }
{
    match kind {
        IntKind::UInt | IntKind::Long | IntKind::ULong => kind,
        _ => IntKind::Int,
    }
}

/// The common type of two promoted types (C99 6.3.1.8). `long` cannot hold every `unsigned`, so of these two it is `unsigned long`.
fn common_promoted(k: IntKind, l: IntKind) -> IntKind
    ensures { result ≡ common_promoted k l }
{
    match (k, l) {
        (IntKind::ULong, _) | (_, IntKind::ULong) => IntKind::ULong,
        (IntKind::Long, IntKind::UInt) | (IntKind::UInt, IntKind::Long) => IntKind::ULong,
        (IntKind::Long, _) | (_, IntKind::Long) => IntKind::Long,
        (IntKind::UInt, _) | (_, IntKind::UInt) => IntKind::UInt,
        _ => IntKind::Int,
    }
}

/// The common type of two integer types: the usual arithmetic conversions (C99 6.3.1.8).
pub fn common_kind(k: IntKind, l: IntKind) -> IntKind
    ensures { result ≡ common_kind k l }
{
    common_promoted(promoted_kind(k), promoted_kind(l))
}

/// Whether an integer type is signed (C99 6.2.5).
pub fn is_signed(kind: IntKind) -> bool
    ensures { result ≡ is_signed kind }
{
    match kind {
        IntKind::SChar | IntKind::Short | IntKind::Int | IntKind::Long => true,
        _ => false,
    }
}

/// The number that the low 8 bits stand for in two's complement, as 32 bits.
fn from_signed_char(v: u32) -> u32
    ensures { result ≡ sign_extended 8 v }
{
    let low = v % 0x100;
    if low < 0x80 { low } else { low + 0xFFFF_FF00 }
}

/// The number that the low 16 bits stand for in two's complement, as 32 bits.
fn from_short(v: u32) -> u32
    ensures { result ≡ sign_extended 16 v }
{
    let low = v % 0x1_0000;
    if low < 0x8000 { low } else { low + 0xFFFF_0000 }
}

/// A number, given and answered as the 32 bits that stand for it in two's complement, converted to an integer type (C99 6.3.1.3): its
/// value is kept modulo 2 to the power of the type's width.
pub fn as_kind(kind: IntKind, v: u32) -> u32
    ensures { result ≡ as_kind kind v }
{
    match kind {
        IntKind::Char | IntKind::UChar => v % 0x100,
        IntKind::SChar => from_signed_char(v),
        IntKind::Short => from_short(v),
        IntKind::UShort => v % 0x1_0000,
        IntKind::Int | IntKind::UInt | IntKind::Long | IntKind::ULong => v,
    }
}

/// What a type becomes as that of a value or a parameter (C99 6.3.2.1, 6.7.5.3): an array becomes a pointer to its first element, and
/// a function a pointer to it. `NoMemory` comes for functions alone.
pub fn adjusted(alloc: Global, t: Ty) -> Result<Ty, NoMemory>
    ensures value { IfOk result (λ it. type_of it ≡ adjusted (type_of t)) }
    ensures refusal { OnErr result (IsTrue (is_function (type_of t))) }
{
    match t {
        Ty::Array(element, _) => Ok(Ty::Pointer(element)),
        Ty::Function(result, parameters) => Ok(Ty::Pointer(shared(
            alloc,
            Ty::Function(result, parameters),
        )?)),
        other => Ok(other),
    }
}
