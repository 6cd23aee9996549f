//! Which types fit where. `null` tells that an operand is a null pointer constant (C99 6.3.2.3).

ghost use Rattle.std.specs.Prelude.{◌≡◌};
ghost use Rattle.std.specs.Option.{option_map};
ghost use Rattle.c_types.specs.Types.{pointer};
ghost use Rattle.c_types.specs.Views.{type_of};
ghost use Rattle.c_typed.specs.AnswerViews.{met_type};
ghost use Rattle.c_typed.specs.Fits.{assigns, casts, compared, is_void, is_void_and_object, meeting, met, ordered};

use crate::conversions::is_function;
use crate::operators::CompareOp;
use c_types::{Ty, same};

/// The type to which two operands are converted that are pointers, or a pointer and a null pointer constant (C99 6.5.8, 6.5.9, 6.5.15).
#[derive(Clone, Copy)]
pub enum Met {
    /// That of the left operand.
    Left,
    /// That of the right operand.
    Right,
    /// `void *`.
    VoidPointer,
}

/// Whether a type is `void` (C99 6.2.5).
pub fn is_void(t: &Ty) -> bool
    ensures { result ≡ is_void (type_of t.now) }
{
    matches!(t, Ty::Void)
}

/// Of what two pointers point to: whether one is `void`, and the other no function (C99 6.3.2.3).
fn is_void_and_object(s: &Ty, t: &Ty) -> bool
    ensures { result ≡ is_void_and_object (type_of s.now) (type_of t.now) }
{
    (is_void(s) && !is_function(t)) || (is_void(t) && !is_function(s))
}

/// Whether a value of the type `from` may be assigned to `to`, or passed, returned or stored as one (C99 6.5.16.1).
pub fn assigns(from: &Ty, null: bool, to: &Ty) -> bool
    ensures { result ≡ assigns (type_of from.now) null (type_of to.now) }
{
    match (from, to) {
        (Ty::Int(_), Ty::Int(_)) => true,
        (Ty::Int(_), Ty::Pointer(_)) => null,
        (Ty::Pointer(s), Ty::Pointer(t)) => {
            null || same(s.get(), t.get()) || is_void_and_object(s.get(), t.get())
        }
        _ => false,
    }
}

/// Whether a value of the type `from` may be cast to `to` (C99 6.5.4). To `void` anything may.
pub fn casts(from: &Ty, null: bool, to: &Ty) -> bool
    ensures { result ≡ casts (type_of from.now) null (type_of to.now) }
{
    match (from, to) {
        (_, Ty::Void) => true,
        (Ty::Int(_), Ty::Int(_)) => true,
        (Ty::Int(_), Ty::Pointer(_)) => null,
        (Ty::Pointer(s), Ty::Pointer(t)) => null || is_function(s.get()) == is_function(t.get()),
        _ => false,
    }
}

/// To which type two pointers are converted, by what they point to; none where they do not fit.
fn pointers_met(s: &Ty, s_null: bool, t: &Ty, t_null: bool) -> Option<Met>
    ensures { option_map (met_type (pointer (type_of s.now)) (pointer (type_of t.now))) result ≡ met (type_of s.now) s_null (type_of t.now) t_null }
{
    if same(s, t) {
        Some(Met::Left)
    } else if s_null {
        Some(Met::Right)
    } else if t_null {
        Some(Met::Left)
    } else if is_void_and_object(s, t) {
        Some(Met::VoidPointer)
    } else {
        None
    }
}

/// To which type two operands of `==`, `!=` or `?:` are converted, of which one at least is a pointer (C99 6.5.9, 6.5.15): pointers of
/// one type, one of them `void *` and the other to an object, or one of them null. None where they do not fit.
pub fn meeting(s: &Ty, s_null: bool, t: &Ty, t_null: bool) -> Option<Met>
    ensures { option_map (met_type (type_of s.now) (type_of t.now)) result ≡ meeting (type_of s.now) s_null (type_of t.now) t_null }
{
    match (s, t) {
        (Ty::Pointer(s), Ty::Pointer(t)) => pointers_met(s.get(), s_null, t.get(), t_null),
        (Ty::Pointer(_), Ty::Int(_)) if t_null => Some(Met::Left),
        (Ty::Int(_), Ty::Pointer(_)) if s_null => Some(Met::Right),
        _ => None,
    }
}

/// To which type two pointers are converted in `<`, `>`, `<=` and `>=` (C99 6.5.8): they are of one type, and to no functions. None
/// where they do not fit.
pub fn ordered(s: &Ty, t: &Ty) -> Option<Met>
    ensures { option_map (met_type (type_of s.now) (type_of t.now)) result ≡ ordered (type_of s.now) (type_of t.now) }
{
    match (s, t) {
        (Ty::Pointer(s), Ty::Pointer(t)) if !is_function(s.get()) && same(s.get(), t.get()) => Some(
            Met::Left,
        ),
        _ => None,
    }
}

/// To which type two operands of a comparison are converted, of which one at least is a pointer (C99 6.5.8, 6.5.9); none where they do
/// not fit.
pub fn compared(op: CompareOp, s: &Ty, s_null: bool, t: &Ty, t_null: bool) -> Option<Met>
    ensures { option_map (met_type (type_of s.now) (type_of t.now)) result ≡ compared op (type_of s.now) s_null (type_of t.now) t_null }
{
    match op {
        CompareOp::Equal | CompareOp::NotEqual => meeting(s, s_null, t, t_null),
        _ => ordered(s, t),
    }
}
