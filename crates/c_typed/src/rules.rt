//! What each operator asks of the types of its operands, and what it makes of them. None is answered where a rule is broken. `null`
//! tells that an operand is a null pointer constant (C99 6.3.2.3), and `count` records are complete.

ghost use Rattle.std.specs.Prelude.{◌≡◌};
ghost use Rattle.std.specs.Option.{option_map};
ghost use Rattle.c_types.specs.Types.{integer};
ghost use Rattle.c_types.specs.Views.{type_of};
ghost use Rattle.c_typed.specs.AnswerViews.{common_type, operand_types};
ghost use Rattle.c_typed.specs.Rules.{arithmetic, choosing, comparing, differing, is_move, is_shift, is_stepped, moving, on_numbers};
ghost use Rattle.c_typed.specs.Rules.{points_to_object, promoting, updating};

use crate::conversions::{common_kind, is_integer, promoted_kind};
use crate::fits::{Met, compared, meeting};
use crate::operators::{BinaryOp, CompareOp};
use c_types::{IntKind, Ty, is_object, same};

/// The integer types to which the operands of a binary operator are converted. The result has the left one.
#[derive(Clone, Copy)]
pub struct OperandKinds {
    pub left: IntKind,
    pub right: IntKind,
}

/// The type to which two operands are converted.
#[derive(Clone, Copy)]
pub enum CommonType {
    /// An integer type.
    Number(IntKind),
    /// Both are `void`.
    Void,
    /// A pointer type.
    Pointer(Met),
}

/// The promoted type of a number (C99 6.5.3.3); none of what is no number.
pub fn promoting(t: &Ty) -> Option<IntKind>
    ensures { option_map integer result ≡ promoting (type_of t.now) }
{
    match t {
        Ty::Int(kind) => Some(promoted_kind(*kind)),
        _ => None,
    }
}

/// The common type of two numbers (C99 6.3.1.8); none where one is no number.
pub fn arithmetic(s: &Ty, t: &Ty) -> Option<IntKind>
    ensures { option_map integer result ≡ arithmetic (type_of s.now) (type_of t.now) }
{
    match (s, t) {
        (Ty::Int(k), Ty::Int(l)) => Some(common_kind(*k, *l)),
        _ => None,
    }
}

/// Whether an operator is a shift (C99 6.5.7).
pub fn is_shift(op: BinaryOp) -> bool
    ensures { result ≡ is_shift op }
{
    matches!(op, BinaryOp::ShiftLeft | BinaryOp::ShiftRight)
}

/// The types to which the operands of a binary operator on numbers are converted (C99 6.5.5 to 6.5.7, 6.5.10 to 6.5.12): those of a
/// shift are promoted each for itself. None where one is no number.
pub fn on_numbers(op: BinaryOp, s: &Ty, t: &Ty) -> Option<OperandKinds>
    ensures { option_map operand_types result ≡ on_numbers op (type_of s.now) (type_of t.now) }
{
    if is_shift(op) {
        let left = promoting(s)?;
        let right = promoting(t)?;
        Some(OperandKinds { left, right })
    } else {
        let kind = arithmetic(s, t)?;
        Some(OperandKinds {
            left: kind,
            right: kind,
        })
    }
}

/// The type to which the operands of a comparison are converted (C99 6.5.8, 6.5.9), where they may be compared. It is never
/// `CommonType::Void`.
pub fn comparing(op: CompareOp, s: &Ty, s_null: bool, t: &Ty, t_null: bool) -> Option<CommonType>
    ensures { option_map (common_type (type_of s.now) (type_of t.now)) result ≡ comparing op (type_of s.now) s_null (type_of t.now) t_null }
{
    match arithmetic(s, t) {
        Some(kind) => Some(CommonType::Number(kind)),
        None => match compared(op, s, s_null, t, t_null) {
            Some(met) => Some(CommonType::Pointer(met)),
            None => None,
        },
    }
}

/// The type of the second and third operand of `?:` and of the result (C99 6.5.15), where there is one. Records are no operands.
pub fn choosing(s: &Ty, s_null: bool, t: &Ty, t_null: bool) -> Option<CommonType>
    ensures { option_map (common_type (type_of s.now) (type_of t.now)) result ≡ choosing (type_of s.now) s_null (type_of t.now) t_null }
{
    match (s, t) {
        (Ty::Int(k), Ty::Int(l)) => Some(CommonType::Number(common_kind(*k, *l))),
        (Ty::Void, Ty::Void) => Some(CommonType::Void),
        _ => match meeting(s, s_null, t, t_null) {
            Some(met) => Some(CommonType::Pointer(met)),
            None => None,
        },
    }
}

/// Whether a type is a pointer to an object of complete type (C99 6.5.6).
pub fn points_to_object(count: usize, t: &Ty) -> bool
    ensures { result ≡ points_to_object count (type_of t.now) }
{
    match t {
        Ty::Pointer(to) => is_object(count, to.get()),
        _ => false,
    }
}

/// The type to which the number is converted in the sum or difference of a pointer and a number (C99 6.5.6). The result has the
/// pointer's type.
pub fn moving(count: usize, pointer: &Ty, number: &Ty) -> Option<IntKind>
    ensures { option_map integer result ≡ moving count (type_of pointer.now) (type_of number.now) }
{
    if points_to_object(count, pointer) {
        promoting(number)
    } else {
        None
    }
}

/// Whether there is a difference of two pointers (C99 6.5.6): they are of one type, to objects.
pub fn differing(count: usize, s: &Ty, t: &Ty) -> bool
    ensures { result ≡ differing count (type_of s.now) (type_of t.now) }
{
    points_to_object(count, s) && same(s, t)
}

/// Whether an operator is `+` or `-`.
pub fn is_move(op: BinaryOp) -> bool
    ensures { result ≡ is_move op }
{
    matches!(op, BinaryOp::Add | BinaryOp::Subtract)
}

/// The type to which the right operand of a compound assignment is converted (C99 6.5.16.2): the common type, or for shifts and moves
/// of a pointer its promoted one.
pub fn updating(count: usize, op: BinaryOp, to: &Ty, value: &Ty) -> Option<IntKind>
    ensures { option_map integer result ≡ updating count op (type_of to.now) (type_of value.now) }
{
    match to {
        Ty::Int(_) => {
            if is_shift(op) {
                promoting(value)
            } else {
                arithmetic(to, value)
            }
        }
        _ => {
            if is_move(op) {
                moving(count, to, value)
            } else {
                None
            }
        }
    }
}

/// Whether an object of a type may be stepped by `++` and `--` (C99 6.5.2.4, 6.5.3.1).
pub fn is_stepped(count: usize, t: &Ty) -> bool
    ensures { result ≡ is_stepped count (type_of t.now) }
{
    is_integer(t) || points_to_object(count, t)
}
