//! What operators make of numbers. A number is kept as the 32 bits that stand for it in two's complement.

ghost use Rattle.std.specs.Prelude.{◌≡◌};
ghost use Rattle.lay_base.specs.Operators.{shifted_left, shifted_right};
ghost use Rattle.c_typed.specs.Arithmetic.{binary_value, divided, holds, is_less, remaining, unary_value};
ghost use Rattle.c_typed.specs.Conversions.{number_of};

use crate::conversions::is_signed;
use crate::operators::{BinaryOp, CompareOp, UnaryOp};
use c_types::IntKind;
use lay_base::{divide, remain, shift_left, shift_right};

/// The value of a unary operator on a promoted number (C99 6.5.3.3).
pub fn unary_value(op: UnaryOp, v: u32) -> u32
    ensures { result ≡ unary_value op v }
{
    match op {
        UnaryOp::Plus => v,
        UnaryOp::Minus => v.wrapping_neg(),
        UnaryOp::Complement => !v,
    }
}

/// The quotient (C99 6.5.5), none by zero and where a signed one is no `int`.
fn divided(signed: bool, v: u32, w: u32) -> Option<u32>
    ensures { result ≡ divided signed v w }
{
    if signed {
        let quotient = divide(v.cast_signed(), w.cast_signed())?;
        Some(quotient.cast_unsigned())
    } else {
        v.checked_div(w)
    }
}

/// The remainder (C99 6.5.5), none by zero and where the signed quotient is no `int`.
fn remaining(signed: bool, v: u32, w: u32) -> Option<u32>
    ensures { result ≡ remaining signed v w }
{
    if signed {
        let rest = remain(v.cast_signed(), w.cast_signed())?;
        Some(rest.cast_unsigned())
    } else {
        v.checked_rem(w)
    }
}

/// `v << w` (C99 6.5.7), where `w` is of the kind `right`; none where it is negative or at least 32.
fn shifted_left(v: u32, right: IntKind, w: u32) -> Option<u32>
    ensures { result ≡ shifted_left v (number_of right w) }
{
    if is_signed(right) {
        shift_left(v, w.cast_signed())
    } else {
        let amount = i32::try_from(w).ok()?;
        shift_left(v, amount)
    }
}

/// `v >> w` (C99 6.5.7), where `w` is of the kind `right`, and `signed` says whether `v` is a signed number; none where `w` is negative
/// or at least 32.
fn shifted_right(v: u32, signed: bool, right: IntKind, w: u32) -> Option<u32>
    ensures { result ≡ shifted_right v (number_of right w) signed }
{
    if is_signed(right) {
        shift_right(v, w.cast_signed(), signed)
    } else {
        let amount = i32::try_from(w).ok()?;
        shift_right(v, amount, signed)
    }
}

/// The value of a binary operator on numbers (C99 6.5.5 to 6.5.7, 6.5.10 to 6.5.12), both of the kind `kind`, except that the right
/// operand of a shift is of the kind `right`. None where it is undefined: division by zero, a signed quotient that is no `int`, a shift
/// by less than 0 or at least 32.
pub fn binary_value(op: BinaryOp, kind: IntKind, v: u32, right: IntKind, w: u32) -> Option<u32>
    ensures { result ≡ binary_value op kind v right w }
{
    match op {
        BinaryOp::Multiply => Some(v.wrapping_mul(w)),
        BinaryOp::Divide => divided(is_signed(kind), v, w),
        BinaryOp::Remainder => remaining(is_signed(kind), v, w),
        BinaryOp::Add => Some(v.wrapping_add(w)),
        BinaryOp::Subtract => Some(v.wrapping_sub(w)),
        BinaryOp::ShiftLeft => shifted_left(v, right, w),
        BinaryOp::ShiftRight => shifted_right(v, is_signed(kind), right, w),
        BinaryOp::BitAnd => Some(v & w),
        BinaryOp::BitXor => Some(v ^ w),
        BinaryOp::BitOr => Some(v | w),
    }
}

/// `v < w` of numbers of one kind (C99 6.5.8).
fn is_less(kind: IntKind, v: u32, w: u32) -> bool
    ensures { result ≡ is_less kind v w }
{
    if is_signed(kind) {
        v.cast_signed() < w.cast_signed()
    } else {
        v < w
    }
}

/// Whether a comparison holds of numbers of one kind (C99 6.5.8, 6.5.9).
pub fn holds(op: CompareOp, kind: IntKind, v: u32, w: u32) -> bool
    ensures { result ≡ holds op kind v w }
{
    match op {
        CompareOp::Equal => v == w,
        CompareOp::NotEqual => v != w,
        CompareOp::Less => is_less(kind, v, w),
        CompareOp::Greater => is_less(kind, w, v),
        CompareOp::LessEqual => !is_less(kind, w, v),
        CompareOp::GreaterEqual => !is_less(kind, v, w),
    }
}
