//! What operators make of integer constants (C99 6.6).

ghost use Rattle.std.specs.Prelude.{◌≡◌};
ghost use Rattle.c_typed.specs.AnswerViews.{constant_view};
ghost use Rattle.c_typed.specs.Arithmetic.{binary_value, holds, truth};
ghost use Rattle.c_typed.specs.Constants.{chosen, converted_constant, decided_by, is_zero, kind_of, negated, of_value};
ghost use Rattle.c_typed.specs.Constants.{unary_constant, valued, with_both};
ghost use Rattle.c_typed.specs.TypeNumbers.{is_void_pointer};
ghost use Rattle.c_types.specs.Views.{type_of};

use crate::conversions::as_kind;
use crate::fits::is_void;
use crate::operators::{BinaryOp, CompareOp, UnaryOp};
use crate::values::{binary_value, holds, unary_value};
use c_types::{IntKind, Ty};

/// What an expression is as an integer constant expression (C99 6.6).
#[derive(Clone, Copy)]
pub enum Constant {
    /// It is none.
    None,
    /// It is one, and has no value, as a division by zero.
    Undefined,
    /// Its value, as the 32 bits that stand for it in two's complement.
    Valued(u32),
}

/// The constant of a value that may be undefined.
fn of_value(value: Option<u32>) -> Constant
    ensures { constant_view result ≡ of_value value }
{
    match value {
        None => Constant::Undefined,
        Some(v) => Constant::Valued(v),
    }
}

/// 0 or 1, as an `int`.
fn truth(test: bool) -> Constant
    ensures { constant_view result ≡ valued (truth test) }
{
    Constant::Valued(u32::from(test))
}

/// Whether it is a constant of value 0.
pub fn is_zero(c: Constant) -> bool
    ensures { result ≡ is_zero (constant_view c) }
{
    match c {
        Constant::Valued(v) => v == 0,
        _ => false,
    }
}

/// The value of a unary operator on a constant (C99 6.5.3.3).
pub fn unary_constant(op: UnaryOp, c: Constant) -> Constant
    ensures { constant_view result ≡ unary_constant op (constant_view c) }
{
    match c {
        Constant::Valued(v) => Constant::Valued(unary_value(op, v)),
        _ => c,
    }
}

/// The value of `!` on a constant (C99 6.5.3.3).
pub fn negated(c: Constant) -> Constant
    ensures { constant_view result ≡ negated (constant_view c) }
{
    match c {
        Constant::Valued(v) => truth(v == 0),
        _ => c,
    }
}

/// The value of a binary operator on constants of those kinds (C99 6.5.5 to 6.5.7, 6.5.10 to 6.5.12).
pub fn binary_constant(
    op: BinaryOp,
    kind: IntKind,
    c: Constant,
    right: IntKind,
    d: Constant,
) -> Constant
    ensures { constant_view result ≡ with_both (constant_view c) (constant_view d) (λ v w. of_value (binary_value op kind v right w)) }
{
    match (c, d) {
        (Constant::None, _) | (_, Constant::None) => Constant::None,
        (Constant::Undefined, _) | (_, Constant::Undefined) => Constant::Undefined,
        (Constant::Valued(v), Constant::Valued(w)) => of_value(binary_value(op, kind, v, right, w)),
    }
}

/// Whether a comparison holds of constants of one kind (C99 6.5.8, 6.5.9).
pub fn compared_constants(op: CompareOp, kind: IntKind, c: Constant, d: Constant) -> Constant
    ensures { constant_view result ≡ with_both (constant_view c) (constant_view d) (λ v w. valued (truth (holds op kind v w))) }
{
    match (c, d) {
        (Constant::None, _) | (_, Constant::None) => Constant::None,
        (Constant::Undefined, _) | (_, Constant::Undefined) => Constant::Undefined,
        (Constant::Valued(v), Constant::Valued(w)) => truth(holds(op, kind, v, w)),
    }
}

/// The value of `||` where `deciding`, and of `&&` where not (C99 6.5.13, 6.5.14). The right operand is not evaluated where the left
/// one decides.
pub fn decided_by(deciding: bool, c: Constant, d: Constant) -> Constant
    ensures { constant_view result ≡ decided_by deciding (constant_view c) (constant_view d) }
{
    match (c, d) {
        (Constant::None, _) | (_, Constant::None) => Constant::None,
        (Constant::Undefined, _) => Constant::Undefined,
        (Constant::Valued(v), _) if (v != 0) == deciding => truth(deciding),
        (_, Constant::Undefined) => Constant::Undefined,
        (_, Constant::Valued(w)) => truth(w != 0),
    }
}

/// The value of `?:` (C99 6.5.15). What is not chosen is not evaluated.
pub fn chosen(c: Constant, d: Constant, e: Constant) -> Constant
    ensures { constant_view result ≡ chosen (constant_view c) (constant_view d) (constant_view e) }
{
    match (c, d, e) {
        (Constant::None, _, _) | (_, Constant::None, _) | (_, _, Constant::None) => Constant::None,
        (Constant::Undefined, _, _) => Constant::Undefined,
        (Constant::Valued(v), _, _) => { if v == 0 { e } else { d } }
    }
}

/// The kind of an integer type, and `int` of any other.
pub fn kind_of(t: &Ty) -> IntKind
    ensures { result ≡ kind_of (type_of t.now) }
{
    match t {
        Ty::Int(kind) => *kind,
        _ => IntKind::Int,
    }
}

/// A constant converted to a type (C99 6.3.1.3): it is none where that is no integer type.
pub fn converted_constant(t: &Ty, c: Constant) -> Constant
    ensures { constant_view result ≡ converted_constant (type_of t.now) (constant_view c) }
{
    match t {
        Ty::Int(kind) => match c {
            Constant::Valued(v) => Constant::Valued(as_kind(*kind, v)),
            _ => c,
        },
        _ => Constant::None,
    }
}

/// Whether a type is `void *`.
pub fn is_void_pointer(t: &Ty) -> bool
    ensures { result ≡ is_void_pointer (type_of t.now) }
{
    match t {
        Ty::Pointer(to) => is_void(to.get()),
        _ => false,
    }
}
