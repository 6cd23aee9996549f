//! Integer constant expressions (C99 6.6), and null pointer constants (6.3.2.3), among annotated expressions.

ghost use Rattle.std.specs.Prelude.{◌≡◌};
ghost use Rattle.std.specs.Option.{option_copied, option_map};
ghost use Rattle.c_typed.specs.AnswerViews.{constant_view};
ghost use Rattle.c_typed.specs.Constants.{constant_of as constant_in, is_null as null};
ghost use Rattle.c_typed.specs.TypeNumbers.{written_cast};
ghost use Rattle.c_erasure.specs.Erasure.{typed};
ghost use Rattle.c_annotated.specs.Views.{expression_of};

use crate::expression::{Expression, ExpressionNode};
use c_typed::constants::{
    binary_constant, chosen, compared_constants, converted_constant, decided_by, is_void_pointer,
    is_zero, kind_of, negated, unary_constant,
};
use c_typed::{Constant, is_integer};

/// What an expression is as an integer constant expression (C99 6.6).
pub fn constant_of(e: &Expression) -> Constant
    ensures { constant_view result ≡ constant_in (typed (expression_of e.now)) }
{
    match &e.node {
        ExpressionNode::Constant(v) => Constant::Valued(*v),
        ExpressionNode::Convert(x, _) => {
            // Of a conversion to any other type the operand is not asked, so that nested ones take linear time.
            if is_integer(&e.ty.ty) {
                converted_constant(&e.ty.ty, constant_of(x.get()))
            } else {
                Constant::None
            }
        }
        ExpressionNode::Unary(op, x) => unary_constant(*op, constant_of(x.get())),
        ExpressionNode::Binary(op, x, y) => {
            let left = constant_of(x.get());
            let right = constant_of(y.get());
            let right_kind = kind_of(&y.get().ty.ty);
            binary_constant(*op, kind_of(&e.ty.ty), left, right_kind, right)
        }
        ExpressionNode::Compare(op, x, y) => {
            let left = constant_of(x.get());
            let right = constant_of(y.get());
            compared_constants(*op, kind_of(&x.get().ty.ty), left, right)
        }
        ExpressionNode::And(x, y) => {
            decided_by(false, constant_of(x.get()), constant_of(y.get()))
        }
        ExpressionNode::Or(x, y) => decided_by(true, constant_of(x.get()), constant_of(y.get())),
        ExpressionNode::Not(x) => negated(constant_of(x.get())),
        ExpressionNode::Cond(x, y, z) => {
            let first = constant_of(x.get());
            let second = constant_of(y.get());
            chosen(first, second, constant_of(z.get()))
        }
        _ => Constant::None,
    }
}

/// The operand of a cast that is written; none of any other expression.
fn written_cast(e: &Expression) -> Option<&Expression>
    ensures { option_map expression_of (option_copied result) ≡ written_cast (expression_of e.now) }
{
    match &e.node {
        ExpressionNode::Convert(x, true) => Some(x.get()),
        _ => None,
    }
}

/// Whether an expression is a null pointer constant (C99 6.3.2.3): an integer constant expression of value 0, or one that is cast to
/// `void *`.
pub fn is_null(e: &Expression) -> bool
    ensures { result ≡ null (typed (expression_of e.now)) }
{
    match written_cast(e) {
        Some(operand) => {
            if is_void_pointer(&e.ty.ty) {
                is_zero(constant_of(operand))
            } else {
                is_zero(constant_of(e))
            }
        }
        None => is_zero(constant_of(e)),
    }
}
