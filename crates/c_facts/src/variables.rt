//! Variables, null pointers and allocations, where they are alone.

ghost use Rattle.std.specs.Prelude.{◌≡◌};
ghost use Rattle.c_typed.specs.Views.{expression_of, path_of};
ghost use Rattle.c_facts.specs.Contexts.{is_equality, is_made, is_making, is_null_pointer, is_null_test, is_object, is_variable};

use c_typed::{CompareOp, Expression, ExpressionNode, Path, PathNode};

/// Whether a path is the name of an object.
pub fn is_object(p: &Path) -> bool
    ensures { result ≡ is_object (path_of p.now) }
{
    matches!(&p.node, PathNode::Object(_))
}

/// Whether an expression is the value of an object that is named.
pub fn is_variable(e: &Expression) -> bool
    ensures { result ≡ is_variable (expression_of e.now) }
{
    match &e.node {
        ExpressionNode::Load(p) => is_object(p.get()),
        _ => false,
    }
}

fn is_null_pointer(e: &Expression) -> bool
    ensures { result ≡ is_null_pointer (expression_of e.now) }
{
    matches!(&e.node, ExpressionNode::Null)
}

/// Whether an expression is an allocation of records or a null pointer.
pub fn is_made(e: &Expression) -> bool
    ensures { result ≡ is_made (expression_of e.now) }
{
    matches!(
        &e.node,
        ExpressionNode::Null | ExpressionNode::Allocate(_, _, _)
    )
}

/// Whether an expression assigns such a value to an object.
pub fn is_making(e: &Expression) -> bool
    ensures { result ≡ is_making (expression_of e.now) }
{
    match &e.node {
        ExpressionNode::Assign(p, x) => is_object(p.get()) && is_made(x.get()),
        _ => false,
    }
}

fn is_equality(op: CompareOp) -> bool
    ensures { result ≡ is_equality op }
{
    matches!(op, CompareOp::Equal | CompareOp::NotEqual)
}

/// Whether a comparison asks whether a variable is null.
pub fn is_null_test(op: CompareOp, x: &Expression, y: &Expression) -> bool
    ensures { result ≡ is_null_test op (expression_of x.now) (expression_of y.now) }
{
    is_equality(op)
        && ((is_variable(x) && is_null_pointer(y)) || (is_null_pointer(x) && is_variable(y)))
}
