//! Where the `sizeof` stands that is the size operand of an allocation.

ghost use Rattle.std.specs.Prelude.{◌≡◌, map};
ghost use Rattle.c_annotated.specs.Views.{expression_of, expressions_of, node_of};
ghost use Rattle.c_erasure.specs.SizeOperands.{bytes_place, call_place, constant_place, size_operand, size_place};
ghost use Rattle.c_erasure.specs.Units.{if_any};
ghost use Rattle.c_recognised.specs.Operands.{calloc_place, malloc_place};
ghost use Rattle.c_types.specs.Views.{type_of};

use crate::sizes::{is_constant_of, is_size, lent_unconverted};
use c_annotated::{Expression, ExpressionNode};
use c_typed::{BinaryOp, LibraryFunction};
use c_types::Ty;

/// Where the size of the record with a number stands, if an expression is that.
fn constant_place(r: usize, e: &Expression) -> Option<usize>
    ensures { if_any result ≡ constant_place r (expression_of e.now) }
{
    if !is_constant_of(r, e) {
        return None;
    }
    match &e.ty.note {
        None => None,
        Some(size) => Some(size.get().at as usize),
    }
}

/// Where the size of the record with a number stands, if an expression is that, converted or not.
fn size_place(r: usize, e: &Expression) -> Option<usize>
    ensures { if_any result ≡ size_place r (expression_of e.now) }
{
    constant_place(r, lent_unconverted(e))
}

/// Where that size stands in a number of bytes.
fn bytes_place(r: usize, e: &Expression) -> Option<usize>
    ensures { if_any result ≡ bytes_place r (expression_of e.now) }
{
    match &e.node {
        ExpressionNode::Binary(BinaryOp::Multiply, x, y) => {
            if is_size(r, y.get()) {
                size_place(r, y.get())
            } else {
                size_place(r, x.get())
            }
        }
        _ => constant_place(r, e),
    }
}

/// Where that size stands in the arguments of `malloc`.
#[tactic(auto, using(crate::proofs::SizeCalls::malloc_of_more))]
fn malloc_place(r: usize, all: &[Expression]) -> Option<usize>
    ensures { if_any result ≡ malloc_place r (expressions_of (map expression_of all.now)) }
{
    match all {
        [x] => bytes_place(r, lent_unconverted(x)),
        _ => None,
    }
}

/// Where that size stands in the arguments of `calloc`.
#[tactic(auto, using(crate::proofs::SizeCalls::calloc_of_less, crate::proofs::SizeCalls::calloc_of_more))]
fn calloc_place(r: usize, all: &[Expression]) -> Option<usize>
    ensures { if_any result ≡ calloc_place r (expressions_of (map expression_of all.now)) }
{
    match all {
        [_, y] => size_place(r, y),
        _ => None,
    }
}

/// Where the size operand of a call stands that allocates records with a number.
fn call_place(r: usize, e: &Expression) -> Option<usize>
    ensures { if_any result ≡ call_place r (expression_of e.now) }
{
    match &e.node {
        ExpressionNode::Library(LibraryFunction::Malloc, all) => malloc_place(r, all.as_slice()),
        ExpressionNode::Library(LibraryFunction::Calloc, all) => calloc_place(r, all.as_slice()),
        _ => None,
    }
}

/// Where the size operand of a node of a type stands, if it is an allocation of records.
pub fn size_operand(t: &Ty, node: &ExpressionNode) -> Option<usize>
    ensures { if_any result ≡ size_operand (type_of t.now) (node_of node.now) }
{
    match node {
        ExpressionNode::Convert(e, _) => match t {
            Ty::Pointer(to) => match to.get() {
                Ty::Record(r) => call_place(*r, e.get()),
                _ => None,
            },
            _ => None,
        },
        _ => None,
    }
}
