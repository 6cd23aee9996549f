//! Binary operators (C99 6.5.5 to 6.5.14), which stand at `at`.

ghost use Rattle.std.specs.Prelude.{◌≡◌, IfOk};
ghost use Rattle.c_types.specs.Types.{integer};
ghost use Rattle.c_types.specs.Views.{type_of};
ghost use Rattle.c_typed.specs.AnswerViews.{common_type};
ghost use Rattle.c_typed.specs.Trees.{both, either};
ghost use Rattle.c_erasure.specs.Checking.Nodes.{added_in, backward_node, binary_in, compared_in, computed_in, forward_node, subtracted_in, tested_in};
ghost use Rattle.c_annotated.specs.Views.{expression_of, thing_of};
ghost use Rattle.c_nodes.specs.Gives.{Gives};
ghost use Rattle.c_nodes.specs.OperatorNodes.Kinds.{kind_view};

use crate::fault::Fault;
use crate::making::{Start, Value, convert, convert_to_kind, node, pointer_to};
use crate::operator_nodes::kinds::BinaryKind;
use c_annotated::{ExpressionNode, Thing, is_null};
use c_typed::{
    BinaryOp, CommonType, CompareOp, Met, PointerOp, comparing, differing, is_scalar, moving,
    on_numbers,
};
use c_types::{IntKind, Ty, copy};
use lay_base::{NoMemory, Rule};
use std::alloc::Global;

/// The type to which two operands of these types are converted.
pub fn type_in_common(alloc: Global, s: &Ty, t: &Ty, common: CommonType) -> Result<Ty, NoMemory>
    ensures { IfOk result (λ it. type_of it ≡ common_type (type_of s.now) (type_of t.now) common) }
{
    match common {
        CommonType::Number(kind) => Ok(Ty::Int(kind)),
        CommonType::Void => Ok(Ty::Void),
        CommonType::Pointer(Met::Left) => copy(alloc, s),
        CommonType::Pointer(Met::Right) => copy(alloc, t),
        CommonType::Pointer(Met::VoidPointer) => pointer_to(alloc, Ty::Void),
    }
}

/// A pointer and a number, in this order.
fn forward(begin: Start, op: PointerOp, x: Value, y: Value, kind: IntKind) -> Result<Thing, Fault>
    ensures { Gives thing_of result (forward_node begin.place op (expression_of x) (expression_of y) (integer kind)) }
{
    let t = copy(begin.alloc, &x.get().ty.ty)?;
    let y = convert_to_kind(begin.alloc, kind, y)?;
    node(
        begin.alloc,
        t,
        begin.place,
        ExpressionNode::PointerAdd(op, x, y),
    )
}

/// A number and a pointer, in this order.
fn backward(begin: Start, x: Value, y: Value, kind: IntKind) -> Result<Thing, Fault>
    ensures { Gives thing_of result (backward_node begin.place (expression_of x) (expression_of y) (integer kind)) }
{
    let t = copy(begin.alloc, &y.get().ty.ty)?;
    let x = convert_to_kind(begin.alloc, kind, x)?;
    let node_of_both = ExpressionNode::PointerAdd(PointerOp::Add, x, y);
    node(begin.alloc, t, begin.place, node_of_both)
}

/// `+` of a pointer and a number, in either order (C99 6.5.6).
fn added(begin: Start, at: u32, x: Value, y: Value) -> Result<Thing, Fault>
    ensures { Gives thing_of result (added_in begin.count at begin.place (expression_of x) (expression_of y)) }
{
    match moving(begin.count, &x.get().ty.ty, &y.get().ty.ty) {
        Some(kind) => forward(begin, PointerOp::Add, x, y, kind),
        None => match moving(begin.count, &y.get().ty.ty, &x.get().ty.ty) {
            Some(kind) => backward(begin, x, y, kind),
            None => Err(Fault::IllTyped(Rule::Operands, at)),
        },
    }
}

/// `-` of a pointer and a number, or of two pointers (C99 6.5.6).
fn subtracted(begin: Start, at: u32, x: Value, y: Value) -> Result<Thing, Fault>
    ensures { Gives thing_of result (subtracted_in begin.count at begin.place (expression_of x) (expression_of y)) }
{
    match moving(begin.count, &x.get().ty.ty, &y.get().ty.ty) {
        Some(kind) => forward(begin, PointerOp::Subtract, x, y, kind),
        None => {
            if differing(begin.count, &x.get().ty.ty, &y.get().ty.ty) {
                let node_of_both = ExpressionNode::PointerDiff(x, y);
                node(
                    begin.alloc,
                    Ty::Int(IntKind::Int),
                    begin.place,
                    node_of_both,
                )
            } else {
                Err(Fault::IllTyped(Rule::Operands, at))
            }
        }
    }
}

/// An operator whose result is a number of the operands' common type, or a pointer.
#[tactic(auto, unfolding(c_erasure::specs::Checking::Nodes::computed_in))]
fn computed(begin: Start, at: u32, op: BinaryOp, x: Value, y: Value) -> Result<Thing, Fault>
    ensures { Gives thing_of result (computed_in begin.count at begin.place op (expression_of x) (expression_of y)) }
{
    match on_numbers(op, &x.get().ty.ty, &y.get().ty.ty) {
        Some(kinds) => {
            let x = convert_to_kind(begin.alloc, kinds.left, x)?;
            let y = convert_to_kind(begin.alloc, kinds.right, y)?;
            let node_of_both = ExpressionNode::Binary(op, x, y);
            node(begin.alloc, Ty::Int(kinds.left), begin.place, node_of_both)
        }
        None => match op {
            BinaryOp::Add => added(begin, at, x, y),
            BinaryOp::Subtract => subtracted(begin, at, x, y),
            _ => Err(Fault::IllTyped(Rule::Operands, at)),
        },
    }
}

/// A comparison.
#[tactic(auto, unfolding(c_erasure::specs::Checking::Nodes::compared_in))]
fn compared(begin: Start, at: u32, op: CompareOp, x: Value, y: Value) -> Result<Thing, Fault>
    ensures { Gives thing_of result (compared_in at begin.place op (expression_of x) (expression_of y)) }
{
    let x_null = is_null(x.get());
    let y_null = is_null(y.get());
    match comparing(op, &x.get().ty.ty, x_null, &y.get().ty.ty, y_null) {
        Some(common) => {
            let t = type_in_common(begin.alloc, &x.get().ty.ty, &y.get().ty.ty, common)?;
            let x = convert(begin.alloc, &t, x)?;
            let y = convert(begin.alloc, &t, y)?;
            let node_of_both = ExpressionNode::Compare(op, x, y);
            node(
                begin.alloc,
                Ty::Int(IntKind::Int),
                begin.place,
                node_of_both,
            )
        }
        None => Err(Fault::IllTyped(Rule::Operands, at)),
    }
}

/// `&&`
#[tactic(auto, unfolding(c_erasure::specs::Checking::Nodes::tested_in))]
fn and(begin: Start, at: u32, x: Value, y: Value) -> Result<Thing, Fault>
    ensures { Gives thing_of result (tested_in at begin.place (both (expression_of x) (expression_of y)) (expression_of x) (expression_of y)) }
{
    if is_scalar(&x.get().ty.ty) && is_scalar(&y.get().ty.ty) {
        node(
            begin.alloc,
            Ty::Int(IntKind::Int),
            begin.place,
            ExpressionNode::And(x, y),
        )
    } else {
        Err(Fault::IllTyped(Rule::Operands, at))
    }
}

/// `||`
#[tactic(auto, unfolding(c_erasure::specs::Checking::Nodes::tested_in))]
fn or(begin: Start, at: u32, x: Value, y: Value) -> Result<Thing, Fault>
    ensures { Gives thing_of result (tested_in at begin.place (either (expression_of x) (expression_of y)) (expression_of x) (expression_of y)) }
{
    if is_scalar(&x.get().ty.ty) && is_scalar(&y.get().ty.ty) {
        node(
            begin.alloc,
            Ty::Int(IntKind::Int),
            begin.place,
            ExpressionNode::Or(x, y),
        )
    } else {
        Err(Fault::IllTyped(Rule::Operands, at))
    }
}

/// A binary operator.
pub fn binary(begin: Start, at: u32, kind: BinaryKind, x: Value, y: Value) -> Result<Thing, Fault>
    ensures { Gives thing_of result (binary_in begin.count at begin.place (kind_view kind) (expression_of x) (expression_of y)) }
{
    match kind {
        BinaryKind::Computes(op) => computed(begin, at, op, x, y),
        BinaryKind::Compares(op) => compared(begin, at, op, x, y),
        BinaryKind::AllOf => and(begin, at, x, y),
        BinaryKind::AnyOf => or(begin, at, x, y),
    }
}
