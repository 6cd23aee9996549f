//! `?:`, assignments and the comma (C99 6.5.15 to 6.5.17).

ghost use Rattle.std.specs.Prelude.{◌≡◌};
ghost use Rattle.c_types.specs.Views.{type_of};
ghost use Rattle.c_erasure.specs.Checking.Nodes.{assigned_in, chosen_in, comma_in, copied_in, target_in, tested as tested_in, updated_in};
ghost use Rattle.c_annotated.specs.Views.{expression_of, path_of, thing_of};
ghost use Rattle.c_nodes.specs.Gives.{Gives};
ghost use Rattle.c_nodes.specs.OperatorNodes.Parts.{target_view};

use crate::fault::Fault;
use crate::making::{Start, Value, convert, convert_to_kind, misplaced, node};
use crate::operator_nodes::binary_operators::type_in_common;
use c_annotated::{ExpressionNode, Path, Thing, is_null};
use c_typed::{BinaryOp, assigns, choosing, is_scalar, updating};
use c_types::{Ty, copy, same};
use lay_base::{Boxed, Rule};

/// What is assigned: a number or a pointer, or a record.
#[derive(Drop)]
pub enum Target {
    Scalar(Boxed<Path>),
    Record(Boxed<Path>),
}

/// What is tested against zero. A fault is named at `at`.
#[tactic(auto, unfolding(c_erasure::specs::Checking::Nodes::tested))]
pub fn tested(at: u32, x: Value) -> Result<Value, Fault>
    ensures { Gives expression_of result (tested_in at (expression_of x)) }
{
    if is_scalar(&x.get().ty.ty) {
        Ok(x)
    } else {
        Err(Fault::IllTyped(Rule::Operands, at))
    }
}

/// `?:`, whose colon stands at `colon`.
#[tactic(auto, unfolding(c_erasure::specs::Checking::Nodes::chosen_in))]
pub fn chosen(begin: Start, colon: u32, x: Value, y: Value, z: Value) -> Result<Thing, Fault>
    ensures { Gives thing_of result (chosen_in colon begin.place (expression_of x) (expression_of y) (expression_of z)) }
{
    let y_null = is_null(y.get());
    let z_null = is_null(z.get());
    match choosing(&y.get().ty.ty, y_null, &z.get().ty.ty, z_null) {
        Some(common) => {
            let t = type_in_common(begin.alloc, &y.get().ty.ty, &z.get().ty.ty, common)?;
            let y = convert(begin.alloc, &t, y)?;
            let z = convert(begin.alloc, &t, z)?;
            node(begin.alloc, t, begin.place, ExpressionNode::Cond(x, y, z))
        }
        None => Err(Fault::IllTyped(Rule::Operands, colon)),
    }
}

/// What is assigned, where it may be. It begins at `from`.
#[tactic(auto, unfolding(c_erasure::specs::Checking::Nodes::target_in))]
pub fn target_in(from: u32, thing: Thing) -> Result<Target, Fault>
    ensures { Gives target_view result (target_in from (thing_of thing)) }
{
    match thing {
        Thing::Object(p) => match &p.get().ty.ty {
            Ty::Int(_) | Ty::Pointer(_) => Ok(Target::Scalar(p)),
            Ty::Record(_) => Ok(Target::Record(p)),
            _ => Err(Fault::IllTyped(Rule::Lvalue, from)),
        },
        _ => Err(Fault::IllTyped(Rule::Lvalue, from)),
    }
}

/// `=` with a number or a pointer. It stands at `at`.
#[tactic(auto, unfolding(c_erasure::specs::Checking::Nodes::assigned_in))]
pub fn assigned(begin: Start, at: u32, p: Boxed<Path>, x: Value) -> Result<Thing, Fault>
    ensures { Gives thing_of result (assigned_in at begin.place (path_of p) (expression_of x)) }
{
    if assigns(&x.get().ty.ty, is_null(x.get()), &p.get().ty.ty) {
        let t = copy(begin.alloc, &p.get().ty.ty)?;
        let x = convert(begin.alloc, &t, x)?;
        node(begin.alloc, t, begin.place, ExpressionNode::Assign(p, x))
    } else {
        Err(Fault::IllTyped(Rule::Assign, at))
    }
}

/// `=` with a record. It stands at `at`, and its right operand begins at `from`.
#[tactic(auto, unfolding(c_erasure::specs::Checking::Nodes::copied_in))]
pub fn copied(
    begin: Start,
    at: u32,
    from: u32,
    p: Boxed<Path>,
    thing: Thing,
) -> Result<Thing, Fault>
    ensures { Gives thing_of result (copied_in at from begin.place (path_of p) (thing_of thing)) }
{
    match thing {
        Thing::Object(q) => {
            if same(&q.get().ty.ty, &p.get().ty.ty) {
                node(
                    begin.alloc,
                    Ty::Void,
                    begin.place,
                    ExpressionNode::CopyRecord(p, q),
                )
            } else {
                Err(Fault::IllTyped(Rule::Assign, at))
            }
        }
        thing => {
            let (rule, there) = misplaced(&thing, Rule::Assign, at, from);
            Err(Fault::IllTyped(rule, there))
        }
    }
}

/// An assignment with an operator, which stands at `at`.
#[tactic(auto, unfolding(c_erasure::specs::Checking::Nodes::updated_in))]
pub fn updated(
    begin: Start,
    at: u32,
    op: BinaryOp,
    p: Boxed<Path>,
    x: Value,
) -> Result<Thing, Fault>
    ensures { Gives thing_of result (updated_in begin.count at begin.place op (path_of p) (expression_of x)) }
{
    match updating(begin.count, op, &p.get().ty.ty, &x.get().ty.ty) {
        Some(kind) => {
            let t = copy(begin.alloc, &p.get().ty.ty)?;
            let x = convert_to_kind(begin.alloc, kind, x)?;
            node(
                begin.alloc,
                t,
                begin.place,
                ExpressionNode::AssignOp(op, p, x),
            )
        }
        None => Err(Fault::IllTyped(Rule::Operands, at)),
    }
}

/// The comma.
#[tactic(auto, unfolding(c_erasure::specs::Checking::Nodes::comma_in))]
pub fn comma(begin: Start, x: Value, y: Value) -> Result<Thing, Fault>
    ensures { Gives thing_of result (comma_in begin.place (expression_of x) (expression_of y)) }
{
    let t = copy(begin.alloc, &y.get().ty.ty)?;
    node(begin.alloc, t, begin.place, ExpressionNode::Comma(x, y))
}
