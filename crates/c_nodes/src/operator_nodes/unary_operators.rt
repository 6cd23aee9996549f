//! Unary operators and casts (C99 6.5.2.4, 6.5.3, 6.5.4). An operand begins at `from`.

ghost use Rattle.std.specs.Prelude.{◌≡◌};
ghost use Rattle.c_types.specs.Views.{type_of};
ghost use Rattle.c_erasure.specs.Checking.Nodes.{address_in, cast_in, deref_in, not_in, step_in, unary_in};
ghost use Rattle.c_annotated.specs.Views.{expression_of, thing_of};
ghost use Rattle.c_nodes.specs.Gives.{Gives};

use crate::fault::Fault;
use crate::making::{Start, Value, misplaced, node, pointer_to, way};
use crate::operator_nodes::subscripts::promote;
use crate::sizes::may_be_pointed_to;
use c_annotated::{ExpressionNode, PathNode, Thing, is_null};
use c_typed::{StepOp, UnaryOp, casts, is_function, is_scalar, is_stepped, promoted_kind};
use c_types::{IntKind, Ty, copy, is_object};
use lay_base::{Place, Rule};
use std::alloc::Global;

/// `++` or `--`, which stands at `at`, before its operand or after it.
#[tactic(auto, unfolding(c_erasure::specs::Checking::Nodes::step_in))]
pub fn step(
    begin: Start,
    from: u32,
    at: u32,
    op: StepOp,
    before: bool,
    thing: Thing,
) -> Result<Thing, Fault>
    ensures { Gives thing_of result (step_in begin.count from at begin.place op before (thing_of thing)) }
{
    match thing {
        Thing::Object(p) => {
            if is_stepped(begin.count, &p.get().ty.ty) {
                let t = copy(begin.alloc, &p.get().ty.ty)?;
                node(
                    begin.alloc,
                    t,
                    begin.place,
                    ExpressionNode::Step(op, before, p),
                )
            } else {
                Err(Fault::IllTyped(Rule::Operands, at))
            }
        }
        _ => Err(Fault::IllTyped(Rule::Lvalue, from)),
    }
}

/// `&`
#[tactic(auto, unfolding(c_erasure::specs::Checking::Nodes::address_in))]
pub fn address(alloc: Global, from: u32, at: Place, thing: Thing) -> Result<Thing, Fault>
    ensures { Gives thing_of result (address_in from at (thing_of thing)) }
{
    match thing {
        Thing::Object(p) => {
            if may_be_pointed_to(&p.get().ty.ty) {
                let t = pointer_to(alloc, copy(alloc, &p.get().ty.ty)?)?;
                node(alloc, t, at, ExpressionNode::AddressOf(p))
            } else {
                Err(Fault::TooBig(at.at))
            }
        }
        Thing::Function(_, f, t) => {
            let t = pointer_to(alloc, t)?;
            node(alloc, t, at, ExpressionNode::FunctionName(f))
        }
        Thing::FunctionAt(e) => Ok(Thing::Value(e)),
        Thing::Value(e) => {
            let (rule, there) = misplaced(&Thing::Value(e), Rule::Lvalue, at.at, from);
            Err(Fault::IllTyped(rule, there))
        }
        Thing::LibraryFunction(_, _) => Err(Fault::IllTyped(Rule::Library, from)),
    }
}

/// `*`
#[tactic(auto, unfolding(c_erasure::specs::Checking::Nodes::deref_in))]
pub fn deref(begin: Start, e: Value) -> Result<Thing, Fault>
    ensures { Gives thing_of result (deref_in begin.count begin.place (expression_of e)) }
{
    match &e.get().ty.ty {
        Ty::Pointer(to) => {
            if is_function(to.get()) {
                Ok(Thing::FunctionAt(e))
            } else if is_object(begin.count, to.get()) {
                let t = copy(begin.alloc, to.get())?;
                way(begin.alloc, t, begin.place, PathNode::Deref(e))
            } else {
                Err(Fault::IllTyped(Rule::Incomplete, begin.place.at))
            }
        }
        _ => Err(Fault::IllTyped(Rule::Operands, begin.place.at)),
    }
}

/// `+`, `-` or `~`
#[tactic(auto, unfolding(c_erasure::specs::Checking::Nodes::unary_in))]
pub fn unary(alloc: Global, at: Place, op: UnaryOp, x: Value) -> Result<Thing, Fault>
    ensures { Gives thing_of result (unary_in at op (expression_of x)) }
{
    match &x.get().ty.ty {
        Ty::Int(kind) => {
            let t = Ty::Int(promoted_kind(*kind));
            let x = promote(alloc, x)?;
            node(alloc, t, at, ExpressionNode::Unary(op, x))
        }
        _ => Err(Fault::IllTyped(Rule::Operands, at.at)),
    }
}

/// `!`
#[tactic(auto, unfolding(c_erasure::specs::Checking::Nodes::not_in))]
pub fn not(alloc: Global, at: Place, x: Value) -> Result<Thing, Fault>
    ensures { Gives thing_of result (not_in at (expression_of x)) }
{
    if is_scalar(&x.get().ty.ty) {
        node(alloc, Ty::Int(IntKind::Int), at, ExpressionNode::Not(x))
    } else {
        Err(Fault::IllTyped(Rule::Operands, at.at))
    }
}

/// A cast.
#[tactic(auto, unfolding(c_erasure::specs::Checking::Nodes::cast_in))]
pub fn cast(alloc: Global, at: Place, t: Ty, x: Value) -> Result<Thing, Fault>
    ensures { Gives thing_of result (cast_in at (type_of t) (expression_of x)) }
{
    if casts(&x.get().ty.ty, is_null(x.get()), &t) {
        node(alloc, t, at, ExpressionNode::Convert(x, true))
    } else {
        Err(Fault::IllTyped(Rule::Cast, at.at))
    }
}
