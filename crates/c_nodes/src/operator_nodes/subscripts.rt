//! Subscripts (C99 6.5.2.1).

ghost use Rattle.std.specs.Prelude.{◌≡◌, IfOk};
ghost use Rattle.c_types.specs.Views.{type_of};
ghost use Rattle.c_erasure.specs.Noted.{type_of as expression_type};
ghost use Rattle.c_erasure.specs.Checking.Nodes.{element_in, index_in, index_to, promoted_value, turned_to};
ghost use Rattle.c_annotated.specs.Views.{expression_of, path_of, thing_of};
ghost use Rattle.c_nodes.specs.Gives.{Gives};
ghost use Rattle.c_nodes.specs.OperatorNodes.Parts.{ArrayGives};

use crate::fault::Fault;
use crate::making::{Start, Value, convert_to_kind, way};
use c_annotated::{Expression, ExpressionNode, Path, PathNode, Thing, plain};
use c_typed::{PointerOp, is_integer, points_to_object, promoting};
use c_types::{Ty, copy};
use lay_base::{Boxed, NoMemory, Rule, boxed};
use std::alloc::Global;

/// What is subscripted.
#[derive(Drop)]
pub enum Subscripted {
    /// An array object, with the type of its elements.
    Array(Boxed<Path>, Ty),
    Other(Thing),
}

/// Whether an array object is subscripted.
#[tactic(auto, unfolding(c_erasure::specs::Checking::Nodes::array_of))]
pub fn array_of(alloc: Global, thing: Thing) -> Result<Subscripted, NoMemory>
    ensures { ArrayGives (thing_of thing) result }
{
    match thing {
        Thing::Object(p) => match &p.get().ty.ty {
            Ty::Array(element, _) => {
                let element = copy(alloc, element.get())?;
                Ok(Subscripted::Array(p, element))
            }
            _ => Ok(Subscripted::Other(Thing::Object(p))),
        },
        other => Ok(Subscripted::Other(other)),
    }
}

/// A value converted by the integer promotions (C99 6.3.1.1), where it is a number.
#[tactic(auto, using(crate::proofs::OperatorNodes::Promoted::promoted_number))]
pub fn promote(alloc: Global, x: Value) -> Result<Value, NoMemory>
    ensures { IfOk result (λ e. expression_of e ≡ promoted_value (expression_of x)) }
{
    match promoting(&x.get().ty.ty) {
        Some(kind) => convert_to_kind(alloc, kind, x),
        None => Ok(x),
    }
}

/// An element of an array object. The bracket stands at `left`.
#[tactic(auto, unfolding(c_erasure::specs::Checking::Nodes::element_in))]
pub fn element(begin: Start, left: u32, p: Boxed<Path>, t: Ty, i: Value) -> Result<Thing, Fault>
    ensures { Gives thing_of result (element_in left begin.place (path_of p, type_of t) (expression_of i)) }
{
    if is_integer(&i.get().ty.ty) {
        let i = promote(begin.alloc, i)?;
        way(begin.alloc, t, begin.place, PathNode::Element(p, i))
    } else {
        Err(Fault::IllTyped(Rule::Operands, left))
    }
}

/// A pointer, and a number in brackets.
fn pointer_first(begin: Start, e: Value, i: Value) -> Result<Thing, Fault>
    ensures { Gives thing_of result (index_to begin.place (expression_of e) (expression_of i) (expression_type (expression_of e))) }
{
    match &e.get().ty.ty {
        Ty::Pointer(t) => {
            let t = copy(begin.alloc, t.get())?;
            let i = promote(begin.alloc, i)?;
            way(begin.alloc, t, begin.place, PathNode::Index(e, i))
        }
        _ => Err(Fault::IllTyped(Rule::Operands, begin.place.at)),
    }
}

/// A number, and a pointer in brackets.
fn number_first(begin: Start, i: Value, e: Value) -> Result<Thing, Fault>
    ensures { Gives thing_of result (turned_to begin.place (expression_of i) (expression_of e) (expression_type (expression_of e))) }
{
    let Start { alloc, place, .. } = begin;
    match &e.get().ty.ty {
        Ty::Pointer(t) => {
            let t = copy(alloc, t.get())?;
            let ty = copy(alloc, &e.get().ty.ty)?;
            let i = promote(alloc, i)?;
            let node = ExpressionNode::PointerAdd(PointerOp::Add, i, e);
            let sum = boxed(
                alloc,
                Expression {
                    ty: plain(ty),
                    place,
                    node,
                },
            )?;
            way(alloc, t, place, PathNode::Deref(sum))
        }
        _ => Err(Fault::IllTyped(Rule::Operands, place.at)),
    }
}

/// A subscript on a pointer, in either order. The bracket stands at `left`.
#[tactic(auto, unfolding(c_erasure::specs::Checking::Nodes::index_in))]
pub fn index(begin: Start, left: u32, x: Value, y: Value) -> Result<Thing, Fault>
    ensures { Gives thing_of result (index_in begin.count left begin.place (expression_of x) (expression_of y)) }
{
    if points_to_object(begin.count, &x.get().ty.ty) && is_integer(&y.get().ty.ty) {
        pointer_first(begin, x, y)
    } else if is_integer(&x.get().ty.ty) && points_to_object(begin.count, &y.get().ty.ty) {
        number_first(begin, x, y)
    } else {
        Err(Fault::IllTyped(Rule::Operands, left))
    }
}
