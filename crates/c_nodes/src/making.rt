//! Nodes as they are made, and the values of what stands there.

ghost use Rattle.std.specs.Prelude.{◌≡◌, IfOk};
ghost use Rattle.std.specs.Option.{option_map};
ghost use Rattle.c_types.specs.Types.{integer, pointer};
ghost use Rattle.c_types.specs.Views.{type_of};
ghost use Rattle.c_erasure.specs.Broken.{ill_typed, misplaced as misplaced_in};
ghost use Rattle.c_erasure.specs.Noted.{a_value, an_object, is_copy, value_of};
ghost use Rattle.c_erasure.specs.Checking.Nodes.{a_node, a_way, converted, worth as worth_of};
ghost use Rattle.c_annotated.specs.Views.{expression_of, node_of, path_node_of, path_of, thing_of};
ghost use Rattle.c_nodes.specs.Gives.{Gives};

use crate::fault::Fault;
use c_annotated::{Expression, ExpressionNode, Path, PathNode, Thing, plain};
use c_types::{IntKind, Ty, copy, same};
use lay_base::{Boxed, NoMemory, Place, Rule, boxed, shared};
use std::alloc::Global;

/// An expression that has a value.
pub type Value = Boxed<Expression>;

/// Where a node begins.
#[derive(Clone, Copy)]
pub struct Start {
    /// Where there is memory for the node.
    pub alloc: Global,
    pub at: u32,
    pub place: Place,
    /// How many records are complete there.
    pub count: usize,
}

/// A value of a type.
pub fn value(alloc: Global, ty: Ty, place: Place, node: ExpressionNode) -> Result<Value, Fault>
    ensures { Gives (λ e. a_value (expression_of e)) result (a_node (type_of ty) place (node_of node)) }
{
    Ok(boxed(
        alloc,
        Expression {
            ty: plain(ty),
            place,
            node,
        },
    )?)
}

/// A value of a type.
pub fn node(alloc: Global, ty: Ty, place: Place, node: ExpressionNode) -> Result<Thing, Fault>
    ensures { Gives thing_of result (a_node (type_of ty) place (node_of node)) }
{
    Ok(Thing::Value(value(alloc, ty, place, node)?))
}

/// An object of a type.
pub fn way(alloc: Global, ty: Ty, place: Place, node: PathNode) -> Result<Thing, Fault>
    ensures { Gives thing_of result (a_way (type_of ty) place (path_node_of node)) }
{
    Ok(Thing::Object(boxed(
        alloc,
        Path {
            ty: plain(ty),
            place,
            node,
        },
    )?))
}

/// A type as that of a pointer to it.
pub fn pointer_to(alloc: Global, t: Ty) -> Result<Ty, NoMemory>
    ensures { IfOk result (λ it. type_of it ≡ pointer (type_of t)) }
{
    Ok(Ty::Pointer(shared(alloc, t)?))
}

/// A value as one of a type, converted where it has another.
pub fn convert(alloc: Global, t: &Ty, x: Value) -> Result<Value, NoMemory>
    ensures { IfOk result (λ e. expression_of e ≡ converted (type_of t.now) (expression_of x)) }
{
    if same(&x.get().ty.ty, t) {
        return Ok(x);
    }
    let ty = copy(alloc, t)?;
    let place = x.get().place;
    boxed(
        alloc,
        Expression {
            ty: plain(ty),
            place,
            node: ExpressionNode::Convert(x, false),
        },
    )
}

/// A value as one of an integer type, converted where it has another type.
pub fn convert_to_kind(alloc: Global, kind: IntKind, x: Value) -> Result<Value, NoMemory>
    ensures { IfOk result (λ e. expression_of e ≡ converted (integer kind) (expression_of x)) }
{
    let t = Ty::Int(kind);
    convert(alloc, &t, x)
}

/// The value of an object: a number or a pointer is loaded, an array becomes a pointer to its first element (C99 6.3.2.1). Other objects have
/// none.
pub fn object_value(alloc: Global, p: Boxed<Path>) -> Result<Option<Value>, NoMemory>
    ensures { IfOk result (λ o. option_map expression_of o ≡ value_of (an_object (path_of p))) }
{
    let place = p.get().place;
    let (ty, is_array) = match &p.get().ty.ty {
        Ty::Int(kind) => (Ty::Int(*kind), false),
        Ty::Pointer(_) => (copy(alloc, &p.get().ty.ty)?, false),
        Ty::Array(element, _) => (pointer_to(alloc, copy(alloc, element.get())?)?, true),
        _ => return Ok(None),
    };
    let node = if is_array {
        ExpressionNode::Decay(p)
    } else {
        ExpressionNode::Load(p)
    };
    Ok(Some(boxed(
        alloc,
        Expression {
            ty: plain(ty),
            place,
            node,
        },
    )?))
}

/// The value of what stands there, which begins at `at` (C99 6.3.2.1).
#[tactic(auto, unfolding(c_erasure::specs::Checking::Nodes::worth))]
pub fn worth(alloc: Global, at: u32, thing: Thing) -> Result<Value, Fault>
    ensures { Gives expression_of result (worth_of at (thing_of thing)) }
{
    match thing {
        Thing::Object(p) => match object_value(alloc, p)? {
            Some(e) => Ok(e),
            None => Err(Fault::IllTyped(Rule::ByValue, at)),
        },
        Thing::Value(e) | Thing::FunctionAt(e) => Ok(e),
        Thing::Function(place, f, t) => {
            let ty = pointer_to(alloc, t)?;
            let node = ExpressionNode::FunctionName(f);
            Ok(boxed(
                alloc,
                Expression {
                    ty: plain(ty),
                    place,
                    node,
                },
            )?)
        }
        Thing::LibraryFunction(_, _) => Err(Fault::IllTyped(Rule::Library, at)),
    }
}

/// Whether it is the assignment of a record.
fn is_assignment_of_record(e: &Expression) -> bool
    ensures { result ≡ is_copy (a_value (expression_of e.now)) }
{
    matches!(&e.node, ExpressionNode::CopyRecord(_, _))
}

/// The rule that is broken where an object has to stand and something else does, and the place: that rule at `at`; or `ByValue` at `from`, where
/// it begins, for the value of an assignment of a record (own).
pub fn misplaced(thing: &Thing, rule: Rule, at: u32, from: u32) -> (Rule, u32)
    ensures { ill_typed result.0 result.1 ≡ misplaced_in (thing_of thing.now) rule at from }
{
    match thing {
        Thing::Value(e) => {
            if is_assignment_of_record(e.get()) {
                (Rule::ByValue, from)
            } else {
                (rule, at)
            }
        }
        _ => (rule, at),
    }
}
