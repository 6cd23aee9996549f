//! Primary expressions (C99 6.5.1).

ghost use Rattle.std.specs.Prelude.{◌≡◌, IfOk, Ok, Some};
ghost use Rattle.std.specs.Option.{option_copied, option_map};
ghost use Rattle.c_types.specs.Views.{type_of};
ghost use Rattle.c_erasure.specs.Erasure.{unmade as unmade_of};
ghost use Rattle.c_erasure.specs.Checking.Nodes.{named_in};
ghost use Rattle.c_annotated.specs.FileViews.{entity_of};
ghost use Rattle.c_annotated.specs.Views.{thing_of};
ghost use Rattle.c_nodes.specs.Gives.{Gives};

use crate::fault::Fault;
use crate::making::{node, pointer_to, way};
use c_annotated::{Entity, Expression, ExpressionNode, PathNode, Thing, plain};
use c_types::{IntKind, Ty, copy};
use lay_base::{Name, NoMemory, Place, Rule, boxed, copied};
use std::alloc::Global;

/// What an operand of a type is that is not evaluated: it designates no object (C99 6.5.3.4).
pub fn unmade(alloc: Global, at: Place, t: &Ty) -> Result<Thing, Fault>
    ensures { Gives thing_of result (Ok (unmade_of at (type_of t.now))) }
{
    let ty = pointer_to(alloc, copy(alloc, t)?)?;
    let null = Expression {
        ty: plain(ty),
        place: at,
        node: ExpressionNode::Null,
    };
    let null = boxed(alloc, null)?;
    way(alloc, copy(alloc, t)?, at, PathNode::Deref(null))
}

/// What a name designates that stands for this.
#[tactic(auto, unfolding(c_erasure::specs::Checking::Nodes::named_in))]
fn entity(alloc: Global, at: Place, x: &[u8], it: &Entity) -> Result<Thing, Fault>
    ensures { Gives thing_of result (named_in at x.now (Some (entity_of it.now))) }
{
    match it {
        Entity::Typedef(_) => Err(Fault::IllTyped(Rule::Operands, at.at)),
        Entity::Enumerator(v) => {
            node(
                alloc,
                Ty::Int(IntKind::Int),
                at,
                ExpressionNode::Constant(*v),
            )
        }
        Entity::Object(n, t) => way(alloc, copy(alloc, t)?, at, PathNode::Object(*n)),
        Entity::Function(f, t) => Ok(Thing::Function(at, *f, copy(alloc, t)?)),
        Entity::LibraryFunction(which) => Ok(Thing::LibraryFunction(at, *which)),
        Entity::Local(n, t) => way(alloc, copy(alloc, t)?, at, PathNode::Named(*n)),
        Entity::Parameter(t) => unmade(alloc, at, t),
    }
}

/// Bytes as a name.
pub fn name(alloc: Global, x: &[u8]) -> Result<Name, NoMemory>
    ensures { IfOk result (λ it. it ≡ x.now) }
{
    let bytes = copied(alloc, x)?;
    Ok(Name::of(bytes))
}

/// What a name designates, which stands at a place (C99 6.5.1).
#[tactic(auto, unfolding(c_erasure::specs::Checking::Nodes::named_in))]
pub fn named(alloc: Global, at: Place, x: &[u8], it: Option<&Entity>) -> Result<Thing, Fault>
    ensures { Gives thing_of result (named_in at x.now (option_map entity_of (option_copied it.entry))) }
{
    match it {
        Some(it) => entity(alloc, at, x, it),
        None => Err(Fault::Undeclared(name(alloc, x)?, at.at)),
    }
}
