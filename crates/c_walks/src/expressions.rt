//! What stands at the nodes of expressions and paths.

ghost use Rattle.std.specs.Prelude.{◌≡◌, ◌++◌, OnOk, map};
ghost use Rattle.c_typed.specs.Addressed.{addressed, addressed_by_all, addressed_by_node, addressed_by_path, addressed_by_step, itself};
ghost use Rattle.c_typed.specs.References.{references, references_by_all, references_by_node, references_by_path, references_by_step};
ghost use Rattle.c_typed.specs.TreeViews.{expression_of, expressions_of, node_of, path_node_of, path_of};
ghost use Rattle.c_typed.specs.Walk.{types_in, types_in_all, types_in_node, types_in_path, types_in_step};
ghost use Rattle.c_walks.specs.NodeTypes.{references_in, taken_in, types_found};

use crate::nodes::{NodeType, Nodes, Reference};
use c_typed::{Expression, ExpressionNode, Path, PathNode};
use lay_base::NoMemory;

/// A local whose address is taken.
fn add_itself<'a, T: NodeType>(found: &mut Nodes<'a, T>, p: &'a Path<T>) -> Result<(), NoMemory>
    ensures types { OnOk result (types_found T.seen found.new ≡ types_found T.seen found.old) }
    ensures taken { OnOk result (taken_in found.new ≡ taken_in found.old ++ itself (path_of T.seen p.now)) }
    ensures references { OnOk result (references_in found.new ≡ references_in found.old) }
{
    match &p.node {
        PathNode::Named(n) => found.add_taken(*n),
        _ => Ok(()),
    }
}

#[cycle(walk)]
pub fn walk_expression<'a, T: NodeType>(
    found: &mut Nodes<'a, T>,
    e: &'a Expression<T>,
) -> Result<(), NoMemory>
    ensures types { OnOk result (types_found T.seen found.new ≡ types_found T.seen found.old ++ types_in (expression_of T.seen e.now)) }
    ensures taken { OnOk result (taken_in found.new ≡ taken_in found.old ++ addressed (expression_of T.seen e.now)) }
    ensures references { OnOk result (references_in found.new ≡ references_in found.old ++ references (expression_of T.seen e.now)) }
{
    walk_node(found, &e.node)?;
    found.add_type(&e.ty)
}

#[cycle(walk)]
fn walk_node<'a, T: NodeType>(
    found: &mut Nodes<'a, T>,
    node: &'a ExpressionNode<T>,
) -> Result<(), NoMemory>
    ensures types { OnOk result (types_found T.seen found.new ≡ types_found T.seen found.old ++ types_in_node (node_of T.seen node.now)) }
    ensures taken { OnOk result (taken_in found.new ≡ taken_in found.old ++ addressed_by_node (node_of T.seen node.now)) }
    ensures references { OnOk result (references_in found.new ≡ references_in found.old ++ references_by_node (node_of T.seen node.now)) }
{
    match node {
        ExpressionNode::Constant(_) | ExpressionNode::Null => Ok(()),
        ExpressionNode::FunctionName(f) => found.add_reference(Reference::Function(*f)),
        ExpressionNode::Load(p) | ExpressionNode::Decay(p) | ExpressionNode::Step(_, _, p) => {
            walk_path(found, p.get())
        }
        ExpressionNode::AddressOf(p) => {
            add_itself(found, p.get())?;
            walk_path(found, p.get())
        }
        ExpressionNode::Convert(x, _) | ExpressionNode::Unary(_, x) | ExpressionNode::Not(x) => {
            walk_expression(found, x.get())
        }
        ExpressionNode::Binary(_, x, y)
        | ExpressionNode::Compare(_, x, y)
        | ExpressionNode::PointerAdd(_, x, y)
        | ExpressionNode::PointerDiff(x, y)
        | ExpressionNode::And(x, y)
        | ExpressionNode::Or(x, y)
        | ExpressionNode::Comma(x, y) => {
            walk_expression(found, x.get())?;
            walk_expression(found, y.get())
        }
        ExpressionNode::Cond(x, y, z) => {
            walk_expression(found, x.get())?;
            walk_expression(found, y.get())?;
            walk_expression(found, z.get())
        }
        ExpressionNode::Assign(p, x) | ExpressionNode::AssignOp(_, p, x) => {
            walk_path(found, p.get())?;
            walk_expression(found, x.get())
        }
        ExpressionNode::CopyRecord(p, from) => {
            walk_path(found, p.get())?;
            walk_path(found, from.get())
        }
        ExpressionNode::Call(f, all) => {
            found.add_reference(Reference::Function(*f))?;
            walk_all(found, all.as_slice())
        }
        ExpressionNode::Library(_, all) => walk_all(found, all.as_slice()),
        ExpressionNode::CallThrough(x, all) => {
            walk_expression(found, x.get())?;
            walk_all(found, all.as_slice())
        }
        ExpressionNode::Allocate(_, count, _) => match count {
            None => Ok(()),
            Some(count) => walk_expression(found, count.get()),
        },
    }
}

#[cycle(walk)]
pub fn walk_path<'a, T: NodeType>(found: &mut Nodes<'a, T>, p: &'a Path<T>) -> Result<(), NoMemory>
    ensures types { OnOk result (types_found T.seen found.new ≡ types_found T.seen found.old ++ types_in_path (path_of T.seen p.now)) }
    ensures taken { OnOk result (taken_in found.new ≡ taken_in found.old ++ addressed_by_path (path_of T.seen p.now)) }
    ensures references { OnOk result (references_in found.new ≡ references_in found.old ++ references_by_path (path_of T.seen p.now)) }
{
    walk_step(found, &p.node)?;
    found.add_type(&p.ty)
}

#[cycle(walk)]
fn walk_step<'a, T: NodeType>(
    found: &mut Nodes<'a, T>,
    step: &'a PathNode<T>,
) -> Result<(), NoMemory>
    ensures types { OnOk result (types_found T.seen found.new ≡ types_found T.seen found.old ++ types_in_step (path_node_of T.seen step.now)) }
    ensures taken { OnOk result (taken_in found.new ≡ taken_in found.old ++ addressed_by_step (path_node_of T.seen step.now)) }
    ensures references { OnOk result (references_in found.new ≡ references_in found.old ++ references_by_step (path_node_of T.seen step.now)) }
{
    match step {
        PathNode::Named(_) => Ok(()),
        PathNode::Object(n) => found.add_reference(Reference::Object(*n)),
        PathNode::Deref(e) => walk_expression(found, e.get()),
        PathNode::Index(e, i) => {
            walk_expression(found, e.get())?;
            walk_expression(found, i.get())
        }
        PathNode::Member(p, _, _) => walk_path(found, p.get()),
        PathNode::Element(p, i) => {
            walk_path(found, p.get())?;
            walk_expression(found, i.get())
        }
    }
}

#[cycle(walk)]
fn walk_all<'a, T: NodeType>(
    found: &mut Nodes<'a, T>,
    all: &'a [Expression<T>],
) -> Result<(), NoMemory>
    ensures types { OnOk result (types_found T.seen found.new ≡ types_found T.seen found.old ++ types_in_all (expressions_of (map (expression_of T.seen) all.now))) }
    ensures taken { OnOk result (taken_in found.new ≡ taken_in found.old ++ addressed_by_all (expressions_of (map (expression_of T.seen) all.now))) }
    ensures references { OnOk result (references_in found.new ≡ references_in found.old ++ references_by_all (expressions_of (map (expression_of T.seen) all.now))) }
{
    for e in all {
        walk_expression(found, e)?;
    }
    Ok(())
}
