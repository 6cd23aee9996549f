//! Expressions and paths changed where they stand.

ghost use Rattle.std.specs.Prelude.{◌≡◌, ◌++◌, OnOk, map};
ghost use Rattle.std.specs.Option.{option_map};
ghost use Rattle.c_typed.specs.Changed.{changed, changed_all, changed_parts, changed_path, changed_step};
ghost use Rattle.c_typed.specs.Gathered.{gathered, gathered_from_all, gathered_from_optional, gathered_from_parts, gathered_from_path, gathered_from_step};
ghost use Rattle.c_typed.specs.TreeViews.{expression_of, expressions_of, node_of, path_node_of, path_of};

use crate::change::Change;
use c_typed::{Expression, ExpressionNode, Path, PathNode};
use lay_base::{Boxed, List};

/// Changes an expression.
#[cycle(change)]
pub fn change_expression<T, K, C: Change<T, K>>(
    by: &C,
    kept: &mut K,
    e: &mut Expression<T>,
) -> Result<(), C::Error>
    ensures tree { OnOk result (expression_of C.seen e.new ≡ changed (C.change by.now) (expression_of C.seen e.old)) }
    ensures kept { OnOk result (C.held kept.new ≡ C.held kept.old ++ gathered (C.own by.now) (expression_of C.seen e.old)) }
{
    by.keep(kept, e)?;
    change_parts(by, kept, &mut e.node)?;
    by.expression(e)
}

#[cycle(change)]
#[tactic(auto, using(crate::proofs::ChangedParts::count_changed, crate::proofs::ChangedParts::count_gathered))]
fn change_parts<T, K, C: Change<T, K>>(
    by: &C,
    kept: &mut K,
    node: &mut ExpressionNode<T>,
) -> Result<(), C::Error>
    ensures tree { OnOk result (node_of C.seen node.new ≡ changed_parts (C.change by.now) (node_of C.seen node.old)) }
    ensures kept { OnOk result (C.held kept.new ≡ C.held kept.old ++ gathered_from_parts (C.own by.now) (node_of C.seen node.old)) }
{
    match node {
        ExpressionNode::Constant(_) | ExpressionNode::Null | ExpressionNode::FunctionName(_) => {
            Ok(())
        }
        ExpressionNode::Load(p) => change_path(by, kept, p.get_mut()),
        ExpressionNode::AddressOf(p) => change_path(by, kept, p.get_mut()),
        ExpressionNode::Decay(p) => change_path(by, kept, p.get_mut()),
        ExpressionNode::Step(_, _, p) => change_path(by, kept, p.get_mut()),
        ExpressionNode::Convert(x, _) => change_expression(by, kept, x.get_mut()),
        ExpressionNode::Unary(_, x) => change_expression(by, kept, x.get_mut()),
        ExpressionNode::Not(x) => change_expression(by, kept, x.get_mut()),
        ExpressionNode::Binary(_, x, y) => {
            change_expression(by, kept, x.get_mut())?;
            change_expression(by, kept, y.get_mut())
        }
        ExpressionNode::Compare(_, x, y) => {
            change_expression(by, kept, x.get_mut())?;
            change_expression(by, kept, y.get_mut())
        }
        ExpressionNode::PointerAdd(_, x, y) => {
            change_expression(by, kept, x.get_mut())?;
            change_expression(by, kept, y.get_mut())
        }
        ExpressionNode::PointerDiff(x, y) => {
            change_expression(by, kept, x.get_mut())?;
            change_expression(by, kept, y.get_mut())
        }
        ExpressionNode::And(x, y) => {
            change_expression(by, kept, x.get_mut())?;
            change_expression(by, kept, y.get_mut())
        }
        ExpressionNode::Or(x, y) => {
            change_expression(by, kept, x.get_mut())?;
            change_expression(by, kept, y.get_mut())
        }
        ExpressionNode::Comma(x, y) => {
            change_expression(by, kept, x.get_mut())?;
            change_expression(by, kept, y.get_mut())
        }
        ExpressionNode::Cond(x, y, z) => {
            change_expression(by, kept, x.get_mut())?;
            change_expression(by, kept, y.get_mut())?;
            change_expression(by, kept, z.get_mut())
        }
        ExpressionNode::Assign(p, x) => {
            change_path(by, kept, p.get_mut())?;
            change_expression(by, kept, x.get_mut())
        }
        ExpressionNode::AssignOp(_, p, x) => {
            change_path(by, kept, p.get_mut())?;
            change_expression(by, kept, x.get_mut())
        }
        ExpressionNode::CopyRecord(p, from) => {
            change_path(by, kept, p.get_mut())?;
            change_path(by, kept, from.get_mut())
        }
        ExpressionNode::Call(_, all) => change_all(by, kept, all),
        ExpressionNode::Library(_, all) => change_all(by, kept, all),
        ExpressionNode::CallThrough(x, all) => {
            change_expression(by, kept, x.get_mut())?;
            change_all(by, kept, all)
        }
        ExpressionNode::Allocate(_, count, _) => change_if_any(by, kept, count),
    }
}

/// Changes a path.
#[cycle(change)]
pub fn change_path<T, K, C: Change<T, K>>(
    by: &C,
    kept: &mut K,
    p: &mut Path<T>,
) -> Result<(), C::Error>
    ensures tree { OnOk result (path_of C.seen p.new ≡ changed_path (C.change by.now) (path_of C.seen p.old)) }
    ensures kept { OnOk result (C.held kept.new ≡ C.held kept.old ++ gathered_from_path (C.own by.now) (path_of C.seen p.old)) }
{
    change_step(by, kept, &mut p.node)?;
    by.path(p);
    Ok(())
}

#[cycle(change)]
fn change_step<T, K, C: Change<T, K>>(
    by: &C,
    kept: &mut K,
    step: &mut PathNode<T>,
) -> Result<(), C::Error>
    ensures tree { OnOk result (path_node_of C.seen step.new ≡ changed_step (C.change by.now) (path_node_of C.seen step.old)) }
    ensures kept { OnOk result (C.held kept.new ≡ C.held kept.old ++ gathered_from_step (C.own by.now) (path_node_of C.seen step.old)) }
{
    match step {
        PathNode::Named(_) | PathNode::Object(_) => Ok(()),
        PathNode::Deref(e) => change_expression(by, kept, e.get_mut()),
        PathNode::Index(e, i) => {
            change_expression(by, kept, e.get_mut())?;
            change_expression(by, kept, i.get_mut())
        }
        PathNode::Member(p, _, _) => change_path(by, kept, p.get_mut()),
        PathNode::Element(p, i) => {
            change_path(by, kept, p.get_mut())?;
            change_expression(by, kept, i.get_mut())
        }
    }
}

#[cycle(change)]
fn change_all<T, K, C: Change<T, K>>(
    by: &C,
    kept: &mut K,
    all: &mut List<Expression<T>>,
) -> Result<(), C::Error>
    ensures tree { OnOk result (expressions_of (map (expression_of C.seen) all.new) ≡ changed_all (C.change by.now) (expressions_of (map (expression_of C.seen) all.old))) }
    ensures kept { OnOk result (C.held kept.new ≡ C.held kept.old ++ gathered_from_all (C.own by.now) (expressions_of (map (expression_of C.seen) all.old))) }
{
    for e in all.as_mut_vec().iter_mut() {
        change_expression(by, kept, e)?;
    }
    Ok(())
}

/// Changes an expression, where there is one.
#[cycle(change)]
pub fn change_if_any<T, K, C: Change<T, K>>(
    by: &C,
    kept: &mut K,
    e: &mut Option<Boxed<Expression<T>>>,
) -> Result<(), C::Error>
    ensures tree { OnOk result (option_map (expression_of C.seen) e.new ≡ option_map (changed (C.change by.now)) (option_map (expression_of C.seen) e.old)) }
    ensures kept { OnOk result (C.held kept.new ≡ C.held kept.old ++ gathered_from_optional (C.own by.now) (option_map (expression_of C.seen) e.old)) }
{
    match e {
        None => Ok(()),
        Some(e) => change_expression(by, kept, e.get_mut()),
    }
}
