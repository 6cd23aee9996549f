//! Expressions and paths with numbers of types.

ghost use Rattle.std.specs.Prelude.{◌≡◌, IfOk, map};
ghost use Rattle.c_annotated.specs.Views.{expression_of as noted_expression, expressions_of as noted_expressions, node_of as noted_node};
ghost use Rattle.c_annotated.specs.Views.{path_node_of as noted_path_node, path_of as noted_path};
ghost use Rattle.c_numbered.specs.Numbered.{numbered};
ghost use Rattle.c_typed.specs.Mapped.{mapped, mapped_all, mapped_node, mapped_path, mapped_step};
ghost use Rattle.c_typed.specs.Views.{expression_of, expressions_of, node_of, path_node_of, path_of};

use c_annotated::Noted;
use c_numbers::TypeTable;
use c_typed::{Expression, ExpressionNode, Path, PathNode};
use lay_base::{Boxed, List, NoMemory, add, boxed, with_room};
use std::alloc::Global;

/// Where trees are made, and the table of the numbers of their types.
#[derive(Clone, Copy)]
pub struct Numbering<'a> {
    pub alloc: Global,
    pub types: &'a TypeTable,
}

#[cycle(expression_numbering)]
fn expression(by: Numbering, e: &Expression<Noted>) -> Result<Expression, NoMemory>
    ensures { IfOk result (λ r. expression_of r ≡ mapped (numbered by.entry.types.now) (noted_expression e.now)) }
{
    let ty = by.types.number(by.alloc, &e.ty.ty)?;
    let node = node(by, &e.node)?;
    Ok(Expression {
        ty,
        place: e.place,
        node,
    })
}

#[cycle(expression_numbering)]
fn node(by: Numbering, node: &ExpressionNode<Noted>) -> Result<ExpressionNode, NoMemory>
    ensures { IfOk result (λ r. node_of r ≡ mapped_node (numbered by.entry.types.now) (noted_node node.now)) }
{
    match node {
        ExpressionNode::Constant(v) => Ok(ExpressionNode::Constant(*v)),
        ExpressionNode::Null => Ok(ExpressionNode::Null),
        ExpressionNode::FunctionName(f) => Ok(ExpressionNode::FunctionName(*f)),
        ExpressionNode::Load(p) => Ok(ExpressionNode::Load(path(by, p)?)),
        ExpressionNode::AddressOf(p) => Ok(ExpressionNode::AddressOf(path(by, p)?)),
        ExpressionNode::Decay(p) => Ok(ExpressionNode::Decay(path(by, p)?)),
        ExpressionNode::Convert(x, written) => Ok(ExpressionNode::Convert(
            operand(by, x)?,
            *written,
        )),
        ExpressionNode::Unary(op, x) => Ok(ExpressionNode::Unary(*op, operand(by, x)?)),
        ExpressionNode::Binary(op, x, y) => Ok(ExpressionNode::Binary(
            *op,
            operand(by, x)?,
            operand(by, y)?,
        )),
        ExpressionNode::Compare(op, x, y) => Ok(ExpressionNode::Compare(
            *op,
            operand(by, x)?,
            operand(by, y)?,
        )),
        ExpressionNode::PointerAdd(op, x, y) => Ok(ExpressionNode::PointerAdd(
            *op,
            operand(by, x)?,
            operand(by, y)?,
        )),
        ExpressionNode::PointerDiff(x, y) => Ok(ExpressionNode::PointerDiff(
            operand(by, x)?,
            operand(by, y)?,
        )),
        ExpressionNode::And(x, y) => Ok(ExpressionNode::And(operand(by, x)?, operand(by, y)?)),
        ExpressionNode::Or(x, y) => Ok(ExpressionNode::Or(operand(by, x)?, operand(by, y)?)),
        ExpressionNode::Not(x) => Ok(ExpressionNode::Not(operand(by, x)?)),
        ExpressionNode::Cond(x, y, z) => Ok(ExpressionNode::Cond(
            operand(by, x)?,
            operand(by, y)?,
            operand(by, z)?,
        )),
        ExpressionNode::Comma(x, y) => Ok(ExpressionNode::Comma(operand(by, x)?, operand(by, y)?)),
        ExpressionNode::Assign(p, x) => Ok(ExpressionNode::Assign(path(by, p)?, operand(by, x)?)),
        ExpressionNode::AssignOp(op, p, x) => Ok(ExpressionNode::AssignOp(
            *op,
            path(by, p)?,
            operand(by, x)?,
        )),
        ExpressionNode::Step(op, before, p) => Ok(ExpressionNode::Step(*op, *before, path(by, p)?)),
        ExpressionNode::CopyRecord(p, from) => Ok(ExpressionNode::CopyRecord(
            path(by, p)?,
            path(by, from)?,
        )),
        ExpressionNode::Call(f, all) => Ok(ExpressionNode::Call(
            *f,
            expressions(by, all.as_slice())?,
        )),
        ExpressionNode::CallThrough(e, all) => Ok(ExpressionNode::CallThrough(
            operand(by, e)?,
            expressions(by, all.as_slice())?,
        )),
        ExpressionNode::Library(which, all) => Ok(ExpressionNode::Library(
            *which,
            expressions(by, all.as_slice())?,
        )),
        ExpressionNode::Allocate(r, count, zeroed) => match count {
            None => Ok(ExpressionNode::Allocate(*r, None, *zeroed)),
            Some(count) => Ok(ExpressionNode::Allocate(*r, Some(operand(by, count)?), *zeroed)),
        },
    }
}

#[cycle(expression_numbering)]
pub fn operand(by: Numbering, e: &Boxed<Expression<Noted>>) -> Result<Boxed<Expression>, NoMemory>
    ensures { IfOk result (λ r. expression_of r ≡ mapped (numbered by.entry.types.now) (noted_expression e.now)) }
{
    let e = expression(by, e.get())?;
    boxed(by.alloc, e)
}

#[cycle(expression_numbering)]
fn expressions(by: Numbering, all: &[Expression<Noted>]) -> Result<List<Expression>, NoMemory>
    ensures { IfOk result (λ r. expressions_of (map expression_of r) ≡ mapped_all (numbered by.entry.types.now) (noted_expressions (map noted_expression all.now))) }
{
    let mut done = with_room(by.alloc, all.len())?;
    for e in all {
        add(&mut done, expression(by, e)?)?;
    }
    Ok(done)
}

#[cycle(expression_numbering)]
pub fn path(by: Numbering, p: &Boxed<Path<Noted>>) -> Result<Boxed<Path>, NoMemory>
    ensures { IfOk result (λ r. path_of r ≡ mapped_path (numbered by.entry.types.now) (noted_path p.now)) }
{
    let Path { ty, place, node } = p.get();
    let ty = by.types.number(by.alloc, &ty.ty)?;
    let node = path_node(by, node)?;
    boxed(
        by.alloc,
        Path {
            ty,
            place: *place,
            node,
        },
    )
}

#[cycle(expression_numbering)]
fn path_node(by: Numbering, node: &PathNode<Noted>) -> Result<PathNode, NoMemory>
    ensures { IfOk result (λ r. path_node_of r ≡ mapped_step (numbered by.entry.types.now) (noted_path_node node.now)) }
{
    Ok(match node {
        PathNode::Named(n) => PathNode::Named(*n),
        PathNode::Object(n) => PathNode::Object(*n),
        PathNode::Deref(e) => PathNode::Deref(operand(by, e)?),
        PathNode::Index(e, i) => PathNode::Index(operand(by, e)?, operand(by, i)?),
        PathNode::Member(p, r, field) => PathNode::Member(path(by, p)?, *r, *field),
        PathNode::Element(p, i) => PathNode::Element(path(by, p)?, operand(by, i)?),
    })
}
