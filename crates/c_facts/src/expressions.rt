//! The facts of expressions and paths.

ghost use Rattle.std.specs.Prelude.{map};
ghost use Rattle.c_typed.specs.Views.{expression_of, expressions_of, path_of};
ghost use Rattle.c_facts.specs.Facts.{facts_by_all, facts_by_expression, facts_by_path};
ghost use Rattle.c_facts.specs.Puts.{Puts};

use crate::contexts::{Context, is_free, is_permitted, passes, permitted_if};
use crate::conversions::put_conversion;
use crate::fact::Fact;
use crate::fields::{put_site, put_taken};
use crate::found::{Found, put, put_unless};
use crate::variables::{is_made, is_making, is_null_test, is_object, is_variable};
use c_typed::{Expression, ExpressionNode, Path, PathNode};

/// Adds the facts of an expression that stands there.
#[cycle(fact_walk)]
pub fn expression(found: &mut Found, context: Context, e: &Expression)
    ensures { Puts found.old found.new (facts_by_expression context (expression_of e.now)) }
{
    put_unless(found, is_permitted(context), Fact::Value(e.ty));
    match &e.node {
        ExpressionNode::Constant(_) | ExpressionNode::Null => {}
        ExpressionNode::FunctionName(_) => put(found, Fact::Function(e.ty, e.place)),
        ExpressionNode::Load(p) => {
            put_site(found, true, p.get());
            path(found, false, p.get());
        }
        ExpressionNode::AddressOf(p) => {
            put(found, Fact::Value(p.get().ty));
            put_taken(found, p.get());
            put_site(found, false, p.get());
            path(found, false, p.get());
        }
        ExpressionNode::Decay(p) => {
            put_taken(found, p.get());
            put_site(found, false, p.get());
            path(found, false, p.get());
        }
        ExpressionNode::Convert(x, written) => {
            let which = passes(context, *written);
            put_conversion(found, which, e.ty, x.get());
            let within = permitted_if(is_free(which) && is_variable(x.get()));
            expression(found, within, x.get());
        }
        ExpressionNode::Unary(_, x) => expression(found, Context::Plain, x.get()),
        ExpressionNode::Not(x) => expression(found, permitted_if(is_variable(x.get())), x.get()),
        ExpressionNode::Binary(_, x, y)
        | ExpressionNode::PointerAdd(_, x, y)
        | ExpressionNode::PointerDiff(x, y) => {
            expression(found, Context::Plain, x.get());
            expression(found, Context::Plain, y.get());
        }
        ExpressionNode::Compare(op, x, y) => {
            let within = permitted_if(is_null_test(*op, x.get(), y.get()));
            expression(found, within, x.get());
            expression(found, within, y.get());
        }
        ExpressionNode::And(x, y) | ExpressionNode::Or(x, y) => {
            expression(found, permitted_if(is_variable(x.get())), x.get());
            expression(found, permitted_if(is_variable(y.get())), y.get());
        }
        ExpressionNode::Cond(x, y, z) => {
            expression(found, permitted_if(is_variable(x.get())), x.get());
            expression(found, Context::Plain, y.get());
            expression(found, Context::Plain, z.get());
        }
        ExpressionNode::Comma(x, y) => {
            expression(found, permitted_if(is_making(x.get())), x.get());
            expression(found, Context::Plain, y.get());
        }
        ExpressionNode::Assign(p, x) => {
            put_site(found, false, p.get());
            path(found, false, p.get());
            let within = permitted_if(is_object(p.get()) && is_made(x.get()));
            expression(found, within, x.get());
        }
        ExpressionNode::AssignOp(_, p, x) => {
            put_site(found, true, p.get());
            path(found, false, p.get());
            expression(found, Context::Plain, x.get());
        }
        ExpressionNode::Step(_, _, p) => {
            put_site(found, true, p.get());
            path(found, false, p.get());
        }
        ExpressionNode::CopyRecord(to, from) => {
            put(found, Fact::Copied(to.get().ty, e.place));
            put_site(found, false, to.get());
            path(found, false, to.get());
            put_site(found, true, from.get());
            path(found, false, from.get());
        }
        ExpressionNode::Call(_, all) => expressions(found, Context::Plain, all.as_slice()),
        ExpressionNode::CallThrough(x, all) => {
            expression(found, Context::Plain, x.get());
            expressions(found, Context::Plain, all.as_slice());
        }
        ExpressionNode::Library(which, all) => {
            expressions(found, Context::Argument(*which), all.as_slice());
        }
        ExpressionNode::Allocate(_, count, _) => match count {
            None => {}
            Some(count) => expression(found, Context::Plain, count.get()),
        },
    }
}

#[cycle(fact_walk)]
fn expressions(found: &mut Found, context: Context, all: &[Expression])
    ensures { Puts found.old found.new (facts_by_all context (expressions_of (map expression_of all.now))) }
{
    for e in all {
        expression(found, context, e);
    }
}

/// Adds the facts of the parts of a path, of which a field is taken or not.
#[cycle(fact_walk)]
pub fn path(found: &mut Found, under: bool, p: &Path)
    ensures { Puts found.old found.new (facts_by_path under (path_of p.now)) }
{
    match &p.node {
        PathNode::Named(_) | PathNode::Object(_) => {}
        PathNode::Deref(e) => expression(found, Context::Plain, e.get()),
        PathNode::Index(e, i) => {
            expression(found, permitted_if(under && is_variable(e.get())), e.get());
            expression(found, Context::Plain, i.get());
        }
        PathNode::Member(p, _, _) => path(found, true, p.get()),
        PathNode::Element(p, i) => {
            path(found, false, p.get());
            expression(found, Context::Plain, i.get());
        }
    }
}
