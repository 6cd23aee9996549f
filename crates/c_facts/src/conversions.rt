//! The facts of conversions.

ghost use Rattle.c_typed.specs.Views.{expression_of};
ghost use Rattle.c_facts.specs.Facts.{converted, of_conversion};
ghost use Rattle.c_facts.specs.Puts.{Puts};

use crate::fact::Fact;
use crate::found::{Found, put};
use c_typed::{Expression, ExpressionNode, LibraryFunction, TypeId};

fn put_converted(found: &mut Found, to: TypeId, e: &Expression)
    ensures { Puts found.old found.new (converted to (expression_of e.now)) }
{
    match &e.node {
        ExpressionNode::Null => {}
        _ => put(found, Fact::Converted(e.ty, to, e.place)),
    }
}

/// Adds that an expression is converted, or passed by that to a function of the library.
pub fn put_conversion(found: &mut Found, which: Option<LibraryFunction>, to: TypeId, e: &Expression)
    ensures { Puts found.old found.new (of_conversion which to (expression_of e.now)) }
{
    match which {
        None => put_converted(found, to, e),
        Some(which) => put(found, Fact::Passed(which, e.ty, e.place)),
    }
}
