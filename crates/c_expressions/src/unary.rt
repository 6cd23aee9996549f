//! Unary expressions and casts (C99 6.5.3, 6.5.4).

ghost use Rattle.c_ast.specs.Views.{expression_of};
ghost use Rattle.c_cursor.specs.Gives.{Reads};
ghost use Rattle.c_grammar.specs.Reading.{at, cast_in, operand_in, pre_in, sizeof_in, unary_expression_in, unary_in};

use crate::level::Level;
use crate::means::{Means, Read};
use crate::postfix::postfix;
use crate::type_names::enclosed_type_name;
use crate::within::expression_inside;
use c_ast::{At, Expression, StepOp, UnaryOp};
use c_cursor::{Cursor, deeper_than};
use lay_base::{Boxed, Keyword, boxed};

/// What stands after a `++` or `--` before its operand.
#[cycle(expression)]
#[tactic(auto, unfolding(c_grammar::specs::Reading::pre_in))]
fn pre(by: Means, op: StepOp, place: At, tokens: &mut Cursor) -> Read<Boxed<Expression>>
    ensures { Reads expression_of result tokens.new (pre_in by.entry.inside (at by.entry.types.now by.entry.inside) op place tokens.old) }
{
    let (a, d) = expression_inside(by, Level::Unary, tokens)?;
    let d = deeper_than(by.inside, d, tokens)?;
    Ok((boxed(by.alloc, Expression::Pre(op, place, a))?, d))
}

/// What stands after a unary operator.
#[cycle(expression)]
#[tactic(auto, unfolding(c_grammar::specs::Reading::unary_in))]
fn unary(by: Means, op: UnaryOp, place: At, tokens: &mut Cursor) -> Read<Boxed<Expression>>
    ensures { Reads expression_of result tokens.new (unary_in by.entry.inside (at by.entry.types.now by.entry.inside) op place tokens.old) }
{
    let (a, d) = expression_inside(by, Level::Operand, tokens)?;
    let d = deeper_than(by.inside, d, tokens)?;
    Ok((boxed(by.alloc, Expression::Unary(op, place, a))?, d))
}

/// What stands after `sizeof`.
#[cycle(expression)]
#[tactic(auto, unfolding(c_grammar::specs::Reading::sizeof_in))]
fn sizeof(by: Means, place: At, tokens: &mut Cursor) -> Read<Boxed<Expression>>
    ensures { Reads expression_of result tokens.new (sizeof_in by.entry.types.now by.entry.inside (at by.entry.types.now by.entry.inside) place tokens.old) }
{
    if tokens.begins_type_name(by.types) {
        let ((left, name, right), d) = enclosed_type_name(by, tokens)?;
        let d = deeper_than(by.inside, d, tokens)?;
        Ok((
            boxed(by.alloc, Expression::SizeofType(place, left, name, right))?,
            d,
        ))
    } else {
        let (a, d) = expression_inside(by, Level::Unary, tokens)?;
        let d = deeper_than(by.inside, d, tokens)?;
        Ok((boxed(by.alloc, Expression::SizeofExpression(place, a))?, d))
    }
}

/// A cast.
#[cycle(expression)]
#[tactic(auto, unfolding(c_grammar::specs::Reading::cast_in))]
fn cast(by: Means, tokens: &mut Cursor) -> Read<Boxed<Expression>>
    ensures { Reads expression_of result tokens.new (cast_in by.entry.inside (at by.entry.types.now by.entry.inside) tokens.old) }
{
    let ((left, name, right), d) = enclosed_type_name(by, tokens)?;
    let (a, e) = expression_inside(by, Level::Operand, tokens)?;
    let d = deeper_than(by.inside, d.max(e), tokens)?;
    Ok((boxed(by.alloc, Expression::Cast(left, name, right, a))?, d))
}

/// A unary expression.
#[cycle(expression)]
#[tactic(auto, unfolding(c_grammar::specs::Reading::unary_expression_in))]
pub fn unary_expression(by: Means, tokens: &mut Cursor) -> Read<Boxed<Expression>>
    ensures { Reads expression_of result tokens.new (unary_expression_in by.entry.types.now by.entry.inside (at by.entry.types.now by.entry.inside) tokens.old) }
{
    if let Some(op) = tokens.step_at() {
        return pre(by, op, tokens.advance(), tokens);
    }
    if let Some(op) = tokens.unary_at() {
        return unary(by, op, tokens.advance(), tokens);
    }
    if tokens.peek_keyword(Keyword::Sizeof) {
        return sizeof(by, tokens.advance(), tokens);
    }
    postfix(by, tokens)
}

/// An operand of a binary operator: a cast, or a unary expression.
#[cycle(expression)]
#[tactic(auto, unfolding(c_grammar::specs::Reading::operand_in))]
pub fn operand(by: Means, tokens: &mut Cursor) -> Read<Boxed<Expression>>
    ensures { Reads expression_of result tokens.new (operand_in by.entry.types.now by.entry.inside (at by.entry.types.now by.entry.inside) tokens.old) }
{
    if tokens.begins_type_name(by.types) {
        cast(by, tokens)
    } else {
        unary_expression(by, tokens)
    }
}
