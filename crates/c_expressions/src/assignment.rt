//! Conditional expressions, assignments and the comma (C99 6.5.15 to 6.5.17).

ghost use Rattle.c_ast.specs.Views.{expression_of};
ghost use Rattle.c_cursor.specs.Gives.{Reads, Steps};
ghost use Rattle.c_grammar.specs.Reading.{assignment_after, assignment_in, at, chosen_in, comma_step, conditional_in, expression_in};

use crate::binary::operators;
use crate::level::Level;
use crate::means::{Means, Next, Read, all_by};
use crate::within::expression_inside;
use c_ast::{At, Expression};
use c_cursor::{Cursor, deeper_than, level_of};
use c_tokens::Punctuator;
use lay_base::{Boxed, boxed};

/// What stands after `?`.
#[cycle(expression)]
#[tactic(auto, unfolding(c_grammar::specs::Reading::chosen_in))]
fn chosen(
    by: Means,
    a: Boxed<Expression>,
    d: u32,
    question: At,
    tokens: &mut Cursor,
) -> Read<Boxed<Expression>>
    ensures { Reads expression_of result tokens.new (chosen_in by.entry.inside (at by.entry.types.now by.entry.inside) (expression_of a) d question tokens.old) }
{
    let (b, e) = expression_inside(by, Level::Expression, tokens)?;
    let colon = tokens.expect(Punctuator::Colon)?;
    let (c, f) = expression_inside(by, Level::Conditional, tokens)?;
    let d = deeper_than(by.inside, d.max(e).max(f), tokens)?;
    Ok((
        boxed(by.alloc, Expression::Cond(a, question, b, colon, c))?,
        d,
    ))
}

/// A conditional expression.
#[cycle(expression)]
#[tactic(auto, unfolding(c_grammar::specs::Reading::conditional_in))]
pub fn conditional(by: Means, tokens: &mut Cursor) -> Read<Boxed<Expression>>
    ensures { Reads expression_of result tokens.new (conditional_in by.entry.types.now by.entry.inside (at by.entry.types.now by.entry.inside) tokens.old) }
{
    let (a, d) = operators(by, 3, tokens)?;
    match tokens.accept(Punctuator::Question) {
        Some(question) => {
            let (x, d) = chosen(by, a, d, question, tokens)?;
            Ok((x, d))
        }
        None => Ok((a, d)),
    }
}

/// An assignment operator with what is assigned, if one stands at the front.
#[cycle(expression)]
#[tactic(auto, unfolding(c_grammar::specs::Reading::assignment_after))]
fn assigned(by: Means, a: Boxed<Expression>, d: u32, tokens: &mut Cursor) -> Read<Boxed<Expression>>
    ensures { Reads expression_of result tokens.new (assignment_after by.entry.inside (at by.entry.types.now by.entry.inside) (expression_of a) d tokens.old) }
{
    match tokens.assign_at() {
        Some(op) => {
            if level_of(a.get()) < 14 {
                return Err(tokens.stop());
            }
            let place = tokens.advance();
            let (b, e) = expression_inside(by, Level::Assignment, tokens)?;
            let d = deeper_than(by.inside, d.max(e), tokens)?;
            Ok((boxed(by.alloc, Expression::Assign(a, op, place, b))?, d))
        }
        None => Ok((a, d)),
    }
}

/// An assignment expression.
#[cycle(expression)]
#[tactic(auto, unfolding(c_grammar::specs::Reading::assignment_in))]
pub fn assignment(by: Means, tokens: &mut Cursor) -> Read<Boxed<Expression>>
    ensures { Reads expression_of result tokens.new (assignment_in by.entry.types.now by.entry.inside (at by.entry.types.now by.entry.inside) tokens.old) }
{
    let (a, d) = conditional(by, tokens)?;
    let (x, d) = assigned(by, a, d, tokens)?;
    Ok((x, d))
}

/// One comma more with its second operand, if one stands at the front.
#[cycle(expression)]
#[tactic(auto, unfolding(c_grammar::specs::Reading::comma_step))]
fn comma(by: Means, x: Boxed<Expression>, d: u32, tokens: &mut Cursor) -> Next<Boxed<Expression>>
    ensures { Steps expression_of result tokens.new (comma_step by.entry.inside (at by.entry.types.now by.entry.inside) (expression_of x) d tokens.old) }
{
    match tokens.accept(Punctuator::Comma) {
        Some(place) => {
            let (b, e) = expression_inside(by, Level::Assignment, tokens)?;
            let d = deeper_than(by.inside, d.max(e), tokens)?;
            Ok((boxed(by.alloc, Expression::Comma(x, place, b))?, d, true))
        }
        None => Ok((x, d, false)),
    }
}

/// An expression.
#[cycle(expression)]
#[tactic(auto, using(c_grammar::proofs::Rounds::rounds), unfolding(c_grammar::specs::Reading::expression_in))]
pub fn expression(by: Means, tokens: &mut Cursor) -> Read<Boxed<Expression>>
    ensures { Reads expression_of result tokens.new (expression_in by.entry.types.now by.entry.inside (at by.entry.types.now by.entry.inside) tokens.old) }
{
    all_by!(comma(by), tokens; assignment(by, tokens)?, by.inside as u64 + 1)
}
