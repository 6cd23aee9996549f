//! Postfix expressions (C99 6.5.2).

ghost use Rattle.std.specs.Prelude.{◌+◌, [], length, map};
ghost use Rattle.c_ast.specs.Views.{argument_of, arguments_of, expression_of};
ghost use Rattle.c_cursor.specs.Gives.{Gives, Reads, Steps};
ghost use Rattle.c_grammar.specs.Reading.{argument_in, arrow_in, dot_in, arguments_in, at, call_in, chain, index_in, postfix_in, postfix_step, stepped_in};

use crate::level::Level;
use crate::means::{Means, Next, Read, all_by};
use crate::primary::primary;
use crate::within::expression_inside;
use c_ast::{Argument, At, Expression, StepOp};
use c_cursor::{Cursor, deeper_than};
use c_tokens::{Punctuator, TokenKind};
use lay_base::{Boxed, List, add, boxed};

/// One argument more, if `)` does not stand at the front.
#[cycle(expression)]
#[tactic(auto, unfolding(c_grammar::specs::Reading::argument_in))]
fn argument(by: Means, all: List<Argument>, d: u32, tokens: &mut Cursor) -> Next<List<Argument>>
    ensures { Steps (λ all. map argument_of all) result tokens.new (argument_in (at by.entry.types.now by.entry.inside) (map argument_of all) d tokens.old) }
{
    if tokens.peek(Punctuator::Close) {
        return Ok((all, d, false));
    }
    let comma = tokens.comma_before(&all)?;
    let (a, e) = expression_inside(by, Level::Assignment, tokens)?;
    let item = Argument {
        comma,
        value: a.into_inner(),
    };
    let mut all = all;
    add(&mut all, item)?;
    Ok((all, d.max(e), true))
}

/// The arguments up to `)`.
#[cycle(expression)]
#[tactic(auto, using(c_grammar::proofs::Rounds::rounds))]
fn argument_list(by: Means, tokens: &mut Cursor) -> Read<List<Argument>>
    ensures { Reads (λ all. map argument_of all) result tokens.new (chain (argument_in (at by.entry.types.now by.entry.inside)) (length tokens.old + 1) [] 0 tokens.old) }
{
    all_by!(argument(by), tokens; (List::new(by.alloc), 0), tokens.len() as u64 + 1)
}

/// The arguments after `(`, with the byte of `)`.
#[cycle(expression)]
#[tactic(auto, unfolding(c_grammar::specs::Reading::arguments_in))]
fn arguments(by: Means, tokens: &mut Cursor) -> Read<(List<Argument>, At)>
    ensures { Reads (λ x. (arguments_of (map argument_of x.0), x.1)) result tokens.new (arguments_in (at by.entry.types.now by.entry.inside) tokens.old) }
{
    let (all, d) = argument_list(by, tokens)?;
    let right = tokens.expect(Punctuator::Close)?;
    Ok(((all, right), d))
}

/// What stands after `[`.
#[cycle(expression)]
#[tactic(auto, unfolding(c_grammar::specs::Reading::index_in))]
fn index(
    by: Means,
    x: Boxed<Expression>,
    d: u32,
    left: At,
    tokens: &mut Cursor,
) -> Read<Boxed<Expression>>
    ensures { Reads expression_of result tokens.new (index_in by.entry.inside (at by.entry.types.now by.entry.inside) (expression_of x) d left tokens.old) }
{
    let (b, e) = expression_inside(by, Level::Expression, tokens)?;
    let right = tokens.expect(Punctuator::CloseSquare)?;
    let d = deeper_than(by.inside, d.max(e), tokens)?;
    Ok((boxed(by.alloc, Expression::Index(x, left, b, right))?, d))
}

/// What stands after the `(` of a call.
#[cycle(expression)]
#[tactic(auto, unfolding(c_grammar::specs::Reading::call_in))]
fn call(
    by: Means,
    f: Boxed<Expression>,
    d: u32,
    left: At,
    tokens: &mut Cursor,
) -> Read<Boxed<Expression>>
    ensures { Reads expression_of result tokens.new (call_in by.entry.inside (at by.entry.types.now by.entry.inside) (expression_of f) d left tokens.old) }
{
    let ((all, right), e) = arguments(by, tokens)?;
    let d = deeper_than(by.inside, d.max(e), tokens)?;
    Ok((boxed(by.alloc, Expression::Call(f, left, all, right))?, d))
}

/// An expression with `++` or `--` after it.
#[tactic(auto, unfolding(c_grammar::specs::Reading::stepped_in))]
fn stepped(
    by: Means,
    x: Boxed<Expression>,
    d: u32,
    op: StepOp,
    place: At,
    tokens: &mut Cursor,
) -> Read<Boxed<Expression>>
    ensures { Reads expression_of result tokens.new (stepped_in by.entry.inside (expression_of x) d op place tokens.old) }
{
    let d = deeper_than(by.inside, d, tokens)?;
    Ok((boxed(by.alloc, Expression::Post(x, op, place))?, d))
}

/// What stands after `.`.
#[tactic(auto, unfolding(c_grammar::specs::Reading::dot_in))]
fn dot(
    by: Means,
    x: Boxed<Expression>,
    d: u32,
    place: At,
    tokens: &mut Cursor,
) -> Read<Boxed<Expression>>
    ensures { Reads expression_of result tokens.new (dot_in by.entry.inside (expression_of x) d place tokens.old) }
{
    let name = tokens.any_name(by.alloc)?;
    let d = deeper_than(by.inside, d, tokens)?;
    Ok((boxed(by.alloc, Expression::Dot(x, place, name))?, d))
}

/// What stands after `->`.
#[tactic(auto, unfolding(c_grammar::specs::Reading::arrow_in))]
fn arrow(
    by: Means,
    x: Boxed<Expression>,
    d: u32,
    place: At,
    tokens: &mut Cursor,
) -> Read<Boxed<Expression>>
    ensures { Reads expression_of result tokens.new (arrow_in by.entry.inside (expression_of x) d place tokens.old) }
{
    let name = tokens.any_name(by.alloc)?;
    let d = deeper_than(by.inside, d, tokens)?;
    Ok((boxed(by.alloc, Expression::Arrow(x, place, name))?, d))
}

/// One suffix more, if one stands at the front.
#[cycle(expression)]
#[tactic(auto, unfolding(c_grammar::specs::Reading::postfix_step))]
fn suffix(by: Means, x: Boxed<Expression>, d: u32, tokens: &mut Cursor) -> Next<Boxed<Expression>>
    ensures { Steps expression_of result tokens.new (postfix_step by.entry.inside (at by.entry.types.now by.entry.inside) (expression_of x) d tokens.old) }
{
    let read = match tokens.front() {
        Some(TokenKind::Punctuator(Punctuator::OpenSquare)) => index(
            by,
            x,
            d,
            tokens.advance(),
            tokens,
        ),
        Some(TokenKind::Punctuator(Punctuator::Open)) => call(by, x, d, tokens.advance(), tokens),
        Some(TokenKind::Punctuator(Punctuator::Dot)) => dot(by, x, d, tokens.advance(), tokens),
        Some(TokenKind::Punctuator(Punctuator::Arrow)) => arrow(by, x, d, tokens.advance(), tokens),
        Some(TokenKind::Punctuator(Punctuator::PlusPlus)) => stepped(
            by,
            x,
            d,
            StepOp::Increment,
            tokens.advance(),
            tokens,
        ),
        Some(TokenKind::Punctuator(Punctuator::MinusMinus)) => stepped(
            by,
            x,
            d,
            StepOp::Decrement,
            tokens.advance(),
            tokens,
        ),
        _ => return Ok((x, d, false)),
    };
    let (x, d) = read?;
    Ok((x, d, true))
}

/// A postfix expression.
#[cycle(expression)]
#[tactic(auto, using(c_grammar::proofs::Rounds::rounds), unfolding(c_grammar::specs::Reading::postfix_in))]
pub fn postfix(by: Means, tokens: &mut Cursor) -> Read<Boxed<Expression>>
    ensures { Reads expression_of result tokens.new (postfix_in by.entry.types.now by.entry.inside (at by.entry.types.now by.entry.inside) tokens.old) }
{
    all_by!(suffix(by), tokens; primary(by, tokens)?, by.inside as u64 + 1)
}
