//! Expressions in statements.

ghost use Rattle.std.specs.Option.{option_map};
ghost use Rattle.c_ast.specs.Views.{expression_of};
ghost use Rattle.c_cursor.specs.Gives.{Reads};
ghost use Rattle.c_grammar.specs.Reading.{at, is_punctuator};
ghost use Rattle.c_grammar.specs.StatementReading.{condition_in, expression_if_any};

use c_ast::{At, Expression};
use c_cursor::Cursor;
use c_expressions::{Level, Means, Read, expression_inside};
use c_tokens::Punctuator;
use lay_base::Boxed;

/// An expression before that punctuator, or none.
#[tactic(auto, unfolding(c_grammar::specs::StatementReading::expression_if_any))]
pub fn expression_before(
    by: Means,
    end: Punctuator,
    tokens: &mut Cursor,
) -> Read<Option<Boxed<Expression>>>
    ensures { Reads (λ a. option_map expression_of a) result tokens.new (expression_if_any (is_punctuator end) ((at by.entry.types.now by.entry.inside).expression) tokens.old) }
{
    if tokens.peek(end) {
        return Ok((None, 0));
    }
    let (value, d) = expression_inside(by, Level::Expression, tokens)?;
    Ok((Some(value), d))
}

/// `(` expression `)`
#[tactic(auto, unfolding(c_grammar::specs::StatementReading::condition_in))]
pub fn condition(by: Means, tokens: &mut Cursor) -> Read<(At, Boxed<Expression>, At)>
    ensures { Reads (λ x. (x.0, expression_of x.1, x.2)) result tokens.new (condition_in ((at by.entry.types.now by.entry.inside).expression) tokens.old) }
{
    let left = tokens.expect(Punctuator::Open)?;
    let (value, d) = expression_inside(by, Level::Expression, tokens)?;
    let right = tokens.expect(Punctuator::Close)?;
    Ok(((left, value, right), d))
}
