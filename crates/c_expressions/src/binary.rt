//! Binary operators (C99 6.5.5 to 6.5.14), by precedence climbing.

ghost use Rattle.c_ast.specs.Views.{expression_of};
ghost use Rattle.c_cursor.specs.Gives.{Reads, Steps};
ghost use Rattle.c_grammar.specs.Reading.{at, operator_step, operators_in};

use crate::level::Level;
use crate::means::{Means, Next, Read, all_by};
use crate::unary::operand;
use crate::within::expression_inside;
use c_ast::Expression;
use c_cursor::{Cursor, deeper_than, strength_of};
use lay_base::{Boxed, boxed};

/// One operator more with its second operand, if one of at least that strength stands at the front.
#[cycle(expression)]
#[tactic(auto, unfolding(c_grammar::specs::Reading::operator_step))]
fn operator(
    by: Means,
    least: u32,
    x: Boxed<Expression>,
    d: u32,
    tokens: &mut Cursor,
) -> Next<Boxed<Expression>>
    ensures { Steps expression_of result tokens.new (operator_step by.entry.inside (at by.entry.types.now by.entry.inside) least (expression_of x) d tokens.old) }
{
    match tokens.binary_at() {
        Some(op) => {
            let strength = strength_of(op);
            if strength < least {
                return Ok((x, d, false));
            }
            let place = tokens.advance();
            let level = Level::Operators(strength + 1);
            let (b, e) = expression_inside(by, level, tokens)?;
            let d = deeper_than(by.inside, d.max(e), tokens)?;
            Ok((
                boxed(by.alloc, Expression::Binary(x, op, place, b))?,
                d,
                true,
            ))
        }
        None => Ok((x, d, false)),
    }
}

/// Operands with binary operators of at least that strength between them.
#[cycle(expression)]
#[tactic(auto, using(c_grammar::proofs::Rounds::rounds), unfolding(c_grammar::specs::Reading::operators_in))]
pub fn operators(by: Means, least: u32, tokens: &mut Cursor) -> Read<Boxed<Expression>>
    ensures { Reads expression_of result tokens.new (operators_in by.entry.types.now by.entry.inside (at by.entry.types.now by.entry.inside) least tokens.old) }
{
    all_by!(operator(by, least), tokens; operand(by, tokens)?, by.inside as u64 + 1)
}
