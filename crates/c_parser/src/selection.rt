//! `if` (C99 6.8.4.1).

ghost use Rattle.c_ast.specs.Views.{statement_of};
ghost use Rattle.c_cursor.specs.Gives.{Reads};
ghost use Rattle.c_grammar.specs.StatementReading.{below_at, if_in, statement_at};

use crate::conditions::condition;
use crate::statements::statement_inside;
use c_ast::{At, Statement};
use c_cursor::{Cursor, deeper_than};
use c_expressions::{Means, Read};
use lay_base::{Keyword, boxed};

/// What stands after `if`.
#[cycle(statement)]
#[tactic(auto, unfolding(c_grammar::specs::StatementReading::if_in))]
pub fn selection(by: Means, place: At, tokens: &mut Cursor) -> Read<Statement>
    ensures { Reads statement_of result tokens.new (if_in by.entry.inside (below_at by.entry.types.now by.entry.inside (statement_at by.entry.types.now by.entry.inside)) place tokens.old) }
{
    let ((left, value, right), d) = condition(by, tokens)?;
    let (one, e) = statement_inside(by, tokens)?;
    let one = boxed(by.alloc, one)?;
    let d = d.max(e);
    match tokens.accept_keyword(Keyword::Else) {
        Some(otherwise) => {
            let (other, e) = statement_inside(by, tokens)?;
            let other = boxed(by.alloc, other)?;
            let d = deeper_than(by.inside, d.max(e), tokens)?;
            Ok((
                Statement::IfElse(place, left, value, right, one, otherwise, other),
                d,
            ))
        }
        None => {
            let d = deeper_than(by.inside, d, tokens)?;
            Ok((Statement::If(place, left, value, right, one), d))
        }
    }
}
