//! Loops (C99 6.8.5).

ghost use Rattle.c_ast.specs.Views.{for_start_of, statement_of};
ghost use Rattle.c_cursor.specs.Gives.{Reads};
ghost use Rattle.c_grammar.specs.StatementReading.{below_at, do_in, for_in, for_start_in, statement_at, while_in};

use crate::conditions::{condition, expression_before};
use crate::declarations::declaration;
use crate::statements::statement_inside;
use c_ast::{At, ForStart, Statement};
use c_cursor::{Cursor, deeper_than};
use c_expressions::{Means, Read};
use c_tokens::Punctuator;
use lay_base::{Keyword, boxed};

/// What stands after `while`.
#[cycle(statement)]
#[tactic(auto, unfolding(c_grammar::specs::StatementReading::while_in))]
pub fn while_loop(by: Means, place: At, tokens: &mut Cursor) -> Read<Statement>
    ensures { Reads statement_of result tokens.new (while_in by.entry.inside (below_at by.entry.types.now by.entry.inside (statement_at by.entry.types.now by.entry.inside)) place tokens.old) }
{
    let ((left, value, right), d) = condition(by, tokens)?;
    let (body, e) = statement_inside(by, tokens)?;
    let body = boxed(by.alloc, body)?;
    let d = deeper_than(by.inside, d.max(e), tokens)?;
    Ok((Statement::While(place, left, value, right, body), d))
}

/// What stands after `do`.
#[cycle(statement)]
#[tactic(auto, unfolding(c_grammar::specs::StatementReading::do_in))]
pub fn do_loop(by: Means, place: At, tokens: &mut Cursor) -> Read<Statement>
    ensures { Reads statement_of result tokens.new (do_in by.entry.inside (below_at by.entry.types.now by.entry.inside (statement_at by.entry.types.now by.entry.inside)) place tokens.old) }
{
    let (body, d) = statement_inside(by, tokens)?;
    let body = boxed(by.alloc, body)?;
    let test = tokens.expect_keyword(Keyword::While)?;
    let ((left, value, right), e) = condition(by, tokens)?;
    let semicolon = tokens.expect(Punctuator::Semicolon)?;
    let d = deeper_than(by.inside, d.max(e), tokens)?;
    Ok((
        Statement::DoWhile(place, body, test, left, value, right, semicolon),
        d,
    ))
}

/// What stands first in the parentheses of a `for`.
#[tactic(auto, unfolding(c_grammar::specs::StatementReading::for_start_in))]
fn start(by: Means, tokens: &mut Cursor) -> Read<ForStart>
    ensures { Reads for_start_of result tokens.new (for_start_in (below_at by.entry.types.now by.entry.inside (statement_at by.entry.types.now by.entry.inside)) tokens.old) }
{
    if tokens.begins_specifier(by.types) {
        let (declaration, d) = declaration(by, true, tokens)?;
        Ok((ForStart::Declaration(declaration), d))
    } else {
        let (value, d) = expression_before(by, Punctuator::Semicolon, tokens)?;
        let semicolon = tokens.expect(Punctuator::Semicolon)?;
        Ok((ForStart::Expression(value, semicolon), d))
    }
}

/// What stands after `for`.
#[cycle(statement)]
#[tactic(auto, unfolding(c_grammar::specs::StatementReading::for_in))]
pub fn for_loop(by: Means, place: At, tokens: &mut Cursor) -> Read<Statement>
    ensures { Reads statement_of result tokens.new (for_in by.entry.inside (below_at by.entry.types.now by.entry.inside (statement_at by.entry.types.now by.entry.inside)) place tokens.old) }
{
    let left = tokens.expect(Punctuator::Open)?;
    let (start, d) = start(by, tokens)?;
    let (test, e) = expression_before(by, Punctuator::Semicolon, tokens)?;
    let semicolon = tokens.expect(Punctuator::Semicolon)?;
    let (step, f) = expression_before(by, Punctuator::Close, tokens)?;
    let right = tokens.expect(Punctuator::Close)?;
    let (body, g) = statement_inside(by, tokens)?;
    let body = boxed(by.alloc, body)?;
    let d = deeper_than(by.inside, d.max(e).max(f).max(g), tokens)?;
    Ok((
        Statement::For(place, left, start, test, semicolon, step, right, body),
        d,
    ))
}
