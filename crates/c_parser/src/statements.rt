//! Blocks, and statements by their first token (C99 6.8).

ghost use Rattle.std.specs.Prelude.{◌+◌, [], length, map};
ghost use Rattle.c_ast.specs.Views.{block_item_of, block_items_of, statement_of};
ghost use Rattle.c_cursor.specs.Gives.{Gives, Reads, Steps};
ghost use Rattle.c_grammar.specs.Reading.{chain};
ghost use Rattle.c_grammar.specs.StatementReading.{below_at, block_in, block_item_in, block_item_step, block_statement_in, evaluate_in};
ghost use Rattle.c_grammar.specs.StatementReading.{return_in, statement_at, statement_in};

use crate::conditions::expression_before;
use crate::declarations::declaration;
use crate::iteration::{do_loop, for_loop, while_loop};
use crate::loops::all_by;
use crate::selection::selection;
use crate::switches::switch;
use c_ast::{At, BlockItem, Statement};
use c_cursor::{Cursor, deeper_than};
use c_expressions::{Means, Next, Read};
use c_tokens::{Punctuator, TokenKind};
use lay_base::{Keyword, List, add};

/// An item of a block.
#[cycle(statement)]
#[tactic(auto, unfolding(c_grammar::specs::StatementReading::block_item_in))]
fn block_item(by: Means, tokens: &mut Cursor) -> Read<BlockItem>
    ensures { Reads block_item_of result tokens.new (block_item_in (below_at by.entry.types.now by.entry.inside (statement_at by.entry.types.now by.entry.inside)) tokens.old) }
{
    if tokens.begins_specifier(by.types) {
        let (declaration, d) = declaration(by, false, tokens)?;
        Ok((BlockItem::Declaration(declaration), d))
    } else {
        let (statement, d) = statement_inside(by, tokens)?;
        Ok((BlockItem::Statement(statement), d))
    }
}

/// One item of a block more, if `}` does not stand at the front.
#[cycle(statement)]
#[tactic(auto, unfolding(c_grammar::specs::StatementReading::block_item_step))]
fn next_block_item(
    by: Means,
    all: List<BlockItem>,
    d: u32,
    tokens: &mut Cursor,
) -> Next<List<BlockItem>>
    ensures { Steps (λ all. map block_item_of all) result tokens.new
        (block_item_step (below_at by.entry.types.now by.entry.inside (statement_at by.entry.types.now by.entry.inside)) (map block_item_of all) d tokens.old) }
{
    if tokens.peek(Punctuator::CloseBrace) {
        return Ok((all, d, false));
    }
    let (item, e) = block_item(by, tokens)?;
    let mut all = all;
    add(&mut all, item)?;
    Ok((all, d.max(e), true))
}

/// The items of a block up to `}`.
#[cycle(statement)]
#[tactic(auto, using(c_grammar::proofs::Rounds::rounds))]
fn block_items(by: Means, tokens: &mut Cursor) -> Read<List<BlockItem>>
    ensures { Reads (λ all. map block_item_of all) result tokens.new
        (chain (block_item_step (below_at by.entry.types.now by.entry.inside (statement_at by.entry.types.now by.entry.inside))) (length tokens.old + 1) [] 0 tokens.old) }
{
    all_by!(next_block_item, by, tokens, List::new(by.alloc), 0)
}

/// A block, from after `{` on, with the byte of its `}`.
#[cycle(statement)]
#[tactic(auto, unfolding(c_grammar::specs::StatementReading::block_in))]
pub fn block(by: Means, tokens: &mut Cursor) -> Read<(List<BlockItem>, At)>
    ensures { Reads (λ x. (block_items_of (map block_item_of x.0), x.1)) result tokens.new
        (block_in (below_at by.entry.types.now by.entry.inside (statement_at by.entry.types.now by.entry.inside)) tokens.old) }
{
    let (items, d) = block_items(by, tokens)?;
    let right = tokens.expect(Punctuator::CloseBrace)?;
    Ok(((items, right), d))
}

/// What stands after `return`.
#[tactic(auto, unfolding(c_grammar::specs::StatementReading::return_in))]
fn return_statement(by: Means, place: At, tokens: &mut Cursor) -> Read<Statement>
    ensures { Reads statement_of result tokens.new (return_in by.entry.inside (below_at by.entry.types.now by.entry.inside (statement_at by.entry.types.now by.entry.inside)) place tokens.old) }
{
    let (value, d) = expression_before(by, Punctuator::Semicolon, tokens)?;
    let semicolon = tokens.expect(Punctuator::Semicolon)?;
    let d = deeper_than(by.inside, d, tokens)?;
    Ok((Statement::Return(place, value, semicolon), d))
}

/// An expression or none, before `;`.
#[tactic(auto, unfolding(c_grammar::specs::StatementReading::evaluate_in))]
fn expression_statement(by: Means, tokens: &mut Cursor) -> Read<Statement>
    ensures { Reads statement_of result tokens.new (evaluate_in by.entry.inside (below_at by.entry.types.now by.entry.inside (statement_at by.entry.types.now by.entry.inside)) tokens.old) }
{
    let (value, d) = expression_before(by, Punctuator::Semicolon, tokens)?;
    let semicolon = tokens.expect(Punctuator::Semicolon)?;
    let d = deeper_than(by.inside, d, tokens)?;
    Ok((Statement::Expression(value, semicolon), d))
}

/// A block as a statement, from after `{` on.
#[cycle(statement)]
#[tactic(auto, unfolding(c_grammar::specs::StatementReading::block_statement_in))]
fn block_statement(by: Means, left: At, tokens: &mut Cursor) -> Read<Statement>
    ensures { Reads statement_of result tokens.new (block_statement_in by.entry.inside (below_at by.entry.types.now by.entry.inside (statement_at by.entry.types.now by.entry.inside)) left tokens.old) }
{
    let ((items, right), d) = block(by, tokens)?;
    let d = deeper_than(by.inside, d, tokens)?;
    Ok((Statement::Block(left, items, right), d))
}

/// A statement by its first token.
#[cycle(statement)]
#[tactic(auto, unfolding(c_grammar::specs::StatementReading::statement_in, c_grammar::specs::StatementReading::jump_in))]
fn statement(by: Means, tokens: &mut Cursor) -> Read<Statement>
    ensures { Reads statement_of result tokens.new (statement_in by.entry.inside (below_at by.entry.types.now by.entry.inside (statement_at by.entry.types.now by.entry.inside)) tokens.old) }
{
    let Some(kind) = tokens.front() else {
        return Err(tokens.stop());
    };
    match kind {
        TokenKind::Keyword(Keyword::If) => selection(by, tokens.advance(), tokens),
        TokenKind::Keyword(Keyword::While) => while_loop(by, tokens.advance(), tokens),
        TokenKind::Keyword(Keyword::Do) => do_loop(by, tokens.advance(), tokens),
        TokenKind::Keyword(Keyword::For) => for_loop(by, tokens.advance(), tokens),
        TokenKind::Keyword(Keyword::Switch) => switch(by, tokens.advance(), tokens),
        TokenKind::Keyword(Keyword::Break) => {
            let place = tokens.advance();
            let semicolon = tokens.expect(Punctuator::Semicolon)?;
            Ok((Statement::Break(place, semicolon), 1))
        }
        TokenKind::Keyword(Keyword::Continue) => {
            let place = tokens.advance();
            let semicolon = tokens.expect(Punctuator::Semicolon)?;
            Ok((Statement::Continue(place, semicolon), 1))
        }
        TokenKind::Keyword(Keyword::Return) => return_statement(by, tokens.advance(), tokens),
        TokenKind::Punctuator(Punctuator::OpenBrace) => block_statement(
            by,
            tokens.advance(),
            tokens,
        ),
        _ => expression_statement(by, tokens),
    }
}

/// A statement, of a depth of at most `inside`.
#[cycle(statement)]
pub fn statement_inside(by: Means, tokens: &mut Cursor) -> Read<Statement>
    ensures { Reads statement_of result tokens.new (statement_at by.entry.types.now by.entry.inside tokens.old) }
{
    if by.inside == 0 {
        return Err(tokens.stop());
    }
    let by = Means {
        inside: by.inside - 1,
        ..by
    };
    statement(by, tokens)
}
