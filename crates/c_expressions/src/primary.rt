//! Primary expressions (C99 6.5.1).

ghost use Rattle.std.specs.Prelude.{◌+◌, [], length};
ghost use Rattle.c_ast.specs.Views.{expression_of};
ghost use Rattle.c_cursor.specs.Gives.{Gives, Reads, Steps};
ghost use Rattle.c_grammar.specs.Reading.{at, chain, paren_in, primary_in, text_in, texts_in};

use crate::level::Level;
use crate::means::{Means, Next, Read, all_by};
use crate::within::expression_inside;
use c_ast::{Expression, Spelling};
use c_cursor::{Cursor, deeper_than};
use c_tokens::{Punctuator, TokenKind};
use lay_base::{Boxed, List, add, boxed};
use std::alloc::Global;

/// One string literal more, if one stands at the front.
#[tactic(auto, unfolding(c_grammar::specs::Reading::text_in))]
fn text(alloc: Global, all: List<Spelling>, d: u32, tokens: &mut Cursor) -> Next<List<Spelling>>
    ensures { Steps (λ all. all) result tokens.new (text_in all d tokens.old) }
{
    match tokens.front() {
        Some(TokenKind::Text) => {
            let word = tokens.word(alloc)?;
            let mut all = all;
            add(&mut all, word)?;
            Ok((all, d, true))
        }
        _ => Ok((all, d, false)),
    }
}

/// All string literals at the front.
#[tactic(auto, using(c_grammar::proofs::Rounds::rounds))]
fn text_list(alloc: Global, tokens: &mut Cursor) -> Read<List<Spelling>>
    ensures { Reads (λ all. all) result tokens.new (chain text_in (length tokens.old + 1) [] 1 tokens.old) }
{
    all_by!(text(alloc), tokens; (List::new(alloc), 1), tokens.len() as u64 + 1)
}

/// An expression of all string literals at the front.
#[tactic(auto, unfolding(c_grammar::specs::Reading::texts_in))]
fn texts(alloc: Global, tokens: &mut Cursor) -> Read<Boxed<Expression>>
    ensures { Reads expression_of result tokens.new (texts_in tokens.old) }
{
    let (all, d) = text_list(alloc, tokens)?;
    Ok((boxed(alloc, Expression::Texts(all))?, d))
}

/// An expression in parentheses.
#[cycle(expression)]
#[tactic(auto, unfolding(c_grammar::specs::Reading::paren_in))]
fn paren(by: Means, tokens: &mut Cursor) -> Read<Boxed<Expression>>
    ensures { Reads expression_of result tokens.new (paren_in by.entry.inside (at by.entry.types.now by.entry.inside) tokens.old) }
{
    let left = tokens.expect(Punctuator::Open)?;
    let (a, d) = expression_inside(by, Level::Expression, tokens)?;
    let right = tokens.expect(Punctuator::Close)?;
    let d = deeper_than(by.inside, d, tokens)?;
    Ok((boxed(by.alloc, Expression::Paren(left, a, right))?, d))
}

/// A primary expression (C99 6.5.1).
#[cycle(expression)]
#[tactic(auto, unfolding(c_grammar::specs::Reading::primary_in))]
pub fn primary(by: Means, tokens: &mut Cursor) -> Read<Boxed<Expression>>
    ensures { Reads expression_of result tokens.new (primary_in by.entry.types.now by.entry.inside (at by.entry.types.now by.entry.inside) tokens.old) }
{
    match tokens.front() {
        Some(TokenKind::Name) => {
            if tokens.names_type(by.types) {
                return Err(tokens.stop());
            }
            let x = tokens.word(by.alloc)?;
            Ok((boxed(by.alloc, Expression::Name(x))?, 1))
        }
        Some(TokenKind::Number(n, kind)) => {
            let x = tokens.word(by.alloc)?;
            Ok((boxed(by.alloc, Expression::Number(x, n, kind))?, 1))
        }
        Some(TokenKind::Character(n)) => {
            let x = tokens.word(by.alloc)?;
            Ok((boxed(by.alloc, Expression::Character(x, n))?, 1))
        }
        Some(TokenKind::Text) => texts(by.alloc, tokens),
        Some(TokenKind::Punctuator(Punctuator::Open)) => paren(by, tokens),
        _ => Err(tokens.stop()),
    }
}
