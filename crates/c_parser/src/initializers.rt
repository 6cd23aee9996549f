//! Initializers (C99 6.7.8).

ghost use Rattle.std.specs.Prelude.{◌+◌, [], length, map};
ghost use Rattle.c_ast.specs.Views.{argument_of, expression_of};
ghost use Rattle.c_cursor.specs.Gives.{Gives, Reads, Steps};
ghost use Rattle.c_grammar.specs.Reading.{at, chain};
ghost use Rattle.c_grammar.specs.StatementReading.{braces_in, initial_at, initial_in, initial_step};

use crate::loops::all_by;
use c_ast::{Argument, At, Expression};
use c_cursor::{Cursor, deeper_than};
use c_expressions::{Level, Means, Next, Read, expression_inside};
use c_tokens::Punctuator;
use lay_base::{Boxed, List, add, boxed};

/// One initializer in braces more.
#[cycle(initializer)]
#[tactic(auto, unfolding(c_grammar::specs::StatementReading::initial_step))]
fn next_initializer(
    by: Means,
    all: List<Argument>,
    d: u32,
    tokens: &mut Cursor,
) -> Next<List<Argument>>
    ensures { Steps (λ all. map argument_of all) result tokens.new (initial_step (initial_at by.entry.types.now by.entry.inside) (map argument_of all) d tokens.old) }
{
    let comma = tokens.comma_before(&all)?;
    let (value, e) = initializer_inside(by, tokens)?;
    let item = Argument {
        comma,
        value: value.into_inner(),
    };
    let mut all = all;
    add(&mut all, item)?;
    Ok((all, d.max(e), tokens.another()))
}

/// The initializers up to `}`, or the comma before it.
#[cycle(initializer)]
#[tactic(auto, using(c_grammar::proofs::Rounds::rounds))]
fn initializers(by: Means, tokens: &mut Cursor) -> Read<List<Argument>>
    ensures { Reads (λ all. map argument_of all) result tokens.new
        (chain (initial_step (initial_at by.entry.types.now by.entry.inside)) (length tokens.old + 1) [] 0 tokens.old) }
{
    all_by!(next_initializer, by, tokens, List::new(by.alloc), 0)
}

/// Initializers in braces, from after `{` on.
#[cycle(initializer)]
#[tactic(auto, unfolding(c_grammar::specs::StatementReading::braces_in))]
fn braces(by: Means, left: At, tokens: &mut Cursor) -> Read<Boxed<Expression>>
    ensures { Reads expression_of result tokens.new (braces_in by.entry.inside (initial_at by.entry.types.now by.entry.inside) left tokens.old) }
{
    let (all, d) = initializers(by, tokens)?;
    let comma = tokens.comma_if_any();
    let right = tokens.expect(Punctuator::CloseBrace)?;
    let d = deeper_than(by.inside, d, tokens)?;
    Ok((
        boxed(by.alloc, Expression::Braces(left, all, comma, right))?,
        d,
    ))
}

/// An initializer.
#[cycle(initializer)]
#[tactic(auto, unfolding(c_grammar::specs::StatementReading::initial_in))]
fn initializer(by: Means, tokens: &mut Cursor) -> Read<Boxed<Expression>>
    ensures { Reads expression_of result tokens.new (initial_in by.entry.inside ((at by.entry.types.now by.entry.inside).assignment) (initial_at by.entry.types.now by.entry.inside) tokens.old) }
{
    match tokens.accept(Punctuator::OpenBrace) {
        Some(left) => braces(by, left, tokens),
        None => {
            let (value, d) = expression_inside(by, Level::Assignment, tokens)?;
            let d = deeper_than(by.inside, d, tokens)?;
            Ok((value, d))
        }
    }
}

/// An initializer, of a depth of at most `inside`.
#[cycle(initializer)]
pub fn initializer_inside(by: Means, tokens: &mut Cursor) -> Read<Boxed<Expression>>
    ensures { Reads expression_of result tokens.new (initial_at by.entry.types.now by.entry.inside tokens.old) }
{
    if by.inside == 0 {
        return Err(tokens.stop());
    }
    let by = Means {
        inside: by.inside - 1,
        ..by
    };
    initializer(by, tokens)
}
