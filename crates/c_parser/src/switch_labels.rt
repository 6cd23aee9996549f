//! Labels in a switch (C99 6.8.1).

ghost use Rattle.std.specs.Prelude.{◌+◌, [], length, map};
ghost use Rattle.c_ast.specs.Views.{label_of};
ghost use Rattle.c_cursor.specs.Gives.{Gives, Reads, Steps};
ghost use Rattle.c_grammar.specs.Reading.{chain};
ghost use Rattle.c_grammar.specs.StatementReading.{below_at, label_step, statement_at};

use crate::loops::all_by;
use c_ast::Label;
use c_cursor::Cursor;
use c_expressions::{Level, Means, Next, Read, expression_inside};
use c_tokens::{Punctuator, TokenKind};
use lay_base::{Keyword, List, add};

/// One label more, if one stands at the front.
#[tactic(auto, unfolding(c_grammar::specs::StatementReading::label_step))]
fn next_label(by: Means, all: List<Label>, d: u32, tokens: &mut Cursor) -> Next<List<Label>>
    ensures { Steps (λ all. map label_of all) result tokens.new
        (label_step (below_at by.entry.types.now by.entry.inside (statement_at by.entry.types.now by.entry.inside)) (map label_of all) d tokens.old) }
{
    let mut all = all;
    match tokens.front() {
        Some(TokenKind::Keyword(Keyword::Case)) => {
            let place = tokens.advance();
            let (value, e) = expression_inside(by, Level::Conditional, tokens)?;
            let colon = tokens.expect(Punctuator::Colon)?;
            add(&mut all, Label::Case(place, value.into_inner(), colon))?;
            Ok((all, d.max(e), true))
        }
        Some(TokenKind::Keyword(Keyword::Default)) => {
            let place = tokens.advance();
            let colon = tokens.expect(Punctuator::Colon)?;
            add(&mut all, Label::Default(place, colon))?;
            Ok((all, d, true))
        }
        _ => Ok((all, d, false)),
    }
}

/// The labels before a statement.
#[tactic(auto, using(c_grammar::proofs::Rounds::rounds))]
pub fn labels(by: Means, tokens: &mut Cursor) -> Read<List<Label>>
    ensures { Reads (λ all. map label_of all) result tokens.new
        (chain (label_step (below_at by.entry.types.now by.entry.inside (statement_at by.entry.types.now by.entry.inside))) (length tokens.old + 1) [] 0 tokens.old) }
{
    all_by!(next_label, by, tokens, List::new(by.alloc), 0)
}
