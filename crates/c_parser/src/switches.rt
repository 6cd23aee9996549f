//! `switch` (C99 6.8.4.2).

ghost use Rattle.std.specs.Prelude.{◌+◌, [], length, map};
ghost use Rattle.c_ast.specs.Views.{statement_of, switch_item_of};
ghost use Rattle.c_cursor.specs.Gives.{Gives, Reads, Steps};
ghost use Rattle.c_grammar.specs.Reading.{chain};
ghost use Rattle.c_grammar.specs.StatementReading.{below_at, statement_at, switch_in, switch_item_in, switch_item_step};

use crate::conditions::condition;
use crate::declarations::declaration;
use crate::loops::all_by;
use crate::statements::statement_inside;
use crate::switch_labels::labels;
use c_ast::{At, Statement, SwitchItem};
use c_cursor::{Cursor, deeper_than};
use c_expressions::{Means, Next, Read};
use c_tokens::Punctuator;
use lay_base::{List, add};

/// An item of a switch's body.
#[cycle(statement)]
#[tactic(auto, unfolding(c_grammar::specs::StatementReading::switch_item_in, c_grammar::specs::StatementReading::labelled_in))]
fn switch_item(by: Means, tokens: &mut Cursor) -> Read<SwitchItem>
    ensures { Reads switch_item_of result tokens.new (switch_item_in (below_at by.entry.types.now by.entry.inside (statement_at by.entry.types.now by.entry.inside)) tokens.old) }
{
    if tokens.begins_specifier(by.types) {
        let (declaration, d) = declaration(by, true, tokens)?;
        Ok((SwitchItem::Local(declaration), d))
    } else {
        let (labels, d) = labels(by, tokens)?;
        let (statement, e) = statement_inside(by, tokens)?;
        Ok((SwitchItem::Labelled(labels, statement), d.max(e)))
    }
}

/// One item of a switch's body more, if `}` does not stand at the front.
#[cycle(statement)]
#[tactic(auto, unfolding(c_grammar::specs::StatementReading::switch_item_step))]
fn next_switch_item(
    by: Means,
    all: List<SwitchItem>,
    d: u32,
    tokens: &mut Cursor,
) -> Next<List<SwitchItem>>
    ensures { Steps (λ all. map switch_item_of all) result tokens.new
        (switch_item_step (below_at by.entry.types.now by.entry.inside (statement_at by.entry.types.now by.entry.inside)) (map switch_item_of all) d tokens.old) }
{
    if tokens.peek(Punctuator::CloseBrace) {
        return Ok((all, d, false));
    }
    let (item, e) = switch_item(by, tokens)?;
    let mut all = all;
    add(&mut all, item)?;
    Ok((all, d.max(e), true))
}

/// The items of a switch's body up to `}`.
#[cycle(statement)]
#[tactic(auto, using(c_grammar::proofs::Rounds::rounds))]
fn switch_items(by: Means, tokens: &mut Cursor) -> Read<List<SwitchItem>>
    ensures { Reads (λ all. map switch_item_of all) result tokens.new
        (chain (switch_item_step (below_at by.entry.types.now by.entry.inside (statement_at by.entry.types.now by.entry.inside))) (length tokens.old + 1) [] 0 tokens.old) }
{
    all_by!(next_switch_item, by, tokens, List::new(by.alloc), 0)
}

/// What stands after `switch`.
#[cycle(statement)]
#[tactic(auto, unfolding(c_grammar::specs::StatementReading::switch_in))]
pub fn switch(by: Means, place: At, tokens: &mut Cursor) -> Read<Statement>
    ensures { Reads statement_of result tokens.new (switch_in by.entry.inside (below_at by.entry.types.now by.entry.inside (statement_at by.entry.types.now by.entry.inside)) place tokens.old) }
{
    let ((left, value, right), d) = condition(by, tokens)?;
    let begin = tokens.expect(Punctuator::OpenBrace)?;
    let (all, e) = switch_items(by, tokens)?;
    let end = tokens.expect(Punctuator::CloseBrace)?;
    let d = deeper_than(by.inside, d.max(e), tokens)?;
    Ok((
        Statement::Switch(place, left, value, right, begin, all, end),
        d,
    ))
}
