//! Specifiers (C99 6.7.1 to 6.7.3).

ghost use Rattle.std.specs.Prelude.{◌+◌, [], length, map};
ghost use Rattle.c_ast.specs.Views.{specifier_of, specifiers_of};
ghost use Rattle.c_cursor.specs.Gives.{Gives, Reads, Steps};
ghost use Rattle.c_grammar.specs.Reading.{at, chain, specifier_in, specifier_step, specifiers_in};

use crate::enumerations::enumeration;
use crate::means::{Means, Next, Read, all_by};
use crate::structures::structure;
use c_ast::Specifier;
use c_cursor::Cursor;
use lay_base::{Keyword, List, add};

/// A specifier.
#[cycle(expression)]
#[tactic(auto, unfolding(c_grammar::specs::Reading::specifier_in))]
fn specifier(by: Means, tokens: &mut Cursor) -> Read<Specifier>
    ensures { Reads specifier_of result tokens.new (specifier_in by.entry.types.now by.entry.inside (at by.entry.types.now by.entry.inside) tokens.old) }
{
    if let Some(keyword) = tokens.specifier_at() {
        return Ok((Specifier::Keyword(keyword, tokens.advance()), 1));
    }
    if tokens.peek_keyword(Keyword::Struct) {
        return structure(by, tokens.advance(), tokens);
    }
    if tokens.peek_keyword(Keyword::Enum) {
        return enumeration(by, tokens.advance(), tokens);
    }
    if tokens.begins_typename(by.types) {
        let name = tokens.word(by.alloc)?;
        return Ok((Specifier::Typename(name), 1));
    }
    Err(tokens.stop())
}

/// One specifier more.
#[cycle(expression)]
#[tactic(auto, unfolding(c_grammar::specs::Reading::specifier_step))]
fn next_specifier(
    by: Means,
    all: List<Specifier>,
    d: u32,
    tokens: &mut Cursor,
) -> Next<List<Specifier>>
    ensures { Steps (λ all. map specifier_of all) result tokens.new
        (specifier_step by.entry.types.now by.entry.inside (at by.entry.types.now by.entry.inside) (map specifier_of all) d tokens.old) }
{
    let (one, e) = specifier(by, tokens)?;
    let mut all = all;
    add(&mut all, one)?;
    Ok((all, d.max(e), tokens.begins_specifier(by.types)))
}

/// One specifier after the other.
#[cycle(expression)]
#[tactic(auto, using(c_grammar::proofs::Rounds::rounds))]
fn specifier_list(by: Means, tokens: &mut Cursor) -> Read<List<Specifier>>
    ensures { Reads (λ all. map specifier_of all) result tokens.new
        (chain (specifier_step by.entry.types.now by.entry.inside (at by.entry.types.now by.entry.inside)) (length tokens.old + 1) [] 0 tokens.old) }
{
    all_by!(next_specifier(by), tokens; (List::new(by.alloc), 0), tokens.len() as u64 + 1)
}

/// One specifier or more.
#[cycle(expression)]
#[tactic(auto, unfolding(c_grammar::specs::Reading::specifiers_in))]
pub fn specifiers(by: Means, tokens: &mut Cursor) -> Read<List<Specifier>>
    ensures { Reads (λ all. specifiers_of (map specifier_of all)) result tokens.new (specifiers_in by.entry.types.now by.entry.inside (at by.entry.types.now by.entry.inside) tokens.old) }
{
    let (all, d) = specifier_list(by, tokens)?;
    Ok((all, d))
}
