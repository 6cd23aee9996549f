//! Enumerations (C99 6.7.2.2).

ghost use Rattle.std.specs.Prelude.{◌+◌, [], length, map};
ghost use Rattle.std.specs.Option.{option_map};
ghost use Rattle.c_ast.specs.Trees;
ghost use Rattle.c_ast.specs.Views.{enumerator_of, enumerator_value_of, one_value_of, specifier_of};
ghost use Rattle.c_cursor.specs.Gives.{Gives, Reads, Steps};
ghost use Rattle.c_grammar.specs.Reading.{at, chain, enum_body_in, enumerator_in, enumerator_step, tag_if_any, tagged_in};

use crate::level::Level;
use crate::means::{Means, Next, Read, all_by};
use crate::within::{enumerator_inside, expression_inside};
use c_ast::{At, Enumerator, EnumeratorValue, Specifier, Spelling};
use c_cursor::{Cursor, deeper_than};
use c_tokens::Punctuator;
use lay_base::{List, add};

/// An enumerator: its name, and its value if it has one.
#[cycle(expression)]
#[tactic(auto, unfolding(c_grammar::specs::Reading::enumerator_in))]
pub fn enumerator(by: Means, tokens: &mut Cursor) -> Read<(Spelling, Option<EnumeratorValue>)>
    ensures { Reads (λ x. (x.0, enumerator_value_of (option_map one_value_of x.1))) result tokens.new
        (enumerator_in by.entry.types.now by.entry.inside (at by.entry.types.now by.entry.inside) tokens.old) }
{
    let name = tokens.plain_name(by.alloc, by.types)?;
    match tokens.accept(Punctuator::Equal) {
        Some(equal) => {
            let (value, d) = expression_inside(by, Level::Conditional, tokens)?;
            let d = deeper_than(by.inside, d, tokens)?;
            let value = EnumeratorValue { equal, value };
            Ok(((name, Some(value)), d))
        }
        None => Ok(((name, None), 1)),
    }
}

/// One enumerator more.
#[cycle(expression)]
#[tactic(auto, unfolding(c_grammar::specs::Reading::enumerator_step))]
fn next_enumerator(
    by: Means,
    all: List<Enumerator>,
    d: u32,
    tokens: &mut Cursor,
) -> Next<List<Enumerator>>
    ensures { Steps (λ all. map enumerator_of all) result tokens.new (enumerator_step (at by.entry.types.now by.entry.inside) (map enumerator_of all) d tokens.old) }
{
    let comma = tokens.comma_before(&all)?;
    let ((name, value), e) = enumerator_inside(by, tokens)?;
    let item = Enumerator { comma, name, value };
    let mut all = all;
    add(&mut all, item)?;
    Ok((all, d.max(e), tokens.another()))
}

/// The enumerators of an enumeration.
#[cycle(expression)]
#[tactic(auto, using(c_grammar::proofs::Rounds::rounds))]
fn enumerators(by: Means, tokens: &mut Cursor) -> Read<List<Enumerator>>
    ensures { Reads (λ all. map enumerator_of all) result tokens.new (chain (enumerator_step (at by.entry.types.now by.entry.inside)) (length tokens.old + 1) [] 0 tokens.old) }
{
    all_by!(next_enumerator(by), tokens; (List::new(by.alloc), 0), tokens.len() as u64 + 1)
}

/// The body of an enumeration.
#[cycle(expression)]
#[tactic(auto, unfolding(c_grammar::specs::Reading::enum_body_in))]
fn enum_body(by: Means, place: At, name: Option<Spelling>, tokens: &mut Cursor) -> Read<Specifier>
    ensures { Reads specifier_of result tokens.new (enum_body_in by.entry.inside (at by.entry.types.now by.entry.inside) place name tokens.old) }
{
    let left = tokens.expect(Punctuator::OpenBrace)?;
    let (all, d) = enumerators(by, tokens)?;
    let comma = tokens.comma_if_any();
    let right = tokens.expect(Punctuator::CloseBrace)?;
    let d = deeper_than(by.inside, d, tokens)?;
    Ok((Specifier::EnumBody(place, name, left, all, comma, right), d))
}

/// What stands after `enum`.
#[cycle(expression)]
pub fn enumeration(by: Means, place: At, tokens: &mut Cursor) -> Read<Specifier>
    ensures { Reads specifier_of result tokens.new (tagged_in (Trees.enum_named place) (enum_body_in by.entry.inside (at by.entry.types.now by.entry.inside) place)
        (tag_if_any tokens.old)) }
{
    let tag = tokens.tag_if_any(by.alloc)?;
    match tag {
        None => enum_body(by, place, None, tokens),
        Some(name) => {
            if tokens.peek(Punctuator::OpenBrace) {
                return enum_body(by, place, Some(name), tokens);
            }
            Ok((Specifier::Enum(place, name), 1))
        }
    }
}
