//! The items of a file (C99 6.9).

ghost use Rattle.std.specs.Prelude.{None, map};
ghost use Rattle.c_ast.specs.Views.{declarator_of, item_of, specifier_of, specifiers_of};
ghost use Rattle.c_cursor.specs.Gives.{Reads};
ghost use Rattle.c_grammar.specs.StatementReading.{body_in, item_after, item_in, rest_of_declaration_in};

use crate::declarations::declarators_after;
use crate::declarators::named;
use crate::statements::block;
use c_ast::{At, Declaration, Declarator, Function, Item, Specifier};
use c_cursor::{Cursor, deeper_than};
use c_expressions::{Means, Read, specifiers_inside};
use c_tokens::Punctuator;
use lay_base::{Boxed, List};

/// A function, from after the `{` of its body on.
#[tactic(auto, using(crate::proofs::BodyRounds::body_round, crate::proofs::BodyRounds::body_out))]
fn function(
    by: Means,
    specifiers: List<Specifier>,
    declarator: Boxed<Declarator>,
    d: u32,
    left: At,
    tokens: &mut Cursor,
) -> Read<Item>
    ensures { Reads item_of result tokens.new (body_in by.entry.types.now by.entry.inside (specifiers_of (map specifier_of specifiers))
        (declarator_of declarator) d left tokens.old) }
{
    if by.inside == 0 {
        return Err(tokens.stop());
    }
    let within = Means {
        inside: by.inside - 1,
        ..by
    };
    let ((body, close), e) = block(within, tokens)?;
    let e = deeper_than(within.inside, e, tokens)?;
    let d = deeper_than(by.inside, d.max(e), tokens)?;
    let whole = Function {
        specifiers,
        declarator: declarator.into_inner(),
        open: left,
        body,
        close,
    };
    Ok((Item::Function(whole), d))
}

/// The declarators of a declaration after its first one, and `;`.
fn rest_of_declaration(
    by: Means,
    specifiers: List<Specifier>,
    declarator: Boxed<Declarator>,
    d: u32,
    tokens: &mut Cursor,
) -> Read<Item>
    ensures { Reads item_of result tokens.new (rest_of_declaration_in by.entry.types.now by.entry.inside (specifiers_of (map specifier_of specifiers))
        (declarator_of declarator) d tokens.old) }
{
    let (declarators, e) = declarators_after(by, declarator, 0, tokens)?;
    let semicolon = tokens.expect(Punctuator::Semicolon)?;
    let d = deeper_than(by.inside, d.max(e), tokens)?;
    let whole = Declaration {
        specifiers,
        declarators,
        semicolon,
    };
    Ok((Item::Declaration(whole), d))
}

/// What stands after the specifiers of an item that has a declarator.
fn declared(by: Means, specifiers: List<Specifier>, d: u32, tokens: &mut Cursor) -> Read<Item>
    ensures { Reads item_of result tokens.new (item_after by.entry.types.now by.entry.inside (specifiers_of (map specifier_of specifiers)) d tokens.old None) }
{
    let (declarator, e) = named(by, tokens)?;
    let d = d.max(e);
    match tokens.accept(Punctuator::OpenBrace) {
        Some(left) => function(by, specifiers, declarator, d, left, tokens),
        None => rest_of_declaration(by, specifiers, declarator, d, tokens),
    }
}

/// An item, of a depth of at most `inside` and 1.
#[tactic(auto, unfolding(c_grammar::specs::StatementReading::item_in))]
pub fn item(by: Means, tokens: &mut Cursor) -> Read<Item>
    ensures { Reads item_of result tokens.new (item_in by.entry.types.now by.entry.inside tokens.old) }
{
    let (specifiers, d) = specifiers_inside(by, tokens)?;
    match tokens.accept(Punctuator::Semicolon) {
        Some(semicolon) => {
            let d = deeper_than(by.inside, d, tokens)?;
            let whole = Declaration {
                specifiers,
                declarators: List::new(by.alloc),
                semicolon,
            };
            Ok((Item::Declaration(whole), d))
        }
        None => declared(by, specifiers, d, tokens),
    }
}
