//! Type names (C99 6.7.6).

ghost use Rattle.c_ast.specs.Views.{type_name_of};
ghost use Rattle.c_cursor.specs.Gives.{Reads};
ghost use Rattle.c_grammar.specs.Reading.{at, enclosed_type_name_in, type_name_in};

use crate::declarator_names::is_named;
use crate::means::{Means, Read};
use crate::within::{declarator_inside, specifiers_inside};
use c_ast::{At, TypeName};
use c_cursor::Cursor;
use c_tokens::Punctuator;

/// Specifiers, and an abstract declarator or none.
#[cycle(expression)]
#[tactic(auto, unfolding(c_grammar::specs::Reading::type_name_in))]
fn type_name(by: Means, tokens: &mut Cursor) -> Read<TypeName>
    ensures { Reads type_name_of result tokens.new (type_name_in (at by.entry.types.now by.entry.inside) tokens.old) }
{
    let (specifiers, d) = specifiers_inside(by, tokens)?;
    let (declarator, e) = declarator_inside(by, tokens)?;
    if is_named(&declarator) {
        return Err(tokens.stop());
    }
    let name = TypeName {
        specifiers,
        declarator,
    };
    Ok((name, d.max(e)))
}

/// A type name in parentheses, with the bytes of both.
#[cycle(expression)]
#[tactic(auto, unfolding(c_grammar::specs::Reading::enclosed_type_name_in))]
pub fn enclosed_type_name(by: Means, tokens: &mut Cursor) -> Read<(At, TypeName, At)>
    ensures { Reads (λ x. (x.0, type_name_of x.1, x.2)) result tokens.new (enclosed_type_name_in (at by.entry.types.now by.entry.inside) tokens.old) }
{
    let left = tokens.expect(Punctuator::Open)?;
    let (name, d) = type_name(by, tokens)?;
    let right = tokens.expect(Punctuator::Close)?;
    Ok(((left, name, right), d))
}
