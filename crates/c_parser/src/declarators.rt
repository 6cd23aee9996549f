//! Declarators with their initializers (C99 6.7).

ghost use Rattle.c_ast.specs.Views.{declarator_of, init_declarator_of};
ghost use Rattle.c_cursor.specs.Gives.{Reads};
ghost use Rattle.c_grammar.specs.Reading.{at};
ghost use Rattle.c_grammar.specs.StatementReading.{initial_at, named_in, valued_in};

use crate::initializers::initializer_inside;
use c_ast::{At, Declarator, InitDeclarator, InitialValue};
use c_cursor::Cursor;
use c_expressions::{Means, Read, declarator_inside, has_name};
use c_tokens::Punctuator;
use lay_base::Boxed;

/// A declarator with its name.
#[tactic(auto, unfolding(c_grammar::specs::StatementReading::named_in))]
pub fn named(by: Means, tokens: &mut Cursor) -> Read<Boxed<Declarator>>
    ensures { Reads declarator_of result tokens.new (named_in ((at by.entry.types.now by.entry.inside).declarator) tokens.old) }
{
    let (declarator, d) = declarator_inside(by, tokens)?;
    match declarator {
        Some(declarator) if has_name(declarator.get()) => Ok((declarator, d)),
        _ => Err(tokens.stop()),
    }
}

/// A declarator that is read, with its initializer if there is one.
#[tactic(auto, unfolding(c_grammar::specs::StatementReading::valued_in))]
pub fn valued(
    by: Means,
    comma: Option<At>,
    declarator: Boxed<Declarator>,
    d: u32,
    tokens: &mut Cursor,
) -> Read<InitDeclarator>
    ensures { Reads init_declarator_of result tokens.new (valued_in (initial_at by.entry.types.now by.entry.inside) comma (declarator_of declarator) d tokens.old) }
{
    match tokens.accept(Punctuator::Equal) {
        Some(equal) => {
            let (value, e) = initializer_inside(by, tokens)?;
            let whole = InitDeclarator {
                comma,
                declarator: declarator.into_inner(),
                value: Some(InitialValue { equal, value }),
            };
            Ok((whole, d.max(e)))
        }
        None => {
            let whole = InitDeclarator {
                comma,
                declarator: declarator.into_inner(),
                value: None,
            };
            Ok((whole, d))
        }
    }
}
