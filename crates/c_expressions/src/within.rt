//! The readers of parts, of a depth of at most `inside`.

ghost use Rattle.std.specs.Prelude.{map};
ghost use Rattle.std.specs.Option.{option_map};
ghost use Rattle.c_ast.specs.Views.{declarator_if_any, declarator_of, enumerator_value_of, expression_of, member_declaration_of, one_value_of};
ghost use Rattle.c_ast.specs.Views.{specifier_of, specifiers_of};
ghost use Rattle.c_cursor.specs.Gives.{Reads};
ghost use Rattle.c_expressions.specs.Levels.{read};
ghost use Rattle.c_grammar.specs.Reading.{at};

use crate::assignment::{assignment, conditional, expression};
use crate::binary::operators;
use crate::declarators::declarator;
use crate::enumerations::enumerator;
use crate::level::Level;
use crate::means::{Means, Read};
use crate::specifiers::specifiers;
use crate::structures::member_declaration;
use crate::unary::{operand, unary_expression};
use c_ast::{Declarator, EnumeratorValue, Expression, MemberDeclaration, Specifier, Spelling};
use c_cursor::Cursor;
use lay_base::{Boxed, List};

/// An expression of that level.
#[cycle(expression)]
pub fn expression_inside(by: Means, level: Level, tokens: &mut Cursor) -> Read<Boxed<Expression>>
    ensures { Reads expression_of result tokens.new (read level (at by.entry.types.now by.entry.inside) tokens.old) }
{
    if by.inside == 0 {
        return Err(tokens.stop());
    }
    let by = Means {
        inside: by.inside - 1,
        ..by
    };
    match level {
        Level::Expression => expression(by, tokens),
        Level::Assignment => assignment(by, tokens),
        Level::Conditional => conditional(by, tokens),
        Level::Operators(least) => operators(by, least, tokens),
        Level::Operand => operand(by, tokens),
        Level::Unary => unary_expression(by, tokens),
    }
}

/// One specifier or more.
#[cycle(expression)]
pub fn specifiers_inside(by: Means, tokens: &mut Cursor) -> Read<List<Specifier>>
    ensures { Reads (λ all. specifiers_of (map specifier_of all)) result tokens.new ((at by.entry.types.now by.entry.inside).specifiers tokens.old) }
{
    if by.inside == 0 {
        return Err(tokens.stop());
    }
    let by = Means {
        inside: by.inside - 1,
        ..by
    };
    specifiers(by, tokens)
}

/// A member declaration.
#[cycle(expression)]
pub fn member_declaration_inside(by: Means, tokens: &mut Cursor) -> Read<MemberDeclaration>
    ensures { Reads member_declaration_of result tokens.new ((at by.entry.types.now by.entry.inside).member_declaration tokens.old) }
{
    if by.inside == 0 {
        return Err(tokens.stop());
    }
    let by = Means {
        inside: by.inside - 1,
        ..by
    };
    member_declaration(by, tokens)
}

/// An enumerator.
#[cycle(expression)]
pub fn enumerator_inside(
    by: Means,
    tokens: &mut Cursor,
) -> Read<(Spelling, Option<EnumeratorValue>)>
    ensures { Reads (λ x. (x.0, enumerator_value_of (option_map one_value_of x.1))) result tokens.new ((at by.entry.types.now by.entry.inside).enumerator tokens.old) }
{
    if by.inside == 0 {
        return Err(tokens.stop());
    }
    let by = Means {
        inside: by.inside - 1,
        ..by
    };
    enumerator(by, tokens)
}

/// A declarator or nothing.
#[cycle(expression)]
pub fn declarator_inside(by: Means, tokens: &mut Cursor) -> Read<Option<Boxed<Declarator>>>
    ensures { Reads (λ d. declarator_if_any (option_map declarator_of d)) result tokens.new ((at by.entry.types.now by.entry.inside).declarator tokens.old) }
{
    if by.inside == 0 {
        return Ok((None, 0));
    }
    let by = Means {
        inside: by.inside - 1,
        ..by
    };
    declarator(by, tokens)
}
