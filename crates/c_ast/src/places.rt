//! Where nodes begin: the byte of the first token of their spelling, which is their place.

ghost use Rattle.std.specs.Prelude.{◌≡◌, ℕ, map};
ghost use Rattle.std.specs.Option.{option_map};
ghost use Rattle.c_ast.specs.Places.{first, first_declaration, first_declarator, first_if_any, first_item, first_specifier, first_specifiers};
ghost use Rattle.c_ast.specs.Places.{first_statement, first_text};
ghost use Rattle.c_ast.specs.Views.{declaration_of, declarator_of, expression_of, item_of, specifier_of, specifiers_of, statement_of};

use crate::declaration::Declaration;
use crate::expression::{Declarator, Expression, Specifier};
use crate::statement::Statement;
use crate::tree::Item;
use crate::words::{At, Spelling};
use lay_base::Boxed;

fn first_text(all: &[Spelling]) -> At
    ensures { result ≡ first_text all.now }
{
    match all {
        [word, ..] => word.from,
        [] => 0,
    }
}

/// Where an expression begins.
pub fn first_of_expression(a: &Expression) -> At
    ensures { result ≡ first (expression_of a.now) }
{
    match a {
        Expression::Name(x) | Expression::Number(x, _, _) | Expression::Character(x, _) => x.from,
        Expression::Texts(all) => first_text(all.as_slice()),
        Expression::Paren(at, _, _)
        | Expression::Pre(_, at, _)
        | Expression::Unary(_, at, _)
        | Expression::SizeofExpression(at, _)
        | Expression::SizeofType(at, _, _, _)
        | Expression::Cast(at, _, _, _)
        | Expression::Braces(at, _, _, _) => *at,
        Expression::Index(a, _, _, _)
        | Expression::Call(a, _, _, _)
        | Expression::Dot(a, _, _)
        | Expression::Arrow(a, _, _)
        | Expression::Post(a, _, _)
        | Expression::Binary(a, _, _, _)
        | Expression::Cond(a, _, _, _, _)
        | Expression::Assign(a, _, _, _)
        | Expression::Comma(a, _, _) => first_of_expression(a.get()),
    }
}

/// Where an expression begins, or what stands after it where there is none.
pub fn first_if_any(a: &Option<Boxed<Expression>>, after: At) -> At
    ensures { result ≡ first_if_any (option_map expression_of a.now) after }
{
    match a {
        Some(a) => first_of_expression(a.get()),
        None => after,
    }
}

/// Where a specifier begins.
pub fn first_of_specifier(specifier: &Specifier) -> At
    ensures { result ≡ first_specifier (specifier_of specifier.now) }
{
    match specifier {
        Specifier::Keyword(_, at)
        | Specifier::Struct(at, _)
        | Specifier::StructBody(at, _, _, _, _)
        | Specifier::Enum(at, _)
        | Specifier::EnumBody(at, _, _, _, _, _) => *at,
        Specifier::Typename(x) => x.from,
    }
}

/// Where specifiers begin, of which there is at least one in each tree of tokens; 0 where there is
/// none.
pub fn first_of_specifiers(all: &[Specifier]) -> At
    ensures { result ≡ first_specifiers (specifiers_of (map specifier_of all.now)) }
{
    match all {
        [specifier, ..] => first_of_specifier(specifier),
        [] => 0,
    }
}

/// Where a declarator begins.
pub fn first_of_declarator(declarator: &Declarator) -> At
    ensures { (after : ℕ) → result ≡ first_declarator (declarator_of declarator.now) after }
{
    match declarator {
        Declarator::Identifier(x) => x.from,
        Declarator::Pointer(at, _, _) | Declarator::Enclosed(at, _, _) => *at,
        Declarator::Array(d, left, _, _) | Declarator::Function(d, left, _, _) => match d {
            None => *left,
            Some(d) => first_of_declarator(d.get()),
        },
    }
}

/// Where a declaration begins.
pub fn first_of_declaration(d: &Declaration) -> At
    ensures { result ≡ first_declaration (declaration_of d.now) }
{
    first_of_specifiers(d.specifiers.as_slice())
}

/// Where a statement begins.
pub fn first_of_statement(statement: &Statement) -> At
    ensures { result ≡ first_statement (statement_of statement.now) }
{
    match statement {
        Statement::Expression(a, semicolon) => first_if_any(a, *semicolon),
        Statement::Block(at, _, _)
        | Statement::If(at, _, _, _, _)
        | Statement::IfElse(at, _, _, _, _, _, _)
        | Statement::While(at, _, _, _, _)
        | Statement::DoWhile(at, _, _, _, _, _, _)
        | Statement::For(at, _, _, _, _, _, _, _)
        | Statement::Switch(at, _, _, _, _, _, _)
        | Statement::Break(at, _)
        | Statement::Continue(at, _)
        | Statement::Return(at, _, _) => *at,
    }
}

/// Where an item of a file begins.
pub fn first_of_item(item: &Item) -> At
    ensures { result ≡ first_item (item_of item.now) }
{
    match item {
        Item::Function(f) => first_of_specifiers(f.specifiers.as_slice()),
        Item::Declaration(d) => first_of_declaration(d),
    }
}
