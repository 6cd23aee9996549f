//! What begins at a token.

ghost use Rattle.std.specs.Prelude.{◌≡◌};
ghost use Rattle.c_ast.specs.Lexemes.{lexemes_of};
ghost use Rattle.c_grammar.specs.Reading.{another, begins_enclosed, begins_parameters, begins_specifier, begins_type_name, begins_typename, begins_void, peek};

use crate::names::is_type;
use crate::operators::keyword_specifier_of;
use crate::typenames::Typenames;
use c_tokens::{Punctuator, Token, TokenKind};
use lay_base::Keyword;

/// Whether that punctuator stands at the front.
pub fn peek(bytes: &[u8], tokens: &[Token], punctuator: Punctuator) -> bool
    ensures { result ≡ peek punctuator (lexemes_of bytes.now tokens.now) }
{
    match tokens {
        [token, ..] => match token.kind {
            TokenKind::Punctuator(found) => found == punctuator,
            _ => false,
        },
        [] => false,
    }
}

/// Whether the name of a type stands at the front.
pub fn begins_typename(bytes: &[u8], types: &Typenames, tokens: &[Token]) -> bool
    ensures { result ≡ begins_typename types.now (lexemes_of bytes.now tokens.now) }
{
    match tokens {
        [token, ..] => token.kind == TokenKind::Name && is_type(bytes, types, *token),
        [] => false,
    }
}

/// Whether a specifier begins here.
pub fn begins_specifier(bytes: &[u8], types: &Typenames, tokens: &[Token]) -> bool
    ensures { result ≡ begins_specifier types.now (lexemes_of bytes.now tokens.now) }
{
    match tokens {
        [token, ..] => {
            keyword_specifier_of(token.kind).is_some()
                || matches!(token.kind, TokenKind::Keyword(Keyword::Struct))
                || matches!(token.kind, TokenKind::Keyword(Keyword::Enum))
                || (token.kind == TokenKind::Name && is_type(bytes, types, *token))
        }
        [] => false,
    }
}

/// Whether `(` and a type name begin here.
pub fn begins_type_name(bytes: &[u8], types: &Typenames, tokens: &[Token]) -> bool
    ensures { result ≡ begins_type_name types.now (lexemes_of bytes.now tokens.now) }
{
    match tokens {
        [token, rest @ ..] => {
            token.kind == TokenKind::Punctuator(Punctuator::Open)
                && begins_specifier(bytes, types, rest)
        }
        [] => false,
    }
}

/// Whether the parameters of a function begin after `(`, or its end.
fn begins_parameters(bytes: &[u8], types: &Typenames, tokens: &[Token]) -> bool
    ensures { result ≡ begins_parameters types.now (lexemes_of bytes.now tokens.now) }
{
    peek(bytes, tokens, Punctuator::Close) || begins_specifier(bytes, types, tokens)
}

/// Whether `(` begins a declarator in parentheses here.
pub fn begins_enclosed(bytes: &[u8], types: &Typenames, tokens: &[Token]) -> bool
    ensures { result ≡ begins_enclosed types.now (lexemes_of bytes.now tokens.now) }
{
    match tokens {
        [token, rest @ ..] => {
            token.kind == TokenKind::Punctuator(Punctuator::Open)
                && !begins_parameters(bytes, types, rest)
        }
        [] => false,
    }
}

/// Whether `void` stands alone here before `)`.
pub fn begins_void(bytes: &[u8], tokens: &[Token]) -> bool
    ensures { result ≡ begins_void (lexemes_of bytes.now tokens.now) }
{
    match tokens {
        [token, rest @ ..] => {
            token.kind == TokenKind::Keyword(Keyword::Void) && peek(bytes, rest, Punctuator::Close)
        }
        [] => false,
    }
}

/// Whether another of a list follows: a comma, and no `}` after it.
pub fn another(bytes: &[u8], tokens: &[Token]) -> bool
    ensures { result ≡ another (lexemes_of bytes.now tokens.now) }
{
    match tokens {
        [token, rest @ ..] => {
            token.kind == TokenKind::Punctuator(Punctuator::Comma)
                && !peek(bytes, rest, Punctuator::CloseBrace)
        }
        [] => false,
    }
}
