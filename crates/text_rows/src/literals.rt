//! The bytes of string literals as text.

ghost use Rattle.std.specs.Prelude.{◌∷◌, [], IfSome};
ghost use Rattle.c_tokens.specs.Strings.{IsStringLiteral};
ghost use Rattle.c_tokens.specs.TokenTexts.{HaveTexts};

use c_lexer::{add_text_bytes, text_bytes};
use c_tokens::{Token, TokenKind};
use row_lines::Writer;
use std::alloc::Global;

/// The text of a token, where it is a string literal.
fn literal<'a>(text: &'a [u8], token: &Token) -> Option<&'a [u8]>
    requires { HaveTexts text.now (token.now ∷ []) }
    ensures { IfSome result (λ literal. IsStringLiteral literal.now) }
{
    match token.kind {
        TokenKind::Text => text.get(token.from as usize..token.to as usize),
        _ => None,
    }
}

/// Adds the bytes of the string literals that these tokens of a text are. Whether they are nothing else, and memory was
/// enough.
fn add_joined(bytes: &mut Vec<u8>, text: &[u8], tokens: &[Token]) -> bool
    requires { HaveTexts text.now tokens.now }
{
    let mut rest = tokens;
    while let [token, more @ ..] = rest {
        let Some(literal) = literal(text, token) else {
            return false;
        };
        if add_text_bytes(bytes, literal).is_err() {
            return false;
        }
        rest = more;
    }
    true
}

/// The bytes of the one string literal that a text is.
fn put_alone(out: &mut Writer, alloc: Global, text: &[u8], token: &Token)
    requires { HaveTexts text.now (token.now ∷ []) }
{
    let Some(literal) = literal(text, token) else {
        return;
    };
    match text_bytes(alloc, literal) {
        Ok(bytes) => out.value(&bytes),
        Err(_) => out.word("out of memory"),
    }
}

/// The bytes of the string literals of a text when they are joined; where it is one, also those that it has alone.
pub fn put_literals(out: &mut Writer, alloc: Global, text: &[u8], tokens: &[Token])
    requires { HaveTexts text.now tokens.now }
{
    let mut bytes = Vec::new(alloc);
    if !add_joined(&mut bytes, text, tokens) {
        return out.word("no literals");
    }
    out.value(&bytes);
    if let [token] = tokens {
        out.word("alone");
        put_alone(out, alloc, text, token);
    }
}
