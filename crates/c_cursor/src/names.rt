//! The texts of tokens.

ghost use Rattle.std.specs.Prelude.{◌≡◌, ◌-◌, IfOk, take, drop};
ghost use Rattle.c_ast.specs.Lexemes.{lexeme_of};
ghost use Rattle.c_ast.specs.WellFormed.{is_typename};
ghost use Rattle.c_grammar.specs.Reading.{spelling_of};

use crate::typenames::Typenames;
use c_ast::{Spelling, Text};
use c_tokens::Token;
use lay_base::NoMemory;
use std::alloc::Global;

/// The bytes from one place up to another, as far as there are such.
fn range_of(bytes: &[u8], from: usize, to: usize) -> &[u8]
    ensures { result.now ≡ take (to - from) (drop from bytes.now) }
{
    let begin = from.min(bytes.len());
    let after = &bytes[begin..];
    let count = to.saturating_sub(from).min(after.len());
    &after[..count]
}

/// The text of a token.
fn text_of(bytes: &[u8], token: Token) -> &[u8]
    ensures { result.now ≡ (lexeme_of bytes.now token).text }
{
    range_of(bytes, token.from as usize, token.to as usize)
}

/// Whether the text of a token is the name of a type.
pub fn is_type(bytes: &[u8], types: &Typenames, token: Token) -> bool
    ensures { result ≡ is_typename types.now (lexeme_of bytes.now token).text }
{
    types.contains(text_of(bytes, token))
}

/// A token as trees keep it.
pub fn spelling(alloc: Global, bytes: &[u8], token: Token) -> Result<Spelling, NoMemory>
    ensures { IfOk result (λ x. x ≡ spelling_of (lexeme_of bytes.now token)) }
{
    let text = Text::copy_of(alloc, text_of(bytes, token))?;
    Ok(Spelling {
        from: token.from,
        to: token.to,
        text,
    })
}
