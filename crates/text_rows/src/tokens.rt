//! Tokens as text.

ghost use Rattle.std.specs.Prelude.{◌≤◌, length};
ghost use Rattle.c_tokens.specs.Lexes.{Lexes};

use crate::lines::put_lines;
use crate::literals::put_literals;
use crate::row::OfTokens;
use c_lexer::{lex, tokens_have_places, tokens_have_texts};
use c_tokens::{Token, TokenKind, Tokens};
use lay_base::{Keyword, keyword_text};
use row_lines::Writer;
use std::alloc::Global;

/// The number of the file that the text of a row is.
pub const FILE: u16 = 7;

/// What a token is. A keyword that the language leaves out is told by its spelling.
fn put_kind(out: &mut Writer, kind: TokenKind) {
    match kind {
        TokenKind::Keyword(Keyword::LeftOut(number)) => {
            out.word("LeftOut");
            out.bytes(keyword_text(Keyword::LeftOut(number)));
        }
        _ => out.value(&kind),
    }
}

fn put_kinds(out: &mut Writer, tokens: &[Token]) {
    for token in tokens {
        put_kind(out, token.kind);
    }
}

/// The number of the file, its bytes, and each token with the bytes at which it begins and ends.
fn put_ranges(out: &mut Writer, tokens: &Tokens) {
    out.number(u64::from(tokens.file));
    out.value(&tokens.bytes.as_slice());
    for token in tokens.list.as_slice() {
        put_kind(out, token.kind);
        out.number(u64::from(token.from));
        out.number(u64::from(token.to));
    }
}

fn put_asked(out: &mut Writer, alloc: Global, asked: OfTokens, text: &[u8], tokens: &Tokens)
    requires short { length text.now ≤ 4194304 }
    requires tokens { Lexes text.now tokens.now.list }
{
    tokens_have_places();
    tokens_have_texts();
    let list = tokens.list.as_slice();
    match asked {
        OfTokens::Kinds => put_kinds(out, list),
        OfTokens::Ranges => put_ranges(out, tokens),
        OfTokens::Lines => put_lines(out, text, list),
        OfTokens::Literals => put_literals(out, alloc, text, list),
    }
}

/// What is asked of the tokens of a text, or its first fault.
pub fn put_of_tokens(out: &mut Writer, alloc: Global, asked: OfTokens, text: &[u8])
    requires { length text.now ≤ 4194304 }
{
    match lex(alloc, text, FILE) {
        Ok(tokens) => put_asked(out, alloc, asked, text, &tokens),
        Err(fault) => out.value(&fault),
    }
}
