//! Tokens.

use crate::punctuator::Punctuator;
use c_types::IntKind;
use lay_base::{Bytes, Keyword, List};

/// What a token is (C99 6.4).
#[derive(Clone, Copy, Debug, PartialEq, Eq)]
pub enum TokenKind {
    Keyword(Keyword),
    /// An identifier.
    Name,
    /// An integer constant, with its value and its type.
    Number(u32, IntKind),
    /// A character constant, with its value, below 256. Its type is `int`.
    Character(u32),
    /// A string literal.
    Text,
    Punctuator(Punctuator),
}

/// A token, and the bytes from `from` up to, but without, `to` that it is.
#[derive(Clone, Copy)]
pub struct Token {
    pub kind: TokenKind,
    pub from: u32,
    pub to: u32,
}

/// The tokens of a file in order, with the file's number and bytes.
#[derive(Drop)]
pub struct Tokens {
    pub file: u16,
    pub bytes: Bytes,
    pub list: List<Token>,
}
