//! What the text of a file consists of.

use crate::punctuator::Punctuator;

/// What a word looks like, before it is known whether it is a valid token.
#[derive(Clone, Copy)]
pub enum Shape {
    /// An identifier or a keyword.
    Name,
    /// A preprocessing number.
    Number,
    /// Something between single quotes.
    Character,
    /// Something between double quotes.
    Text,
    Punctuator(Punctuator),
}

/// What a stretch of text is.
#[derive(Clone, Copy)]
pub enum PartKind {
    /// One byte of white space.
    White,
    /// `/*` to `*/`.
    Comment,
    /// `//` up to the end of its line.
    LineComment,
    /// `#` up to the end of its line.
    Directive,
    Word(Shape),
}
