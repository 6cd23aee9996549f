//! What is wrong where a text has no token.

/// What is wrong with a text where it has no token.
#[derive(Clone, Copy)]
pub enum FaultKind {
    /// Nothing begins with this byte.
    BadByte,
    /// A number, character or string of no valid form.
    BadLiteral,
    /// A string, character or comment without its end.
    Unclosed,
    /// A name that is too long, or a number, a character or an escape that is too great.
    TooWide,
}
