//! Levels of expressions.

/// The productions of expressions that others are made of.
#[derive(Clone, Copy)]
pub enum Level {
    /// C99 6.5.17.
    Expression,
    /// C99 6.5.16.
    Assignment,
    /// C99 6.5.15.
    Conditional,
    /// Operands with binary operators of at least that strength between them (C99 6.5.5 to 6.5.14).
    Operators(u32),
    /// An operand of a binary operator (C99 6.5.4).
    Operand,
    /// C99 6.5.3.
    Unary,
}
