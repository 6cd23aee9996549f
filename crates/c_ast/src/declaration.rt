//! Declarations (C99 6.7).

use crate::expression::{Declarator, Expression, Specifier};
use crate::words::At;
use lay_base::{Boxed, List};

/// Specifiers, declarators with their initializers, and `;`.
#[derive(Drop)]
pub struct Declaration {
    pub specifiers: List<Specifier>,
    pub declarators: List<InitDeclarator>,
    pub semicolon: At,
}

/// A declarator and its initializer, with the comma before it where it is not the first.
#[derive(Drop)]
pub struct InitDeclarator {
    pub comma: Option<At>,
    pub declarator: Declarator,
    pub value: Option<InitialValue>,
}

/// `=` and an initializer: an expression, or initializers in braces.
#[derive(Drop)]
pub struct InitialValue {
    pub equal: At,
    pub value: Boxed<Expression>,
}
