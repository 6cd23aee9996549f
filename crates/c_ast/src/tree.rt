//! The tree of a file (C99 6.9).

use crate::declaration::Declaration;
use crate::expression::{Declarator, Specifier};
use crate::statement::BlockItem;
use crate::words::At;
use lay_base::List;

#[derive(Drop)]
pub struct Tree {
    pub file: u16,
    pub items: List<Item>,
}

#[derive(Drop)]
pub enum Item {
    Function(Function),
    Declaration(Declaration),
}

/// The definition of a function (C99 6.9.1).
#[derive(Drop)]
pub struct Function {
    pub specifiers: List<Specifier>,
    pub declarator: Declarator,
    pub open: At,
    pub body: List<BlockItem>,
    pub close: At,
}
