//! The tree of a source file, as the grammar of C has it (C99 6.5 to 6.9), with every token kept.
//!
//! Not proved: that the stack has room for the `drop` of a tree, which calls itself as deep as the tree is.
#![tactic(auto)]

mod declaration;
mod expression;
mod operators;
mod places;
mod size;
mod statement;
mod tree;
mod words;

pub use declaration::{Declaration, InitDeclarator, InitialValue};
pub use expression::{
    Argument, Declarator, Enumerator, EnumeratorValue, Expression, MemberDeclaration,
    MemberDeclarator, Parameter, Parameters, Specifier, TypeName,
};
pub use operators::{AssignOp, BinaryOp, SpecifierKeyword, StepOp, UnaryOp};
pub use places::{
    first_if_any, first_of_declaration, first_of_declarator, first_of_expression, first_of_item,
    first_of_specifier, first_of_specifiers, first_of_statement,
};
pub use size::Size;
pub use statement::{BlockItem, ForStart, Label, Statement, SwitchItem};
pub use tree::{Function, Item, Tree};
pub use words::{At, Spelling, Text};
