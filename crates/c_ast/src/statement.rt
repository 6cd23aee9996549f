//! Statements (C99 6.8).

use crate::declaration::Declaration;
use crate::expression::Expression;
use crate::words::At;
use lay_base::{Boxed, List};

/// A statement: the alternatives, with the tokens of each in their order.
#[cycle(statement)]
#[derive(Drop)]
pub enum Statement {
    /// `{` items `}`
    Block(At, List<BlockItem>, At),
    /// expression or none `;`
    Expression(Option<Boxed<Expression>>, At),
    /// `if` `(` expression `)` statement
    If(At, At, Boxed<Expression>, At, Boxed<Statement>),
    /// `if` `(` expression `)` statement `else` statement
    IfElse(At, At, Boxed<Expression>, At, Boxed<Statement>, At, Boxed<Statement>),
    /// `while` `(` expression `)` statement
    While(At, At, Boxed<Expression>, At, Boxed<Statement>),
    /// `do` statement `while` `(` expression `)` `;`
    DoWhile(At, Boxed<Statement>, At, At, Boxed<Expression>, At, At),
    /// `for` `(` start, condition or none `;` step or none `)` statement
    For(
        At,
        At,
        ForStart,
        Option<Boxed<Expression>>,
        At,
        Option<Boxed<Expression>>,
        At,
        Boxed<Statement>,
    ),
    /// `switch` `(` expression `)` `{` arms `}`
    Switch(At, At, Boxed<Expression>, At, At, List<SwitchItem>, At),
    /// `break` `;`
    Break(At, At),
    /// `continue` `;`
    Continue(At, At),
    /// `return` expression or none `;`
    Return(At, Option<Boxed<Expression>>, At),
}

#[cycle(statement)]
#[derive(Drop)]
pub enum BlockItem {
    Declaration(Declaration),
    Statement(Statement),
}

/// What stands first in the parentheses of a `for`.
#[derive(Drop)]
pub enum ForStart {
    /// expression or none `;`
    Expression(Option<Boxed<Expression>>, At),
    Declaration(Declaration),
}

/// An item of a switch's body: a declaration, or a statement with the labels before it.
#[cycle(statement)]
#[derive(Drop)]
pub enum SwitchItem {
    Local(Declaration),
    Labelled(List<Label>, Statement),
}

#[derive(Drop)]
pub enum Label {
    /// `case` expression `:`
    Case(At, Expression, At),
    /// `default` `:`
    Default(At, At),
}
