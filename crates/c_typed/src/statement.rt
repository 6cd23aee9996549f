//! Statements (C99 6.8), and the initializers of locals (6.7.8).

use crate::expression::{Expression, Path, TypeId};
use lay_base::{Boxed, Bytes, List};

/// A statement. A block of locals names those that are made when it is entered, by their numbers.
#[cycle(typed_statement)]
#[derive(Drop)]
pub enum Statement<T = TypeId> {
    Do(Boxed<Expression<T>>),
    Block(List<usize>, List<Statement<T>>),
    /// The declaration of a local is reached.
    Declare(usize, Option<Initializer<T>>),
    If(Boxed<Expression<T>>, Boxed<Statement<T>>, Option<Boxed<Statement<T>>>),
    While(Boxed<Expression<T>>, Boxed<Statement<T>>),
    DoWhile(Boxed<Statement<T>>, Boxed<Expression<T>>),
    /// Locals, the statements that declare or begin, condition, step, body.
    For(
        List<usize>,
        List<Statement<T>>,
        Option<Boxed<Expression<T>>>,
        Option<Boxed<Expression<T>>>,
        Boxed<Statement<T>>,
    ),
    /// Value, locals, arms.
    Switch(Boxed<Expression<T>>, List<usize>, List<Arm<T>>),
    Break,
    Continue,
    Return(Option<Boxed<Expression<T>>>),
}

/// The case values before some statements of a `switch`, and whether `default` is among the labels. The statements go up to the
/// next labels.
#[cycle(typed_statement)]
#[derive(Drop)]
pub struct Arm<T = TypeId> {
    pub cases: List<u32>,
    pub is_default: bool,
    pub statements: List<Statement<T>>,
}

/// What a local, or an object of a file, holds at first.
#[derive(Drop)]
pub enum Initializer<T = TypeId> {
    /// The value of a number or a pointer.
    Value(Boxed<Expression<T>>),
    /// A whole record.
    Record(Boxed<Path<T>>),
    /// The parts of an array or a record that are named, in order; all else is zero.
    Parts(List<InitializerPart<T>>),
}

/// A part, and its first byte in the local.
#[derive(Drop)]
pub struct InitializerPart<T = TypeId> {
    pub offset: u32,
    pub value: PartValue<T>,
}

#[derive(Drop)]
pub enum PartValue<T = TypeId> {
    Value(Boxed<Expression<T>>),
    Record(Boxed<Path<T>>),
    /// The first elements of an array of characters.
    Text(Bytes),
}
