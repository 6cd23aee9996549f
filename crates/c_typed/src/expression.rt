//! Expressions, and the paths to objects (C99 6.5).

use crate::operators::{BinaryOp, CompareOp, LibraryFunction, PointerOp, StepOp, UnaryOp};
use lay_base::{Boxed, List, Place};

/// A type's place in the list of types of its program.
pub type TypeId = usize;

/// An expression that has a value, or none where its type is `void`. `T` stands for a type: in a program it is the type's number. The place
/// is that of the first token of the expression's text.
#[cycle(typed)]
#[derive(Drop)]
pub struct Expression<T = TypeId> {
    pub ty: T,
    pub place: Place,
    pub node: ExpressionNode<T>,
}

#[cycle(typed)]
#[derive(Drop)]
pub enum ExpressionNode<T = TypeId> {
    /// A number, as the low bits of its type's width.
    Constant(u32),
    /// A null pointer.
    Null,
    /// A pointer to the function of that number.
    FunctionName(usize),
    /// The value of a number or a pointer in memory.
    Load(Boxed<Path<T>>),
    AddressOf(Boxed<Path<T>>),
    /// A pointer to the first element of an array (C99 6.3.2.1).
    Decay(Boxed<Path<T>>),
    /// A conversion, and whether a cast is written.
    Convert(Boxed<Expression<T>>, bool),
    Unary(UnaryOp, Boxed<Expression<T>>),
    Binary(BinaryOp, Boxed<Expression<T>>, Boxed<Expression<T>>),
    Compare(CompareOp, Boxed<Expression<T>>, Boxed<Expression<T>>),
    /// A pointer and a number of elements, in the order of the text.
    PointerAdd(PointerOp, Boxed<Expression<T>>, Boxed<Expression<T>>),
    /// How many elements lie between two pointers.
    PointerDiff(Boxed<Expression<T>>, Boxed<Expression<T>>),
    And(Boxed<Expression<T>>, Boxed<Expression<T>>),
    Or(Boxed<Expression<T>>, Boxed<Expression<T>>),
    Not(Boxed<Expression<T>>),
    Cond(Boxed<Expression<T>>, Boxed<Expression<T>>, Boxed<Expression<T>>),
    Comma(Boxed<Expression<T>>, Boxed<Expression<T>>),
    Assign(Boxed<Path<T>>, Boxed<Expression<T>>),
    AssignOp(BinaryOp, Boxed<Path<T>>, Boxed<Expression<T>>),
    /// `++` or `--`; whether it stands before its operand.
    Step(StepOp, bool, Boxed<Path<T>>),
    /// A whole record is assigned: to, from.
    CopyRecord(Boxed<Path<T>>, Boxed<Path<T>>),
    /// A call of the function of that number.
    Call(usize, List<Expression<T>>),
    /// A call through a pointer to a function.
    CallThrough(Boxed<Expression<T>>, List<Expression<T>>),
    Library(LibraryFunction, List<Expression<T>>),
    /// An allocation of records: the record's number, how many where that is written, and whether all bytes are zero.
    Allocate(usize, Option<Boxed<Expression<T>>>, bool),
}

/// The way to an object, or to a part of one.
#[cycle(typed)]
#[derive(Drop)]
pub struct Path<T = TypeId> {
    pub ty: T,
    pub place: Place,
    pub node: PathNode<T>,
}

#[cycle(typed)]
#[derive(Drop)]
pub enum PathNode<T = TypeId> {
    /// A local of the function, by its number; parameters come first.
    Named(usize),
    /// An object of the program, or of its file, by its number.
    Object(usize),
    /// What a pointer points to.
    Deref(Boxed<Expression<T>>),
    /// A subscript on a pointer.
    Index(Boxed<Expression<T>>, Boxed<Expression<T>>),
    /// A field of a record: the record's number, and the field's in it.
    Member(Boxed<Path<T>>, usize, usize),
    /// A subscript on an array object or an array field.
    Element(Boxed<Path<T>>, Boxed<Expression<T>>),
}
