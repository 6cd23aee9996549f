//! What an expression of C designates (C99 6.3.2.1, 6.5.1).

use crate::expression::{Expression, Path};
use c_typed::LibraryFunction;
use c_types::Ty;
use lay_base::{Boxed, Place};

/// What an expression of C designates: an object, a value, or a function.
#[derive(Drop)]
pub enum Thing {
    Object(Boxed<Path>),
    Value(Boxed<Expression>),
    /// A function of the file by its number, with its type.
    Function(Place, usize, Ty),
    /// The function to which a pointer points.
    FunctionAt(Boxed<Expression>),
    LibraryFunction(Place, LibraryFunction),
}
