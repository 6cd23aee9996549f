//! Facts about the use of records.

use c_typed::{LibraryFunction, TypeId};
use lay_base::Place;

/// What a function says of types and fields. Types and records are those of the program, by their numbers; a place is that of a first token.
#[derive(Clone, Copy)]
pub enum Fact {
    /// An expression of that type that stands where a variable may not stand that becomes one variable for each part of its records; an
    /// object of that type whose address is taken is one too.
    Value(TypeId),
    /// A conversion from one type to another, with the place of what is converted. A null pointer has none, and an argument that is passed
    /// to a function of the library is told as that.
    Converted(TypeId, TypeId, Place),
    /// The address of a field of that record or of a part of it, also of an array that becomes a pointer, with the place of the path to the
    /// field.
    Taken(usize, Place),
    /// An argument that is converted as it is passed to a function of the library, with its type before that.
    Passed(LibraryFunction, TypeId, Place),
    /// The name of a function other than as what is called, with the type of the pointer to it.
    Function(TypeId, Place),
    /// An assignment of a whole record of that type.
    Copied(TypeId, Place),
    /// An access to a field of a record, by the record's number and the field's in it, and whether its value is loaded.
    Site(usize, usize, bool),
    /// The body of a function begins.
    FunctionBegins,
    /// The condition, the step and the body of a loop begin.
    LoopBegins,
    /// They end.
    LoopEnds,
}
