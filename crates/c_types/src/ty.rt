//! Integer types, and types.

use lay_base::{List, Shared};

/// An integer type (C99 6.2.5). An enumeration is `int`.
#[derive(Clone, Copy, Debug, PartialEq, Eq)]
pub enum IntKind {
    /// `char`, whose values are those of `unsigned char`.
    Char,
    /// `signed char`.
    SChar,
    /// `unsigned char`.
    UChar,
    /// `short`.
    Short,
    /// `unsigned short`.
    UShort,
    /// `int`.
    Int,
    /// `unsigned`.
    UInt,
    /// `long`.
    Long,
    /// `unsigned long`.
    ULong,
}

/// A type (C99 6.2.5).
#[derive(Drop)]
pub enum Ty {
    Void,
    Int(IntKind),
    Pointer(Shared<Ty>),
    /// The element's type, and how many elements there are.
    Array(Shared<Ty>, u64),
    /// The result's type, and the parameters' types in order.
    Function(Shared<Ty>, Shared<List<Ty>>),
    /// A record's number in the list of records of its program.
    Record(usize),
}
