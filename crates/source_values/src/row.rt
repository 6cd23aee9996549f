//! What is kept of a type.

use block_memory::Access;
use c_types::IntKind;

/// What a type is for a conversion (C99 6.3).
#[derive(Clone, Copy)]
pub enum Sort {
    Void,
    Number(IntKind),
    Pointer,
    /// An array, a function or a structure.
    Other,
}

/// What is kept of a type, with all sizes in bytes.
#[derive(Clone, Copy)]
pub struct TypeRow {
    pub sort: Sort,
    /// What is loaded or stored of that type.
    pub access: Access,
    pub size: u32,
    /// The size of what a pointer points to, or of the elements of an array.
    pub element: u32,
    /// How many elements an array has.
    pub length: u32,
    pub kind: IntKind,
}
