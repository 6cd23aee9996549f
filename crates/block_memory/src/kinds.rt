//! Kinds of blocks, and of accesses.

use c_types::IntKind;

/// What a block is for.
#[derive(Clone, Copy)]
pub enum BlockKind {
    /// An object of file scope, or a `static` local.
    Global,
    /// A string literal, into which nothing is stored (C99 6.4.5).
    Text,
    /// A local of a block of statements.
    Local,
    /// An allocation (C99 7.20.3).
    Heap,
}

/// What is loaded or stored.
#[derive(Clone, Copy)]
pub enum Access {
    Number(IntKind),
    /// A pointer, with the number of its pointer type.
    Pointer(usize),
}
