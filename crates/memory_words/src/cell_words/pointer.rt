//! Pointers.

/// A pointer (C99 6.2.5).
#[derive(Clone, Copy)]
pub enum Ptr {
    Null,
    /// A block's number, and an offset in it, in bytes from 0 to the block's size.
    Block(u64, u32),
    /// A function's number in its program.
    Function(usize),
}
