//! Cells.

use crate::cell_words::pointer::Ptr;

/// What a byte of memory holds (C99 6.2.6.1).
#[derive(Clone, Copy)]
pub enum Cell {
    /// Nothing that was stored.
    Empty,
    Byte(u8),
    /// Of a pointer that was stored: the number of its pointer type, the pointer, and which of its four bytes this is, from 0 on.
    Fragment(usize, Ptr, u8),
}
