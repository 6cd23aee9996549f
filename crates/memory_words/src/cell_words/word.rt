//! Words: four cells in eight bytes.

use crate::cell_words::cell::Cell;
use std::mem::size_of;

/// A cell that holds no part of a pointer.
#[derive(Clone, Copy)]
pub enum Content {
    Empty,
    Byte(u8),
}

/// Four cells.
#[derive(Clone, Copy)]
pub struct Four {
    pub a: Cell,
    pub b: Cell,
    pub c: Cell,
    pub d: Cell,
}

/// Four cells in a row, by what they hold.
#[derive(Clone, Copy)]
pub enum Word {
    /// Four bytes, as the number that they hold, the least first.
    Number(u32),
    /// Which of the cells hold nothing that was stored, as a sum of 1, 2, 4 and 8, and the bytes of the others.
    Bytes(u8, u8, u8, u8, u8),
    /// A whole null pointer, with the number of its type.
    Null(u32),
    /// Any other whole pointer: its place in the table of pointers.
    Pointer(u32),
    /// Any other four cells: their place in the table of groups.
    Group(u32),
}

/// A whole pointer in the table of pointers, with the number of its type, where all of these fit 32 bits.
#[derive(Clone, Copy)]
pub(crate) enum Pointer {
    Block(u32, u32, u32),
    Function(u32, u32),
}

/// A cell in 24 bytes. Numbers of 64 bits stand in two halves, the low one first.
#[derive(Clone, Copy)]
pub(crate) enum Part {
    Empty,
    Byte(u8),
    /// Which fragment it is, and the pointer with the number of its type.
    Null(u8, u32, u32),
    Block(u8, u32, u32, u32, u32, u32),
    Function(u8, u32, u32, u32, u32),
}

/// Four cells in the table of groups.
#[derive(Clone, Copy)]
pub(crate) struct Group {
    pub(crate) a: Part,
    pub(crate) b: Part,
    pub(crate) c: Part,
    pub(crate) d: Part,
}

// What the memory of a run takes is counted in these.
const _: () = prove!(size_of::<Word>() == 8);

const _: () = prove!(size_of::<Pointer>() == 16);

const _: () = prove!(size_of::<Group>() == 96);
