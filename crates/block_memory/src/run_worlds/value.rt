//! Values.

use memory_words::Ptr;

/// The value of an expression that is used (C99 6.5). A number is the 32 bits that stand for it in two's complement.
#[derive(Clone, Copy)]
pub enum Value {
    Word(u32),
    Pointer(Ptr),
}
