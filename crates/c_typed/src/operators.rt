//! Operators and library functions.

/// The unary operators on numbers (C99 6.5.3.3).
#[derive(Clone, Copy)]
pub enum UnaryOp {
    /// `+`
    Plus,
    /// `-`
    Minus,
    /// `~`
    Complement,
}

/// The binary operators whose result is a number of their operands' common type, or for shifts of the left operand's (C99 6.5.5 to
/// 6.5.7, 6.5.10 to 6.5.12).
#[derive(Clone, Copy)]
pub enum BinaryOp {
    /// `*`
    Multiply,
    /// `/`
    Divide,
    /// `%`
    Remainder,
    /// `+`
    Add,
    /// `-`
    Subtract,
    /// `<<`
    ShiftLeft,
    /// `>>`
    ShiftRight,
    /// `&`
    BitAnd,
    /// `^`
    BitXor,
    /// `|`
    BitOr,
}

/// The comparisons, whose result is 0 or 1 of type `int` (C99 6.5.8, 6.5.9).
#[derive(Clone, Copy)]
pub enum CompareOp {
    /// `==`
    Equal,
    /// `!=`
    NotEqual,
    /// `<`
    Less,
    /// `>`
    Greater,
    /// `<=`
    LessEqual,
    /// `>=`
    GreaterEqual,
}

/// What is done to a pointer with a number of elements (C99 6.5.6).
#[derive(Clone, Copy)]
pub enum PointerOp {
    /// `+`
    Add,
    /// `-`
    Subtract,
}

/// `++` and `--` (C99 6.5.2.4, 6.5.3.1).
#[derive(Clone, Copy)]
pub enum StepOp {
    Increment,
    Decrement,
}

/// The functions of the library that programs may declare and call (C99 7.19.7, 7.20.3, 7.20.4, 7.21).
#[derive(Clone, Copy)]
pub enum LibraryFunction {
    Malloc,
    Calloc,
    Free,
    Memcpy,
    Memmove,
    Memset,
    Memcmp,
    Putchar,
    Getchar,
    Exit,
}
