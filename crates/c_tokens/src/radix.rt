//! The pieces of integer constants.

/// In which digits a number is written (C99 6.4.4.1).
#[derive(Clone, Copy)]
pub enum Radix {
    Decimal,
    Octal,
    Hexadecimal,
}

/// What stands after the digits (C99 6.4.4.1).
#[derive(Clone, Copy)]
pub enum Suffix {
    Plain,
    /// `u`
    Unsigned,
    /// `l`
    Long,
    /// `u` and `l`
    UnsignedLong,
    /// `ll`, with or without `u`
    LongLong,
}
