//! Operators, and the keywords of specifiers.

/// `++` and `--` (C99 6.5.2.4, 6.5.3.1).
#[derive(Clone, Copy)]
pub enum StepOp {
    Increment,
    Decrement,
}

/// The unary operators before a cast expression (C99 6.5.3).
#[derive(Clone, Copy)]
pub enum UnaryOp {
    /// `&`
    Address,
    /// `*`
    Deref,
    /// `+`
    Plus,
    /// `-`
    Minus,
    /// `~`
    Complement,
    /// `!`
    Not,
}

/// The binary operators, from loosest to tightest (C99 6.5.5 to 6.5.14).
#[derive(Clone, Copy)]
pub enum BinaryOp {
    /// `||`
    Or,
    /// `&&`
    And,
    /// `|`
    BitOr,
    /// `^`
    BitXor,
    /// `&`
    BitAnd,
    /// `==`
    Equal,
    /// `!=`
    NotEqual,
    /// `<`
    Less,
    /// `>`
    Greater,
    /// `<=`
    LessEqual,
    /// `>=`
    GreaterEqual,
    /// `<<`
    ShiftLeft,
    /// `>>`
    ShiftRight,
    /// `+`
    Add,
    /// `-`
    Subtract,
    /// `*`
    Multiply,
    /// `/`
    Divide,
    /// `%`
    Remainder,
}

/// The assignment operators (C99 6.5.16).
#[derive(Clone, Copy)]
pub enum AssignOp {
    /// `=`
    Plain,
    /// `*=`
    Multiply,
    /// `/=`
    Divide,
    /// `%=`
    Remainder,
    /// `+=`
    Add,
    /// `-=`
    Subtract,
    /// `<<=`
    ShiftLeft,
    /// `>>=`
    ShiftRight,
    /// `&=`
    BitAnd,
    /// `^=`
    BitXor,
    /// `|=`
    BitOr,
}

/// The keywords that are specifiers by themselves (C99 6.7.1 to 6.7.3).
#[derive(Clone, Copy)]
pub enum SpecifierKeyword {
    Typedef,
    Extern,
    Static,
    Auto,
    Register,
    Const,
    Void,
    Char,
    Short,
    Int,
    Long,
    Signed,
    Unsigned,
}
