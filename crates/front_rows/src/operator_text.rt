//! Operators and functions of the library, as C spells them.

use c_typed::{BinaryOp, CompareOp, LibraryFunction, PointerOp, UnaryOp};

pub fn unary_text(op: UnaryOp) -> &'static str {
    match op {
        UnaryOp::Plus => "+",
        UnaryOp::Minus => "-",
        UnaryOp::Complement => "~",
    }
}

pub fn binary_text(op: BinaryOp) -> &'static str {
    match op {
        BinaryOp::Multiply => "*",
        BinaryOp::Divide => "/",
        BinaryOp::Remainder => "%",
        BinaryOp::Add => "+",
        BinaryOp::Subtract => "-",
        BinaryOp::ShiftLeft => "<<",
        BinaryOp::ShiftRight => ">>",
        BinaryOp::BitAnd => "&",
        BinaryOp::BitXor => "^",
        BinaryOp::BitOr => "|",
    }
}

pub fn compare_text(op: CompareOp) -> &'static str {
    match op {
        CompareOp::Equal => "==",
        CompareOp::NotEqual => "!=",
        CompareOp::Less => "<",
        CompareOp::Greater => ">",
        CompareOp::LessEqual => "<=",
        CompareOp::GreaterEqual => ">=",
    }
}

pub fn pointer_text(op: PointerOp) -> &'static str {
    match op {
        PointerOp::Add => "+",
        PointerOp::Subtract => "-",
    }
}

pub fn library_text(which: LibraryFunction) -> &'static str {
    match which {
        LibraryFunction::Malloc => "malloc",
        LibraryFunction::Calloc => "calloc",
        LibraryFunction::Free => "free",
        LibraryFunction::Memcpy => "memcpy",
        LibraryFunction::Memmove => "memmove",
        LibraryFunction::Memset => "memset",
        LibraryFunction::Memcmp => "memcmp",
        LibraryFunction::Putchar => "putchar",
        LibraryFunction::Getchar => "getchar",
        LibraryFunction::Exit => "exit",
    }
}
