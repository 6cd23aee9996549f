//! Operators and the keywords of specifiers, as C spells them.

use c_ast::{AssignOp, BinaryOp, SpecifierKeyword, StepOp, UnaryOp};

/// `++` and `--` before their operand.
pub fn prefix_text(op: StepOp) -> &'static str {
    match op {
        StepOp::Increment => "++",
        StepOp::Decrement => "--",
    }
}

/// `++` and `--` after their operand.
pub fn postfix_text(op: StepOp) -> &'static str {
    match op {
        StepOp::Increment => "post++",
        StepOp::Decrement => "post--",
    }
}

pub fn unary_text(op: UnaryOp) -> &'static str {
    match op {
        UnaryOp::Address => "&",
        UnaryOp::Deref => "*",
        UnaryOp::Plus => "+",
        UnaryOp::Minus => "-",
        UnaryOp::Complement => "~",
        UnaryOp::Not => "!",
    }
}

pub fn binary_text(op: BinaryOp) -> &'static str {
    match op {
        BinaryOp::Or => "||",
        BinaryOp::And => "&&",
        BinaryOp::BitOr => "|",
        BinaryOp::BitXor => "^",
        BinaryOp::BitAnd => "&",
        BinaryOp::Equal => "==",
        BinaryOp::NotEqual => "!=",
        BinaryOp::Less => "<",
        BinaryOp::Greater => ">",
        BinaryOp::LessEqual => "<=",
        BinaryOp::GreaterEqual => ">=",
        BinaryOp::ShiftLeft => "<<",
        BinaryOp::ShiftRight => ">>",
        BinaryOp::Add => "+",
        BinaryOp::Subtract => "-",
        BinaryOp::Multiply => "*",
        BinaryOp::Divide => "/",
        BinaryOp::Remainder => "%",
    }
}

pub fn assign_text(op: AssignOp) -> &'static str {
    match op {
        AssignOp::Plain => "=",
        AssignOp::Multiply => "*=",
        AssignOp::Divide => "/=",
        AssignOp::Remainder => "%=",
        AssignOp::Add => "+=",
        AssignOp::Subtract => "-=",
        AssignOp::ShiftLeft => "<<=",
        AssignOp::ShiftRight => ">>=",
        AssignOp::BitAnd => "&=",
        AssignOp::BitXor => "^=",
        AssignOp::BitOr => "|=",
    }
}

pub fn specifier_text(of: SpecifierKeyword) -> &'static str {
    match of {
        SpecifierKeyword::Typedef => "typedef",
        SpecifierKeyword::Extern => "extern",
        SpecifierKeyword::Static => "static",
        SpecifierKeyword::Auto => "auto",
        SpecifierKeyword::Register => "register",
        SpecifierKeyword::Const => "const",
        SpecifierKeyword::Void => "void",
        SpecifierKeyword::Char => "char",
        SpecifierKeyword::Short => "short",
        SpecifierKeyword::Int => "int",
        SpecifierKeyword::Long => "long",
        SpecifierKeyword::Signed => "signed",
        SpecifierKeyword::Unsigned => "unsigned",
    }
}
