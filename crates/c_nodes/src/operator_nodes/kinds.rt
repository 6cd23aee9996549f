//! The operators of the grammar, as those of typed trees (C99 6.5).

ghost use Rattle.std.specs.Prelude.{◌≡◌};
ghost use Rattle.c_erasure.specs.Operators.{kind_of, step_of, update_of};
ghost use Rattle.c_nodes.specs.OperatorNodes.Kinds.{kind_view};

use c_typed::{BinaryOp, CompareOp, StepOp};

/// What a binary operator does.
#[derive(Clone, Copy)]
pub enum BinaryKind {
    Computes(BinaryOp),
    Compares(CompareOp),
    /// `&&`
    AllOf,
    /// `||`
    AnyOf,
}

/// What a binary operator does.
pub fn kind_of(op: c_ast::BinaryOp) -> BinaryKind
    ensures { kind_view result ≡ kind_of op }
{
    match op {
        c_ast::BinaryOp::Or => BinaryKind::AnyOf,
        c_ast::BinaryOp::And => BinaryKind::AllOf,
        c_ast::BinaryOp::BitOr => BinaryKind::Computes(BinaryOp::BitOr),
        c_ast::BinaryOp::BitXor => BinaryKind::Computes(BinaryOp::BitXor),
        c_ast::BinaryOp::BitAnd => BinaryKind::Computes(BinaryOp::BitAnd),
        c_ast::BinaryOp::Equal => BinaryKind::Compares(CompareOp::Equal),
        c_ast::BinaryOp::NotEqual => BinaryKind::Compares(CompareOp::NotEqual),
        c_ast::BinaryOp::Less => BinaryKind::Compares(CompareOp::Less),
        c_ast::BinaryOp::Greater => BinaryKind::Compares(CompareOp::Greater),
        c_ast::BinaryOp::LessEqual => BinaryKind::Compares(CompareOp::LessEqual),
        c_ast::BinaryOp::GreaterEqual => BinaryKind::Compares(CompareOp::GreaterEqual),
        c_ast::BinaryOp::ShiftLeft => BinaryKind::Computes(BinaryOp::ShiftLeft),
        c_ast::BinaryOp::ShiftRight => BinaryKind::Computes(BinaryOp::ShiftRight),
        c_ast::BinaryOp::Add => BinaryKind::Computes(BinaryOp::Add),
        c_ast::BinaryOp::Subtract => BinaryKind::Computes(BinaryOp::Subtract),
        c_ast::BinaryOp::Multiply => BinaryKind::Computes(BinaryOp::Multiply),
        c_ast::BinaryOp::Divide => BinaryKind::Computes(BinaryOp::Divide),
        c_ast::BinaryOp::Remainder => BinaryKind::Computes(BinaryOp::Remainder),
    }
}

/// What a compound assignment does to its left operand (C99 6.5.16.2); none of the plain one.
pub fn update_of(op: c_ast::AssignOp) -> Option<BinaryOp>
    ensures { result ≡ update_of op }
{
    match op {
        c_ast::AssignOp::Plain => None,
        c_ast::AssignOp::Multiply => Some(BinaryOp::Multiply),
        c_ast::AssignOp::Divide => Some(BinaryOp::Divide),
        c_ast::AssignOp::Remainder => Some(BinaryOp::Remainder),
        c_ast::AssignOp::Add => Some(BinaryOp::Add),
        c_ast::AssignOp::Subtract => Some(BinaryOp::Subtract),
        c_ast::AssignOp::ShiftLeft => Some(BinaryOp::ShiftLeft),
        c_ast::AssignOp::ShiftRight => Some(BinaryOp::ShiftRight),
        c_ast::AssignOp::BitAnd => Some(BinaryOp::BitAnd),
        c_ast::AssignOp::BitXor => Some(BinaryOp::BitXor),
        c_ast::AssignOp::BitOr => Some(BinaryOp::BitOr),
    }
}

/// `++` or `--`.
pub fn step_of(op: c_ast::StepOp) -> StepOp
    ensures { result ≡ step_of op }
{
    match op {
        c_ast::StepOp::Increment => StepOp::Increment,
        c_ast::StepOp::Decrement => StepOp::Decrement,
    }
}
