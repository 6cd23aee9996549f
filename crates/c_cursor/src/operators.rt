//! Operators and keywords by their tokens.

ghost use Rattle.std.specs.Prelude.{◌≡◌};
ghost use Rattle.c_ast.specs.WellFormed.{strength, level};
ghost use Rattle.c_ast.specs.Views.{expression_of};
ghost use Rattle.c_grammar.specs.Reading.{step_op, unary_op, binary_op, assign_op, keyword_specifier};

use c_ast::{AssignOp, BinaryOp, Expression, SpecifierKeyword, StepOp, UnaryOp};
use c_tokens::{Punctuator, TokenKind};
use lay_base::Keyword;

/// The operator `++` or `--` that a token is.
pub fn step_of(kind: TokenKind) -> Option<StepOp>
    ensures { result ≡ step_op kind }
{
    match kind {
        TokenKind::Punctuator(Punctuator::PlusPlus) => Some(StepOp::Increment),
        TokenKind::Punctuator(Punctuator::MinusMinus) => Some(StepOp::Decrement),
        _ => None,
    }
}

/// The unary operator that a token is.
pub fn unary_of(kind: TokenKind) -> Option<UnaryOp>
    ensures { result ≡ unary_op kind }
{
    match kind {
        TokenKind::Punctuator(Punctuator::And) => Some(UnaryOp::Address),
        TokenKind::Punctuator(Punctuator::Star) => Some(UnaryOp::Deref),
        TokenKind::Punctuator(Punctuator::Plus) => Some(UnaryOp::Plus),
        TokenKind::Punctuator(Punctuator::Minus) => Some(UnaryOp::Minus),
        TokenKind::Punctuator(Punctuator::Tilde) => Some(UnaryOp::Complement),
        TokenKind::Punctuator(Punctuator::Not) => Some(UnaryOp::Not),
        _ => None,
    }
}

/// The binary operator that a token is.
pub fn binary_of(kind: TokenKind) -> Option<BinaryOp>
    ensures { result ≡ binary_op kind }
{
    match kind {
        TokenKind::Punctuator(Punctuator::BarBar) => Some(BinaryOp::Or),
        TokenKind::Punctuator(Punctuator::AndAnd) => Some(BinaryOp::And),
        TokenKind::Punctuator(Punctuator::Bar) => Some(BinaryOp::BitOr),
        TokenKind::Punctuator(Punctuator::Caret) => Some(BinaryOp::BitXor),
        TokenKind::Punctuator(Punctuator::And) => Some(BinaryOp::BitAnd),
        TokenKind::Punctuator(Punctuator::EqualEqual) => Some(BinaryOp::Equal),
        TokenKind::Punctuator(Punctuator::NotEqual) => Some(BinaryOp::NotEqual),
        TokenKind::Punctuator(Punctuator::Less) => Some(BinaryOp::Less),
        TokenKind::Punctuator(Punctuator::Greater) => Some(BinaryOp::Greater),
        TokenKind::Punctuator(Punctuator::LessEqual) => Some(BinaryOp::LessEqual),
        TokenKind::Punctuator(Punctuator::GreaterEqual) => Some(BinaryOp::GreaterEqual),
        TokenKind::Punctuator(Punctuator::ShiftLeft) => Some(BinaryOp::ShiftLeft),
        TokenKind::Punctuator(Punctuator::ShiftRight) => Some(BinaryOp::ShiftRight),
        TokenKind::Punctuator(Punctuator::Plus) => Some(BinaryOp::Add),
        TokenKind::Punctuator(Punctuator::Minus) => Some(BinaryOp::Subtract),
        TokenKind::Punctuator(Punctuator::Star) => Some(BinaryOp::Multiply),
        TokenKind::Punctuator(Punctuator::Slash) => Some(BinaryOp::Divide),
        TokenKind::Punctuator(Punctuator::Percent) => Some(BinaryOp::Remainder),
        _ => None,
    }
}

/// The assignment operator that a token is.
pub fn assigning_of(kind: TokenKind) -> Option<AssignOp>
    ensures { result ≡ assign_op kind }
{
    match kind {
        TokenKind::Punctuator(Punctuator::Equal) => Some(AssignOp::Plain),
        TokenKind::Punctuator(Punctuator::StarEqual) => Some(AssignOp::Multiply),
        TokenKind::Punctuator(Punctuator::SlashEqual) => Some(AssignOp::Divide),
        TokenKind::Punctuator(Punctuator::PercentEqual) => Some(AssignOp::Remainder),
        TokenKind::Punctuator(Punctuator::PlusEqual) => Some(AssignOp::Add),
        TokenKind::Punctuator(Punctuator::MinusEqual) => Some(AssignOp::Subtract),
        TokenKind::Punctuator(Punctuator::ShiftLeftEqual) => Some(AssignOp::ShiftLeft),
        TokenKind::Punctuator(Punctuator::ShiftRightEqual) => Some(AssignOp::ShiftRight),
        TokenKind::Punctuator(Punctuator::AndEqual) => Some(AssignOp::BitAnd),
        TokenKind::Punctuator(Punctuator::CaretEqual) => Some(AssignOp::BitXor),
        TokenKind::Punctuator(Punctuator::BarEqual) => Some(AssignOp::BitOr),
        _ => None,
    }
}

/// The specifier that a keyword is by itself.
pub fn keyword_specifier_of(kind: TokenKind) -> Option<SpecifierKeyword>
    ensures { result ≡ keyword_specifier kind }
{
    match kind {
        TokenKind::Keyword(Keyword::Typedef) => Some(SpecifierKeyword::Typedef),
        TokenKind::Keyword(Keyword::Extern) => Some(SpecifierKeyword::Extern),
        TokenKind::Keyword(Keyword::Static) => Some(SpecifierKeyword::Static),
        TokenKind::Keyword(Keyword::Auto) => Some(SpecifierKeyword::Auto),
        TokenKind::Keyword(Keyword::Register) => Some(SpecifierKeyword::Register),
        TokenKind::Keyword(Keyword::Const) => Some(SpecifierKeyword::Const),
        TokenKind::Keyword(Keyword::Void) => Some(SpecifierKeyword::Void),
        TokenKind::Keyword(Keyword::Char) => Some(SpecifierKeyword::Char),
        TokenKind::Keyword(Keyword::Short) => Some(SpecifierKeyword::Short),
        TokenKind::Keyword(Keyword::Int) => Some(SpecifierKeyword::Int),
        TokenKind::Keyword(Keyword::Long) => Some(SpecifierKeyword::Long),
        TokenKind::Keyword(Keyword::Signed) => Some(SpecifierKeyword::Signed),
        TokenKind::Keyword(Keyword::Unsigned) => Some(SpecifierKeyword::Unsigned),
        _ => None,
    }
}

/// How tightly a binary operator holds its operands.
pub fn strength_of(op: BinaryOp) -> u32
    ensures { result ≡ strength op }
{
    match op {
        BinaryOp::Or => 3,
        BinaryOp::And => 4,
        BinaryOp::BitOr => 5,
        BinaryOp::BitXor => 6,
        BinaryOp::BitAnd => 7,
        BinaryOp::Equal | BinaryOp::NotEqual => 8,
        BinaryOp::Less | BinaryOp::Greater | BinaryOp::LessEqual | BinaryOp::GreaterEqual => 9,
        BinaryOp::ShiftLeft | BinaryOp::ShiftRight => 10,
        BinaryOp::Add | BinaryOp::Subtract => 11,
        BinaryOp::Multiply | BinaryOp::Divide | BinaryOp::Remainder => 12,
    }
}

/// The level of an expression, from 0 of the comma up to 16 of what stands alone.
pub fn level_of(expression: &Expression) -> u32
    ensures { result ≡ level (expression_of expression.now) }
{
    match expression {
        Expression::Name(_)
        | Expression::Number(_, _, _)
        | Expression::Character(_, _)
        | Expression::Texts(_)
        | Expression::Paren(_, _, _) => 16,
        Expression::Index(_, _, _, _)
        | Expression::Call(_, _, _, _)
        | Expression::Dot(_, _, _)
        | Expression::Arrow(_, _, _)
        | Expression::Post(_, _, _) => 15,
        Expression::Pre(_, _, _)
        | Expression::Unary(_, _, _)
        | Expression::SizeofExpression(_, _)
        | Expression::SizeofType(_, _, _, _) => 14,
        Expression::Cast(_, _, _, _) => 13,
        Expression::Binary(_, op, _, _) => strength_of(*op),
        Expression::Cond(_, _, _, _, _) => 2,
        Expression::Assign(_, _, _, _) => 1,
        Expression::Comma(_, _, _) | Expression::Braces(_, _, _, _) => 0,
    }
}
