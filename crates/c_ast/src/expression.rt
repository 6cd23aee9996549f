//! Expressions (C99 6.5), and what they lead to: type names (6.7.6), specifiers (6.7.1 to 6.7.3)
//! and declarators (6.7.5).

use crate::operators::{AssignOp, BinaryOp, SpecifierKeyword, StepOp, UnaryOp};
use crate::words::{At, Spelling};
use c_types::IntKind;
use lay_base::{Boxed, List};

/// An expression: the alternatives, with the tokens of each in their order.
#[cycle(expression)]
#[derive(Drop)]
pub enum Expression {
    Name(Spelling),
    /// An integer constant with its value and type.
    Number(Spelling, u32, IntKind),
    /// A character constant with its value.
    Character(Spelling, u32),
    /// String literals, of which there is at least one.
    Texts(List<Spelling>),
    /// `(` expression `)`
    Paren(At, Boxed<Expression>, At),
    /// expression `[` expression `]`
    Index(Boxed<Expression>, At, Boxed<Expression>, At),
    /// expression `(` arguments `)`
    Call(Boxed<Expression>, At, List<Argument>, At),
    /// expression `.` name
    Dot(Boxed<Expression>, At, Spelling),
    /// expression `->` name
    Arrow(Boxed<Expression>, At, Spelling),
    /// expression `++` or `--`
    Post(Boxed<Expression>, StepOp, At),
    /// `++` or `--` expression
    Pre(StepOp, At, Boxed<Expression>),
    Unary(UnaryOp, At, Boxed<Expression>),
    /// `sizeof` expression
    SizeofExpression(At, Boxed<Expression>),
    /// `sizeof` `(` type name `)`
    SizeofType(At, At, TypeName, At),
    /// `(` type name `)` expression
    Cast(At, TypeName, At, Boxed<Expression>),
    Binary(Boxed<Expression>, BinaryOp, At, Boxed<Expression>),
    /// expression `?` expression `:` expression
    Cond(Boxed<Expression>, At, Boxed<Expression>, At, Boxed<Expression>),
    Assign(Boxed<Expression>, AssignOp, At, Boxed<Expression>),
    /// expression `,` expression
    Comma(Boxed<Expression>, At, Boxed<Expression>),
    /// `{` initializers, and a last comma or none `}`. It stands only where an initializer may
    /// (C99 6.7.8).
    Braces(At, List<Argument>, Option<At>, At),
}

/// An argument of a call or an initializer in braces, with the comma before it where it is not the
/// first.
#[cycle(expression)]
#[derive(Drop)]
pub struct Argument {
    pub comma: Option<At>,
    pub value: Expression,
}

/// A type name: specifiers, and an abstract declarator or none (C99 6.7.6).
#[cycle(expression)]
#[derive(Drop)]
pub struct TypeName {
    pub specifiers: List<Specifier>,
    pub declarator: Option<Boxed<Declarator>>,
}

#[cycle(expression)]
#[derive(Drop)]
pub enum Specifier {
    Keyword(SpecifierKeyword, At),
    /// A name that an earlier `typedef` of the file declared.
    Typename(Spelling),
    /// `struct` name
    Struct(At, Spelling),
    /// `struct` name or none `{` member declarations `}`
    StructBody(At, Option<Spelling>, At, List<MemberDeclaration>, At),
    /// `enum` name
    Enum(At, Spelling),
    /// `enum` name or none `{` enumerators, and a last comma or none `}`
    EnumBody(At, Option<Spelling>, At, List<Enumerator>, Option<At>, At),
}

/// Specifiers and declarators of fields, and `;` (C99 6.7.2.1).
#[cycle(expression)]
#[derive(Drop)]
pub struct MemberDeclaration {
    pub specifiers: List<Specifier>,
    pub declarators: List<MemberDeclarator>,
    pub semicolon: At,
}

/// A declarator of a field, with the comma before it where it is not the first of its line.
#[cycle(expression)]
#[derive(Drop)]
pub struct MemberDeclarator {
    pub comma: Option<At>,
    pub declarator: Declarator,
}

/// An enumerator, with the comma before it where it is not the first (C99 6.7.2.2).
#[cycle(expression)]
#[derive(Drop)]
pub struct Enumerator {
    pub comma: Option<At>,
    pub name: Spelling,
    pub value: Option<EnumeratorValue>,
}

/// `=` and an expression.
#[cycle(expression)]
#[derive(Drop)]
pub struct EnumeratorValue {
    pub equal: At,
    pub value: Boxed<Expression>,
}

/// A declarator, with or without its name (C99 6.7.5, 6.7.6). What a pointer, an array or a function is of is left out where a declarator
/// without a name has nothing there.
#[cycle(expression)]
#[derive(Drop)]
pub enum Declarator {
    Identifier(Spelling),
    /// `*`, any number of `const`, and a declarator
    Pointer(At, List<At>, Option<Boxed<Declarator>>),
    /// `(` declarator `)`
    Enclosed(At, Boxed<Declarator>, At),
    /// declarator `[` length or none `]`
    Array(Option<Boxed<Declarator>>, At, Option<Boxed<Expression>>, At),
    /// declarator `(` parameters `)`
    Function(Option<Boxed<Declarator>>, At, Parameters, At),
}

#[cycle(expression)]
#[derive(Drop)]
pub enum Parameters {
    /// `void` alone: there are none.
    Void(At),
    Listed(List<Parameter>),
}

/// A parameter, with the comma before it where it is not the first.
#[cycle(expression)]
#[derive(Drop)]
pub struct Parameter {
    pub comma: Option<At>,
    pub specifiers: List<Specifier>,
    pub declarator: Option<Boxed<Declarator>>,
}
