//! Expressions, type names, specifiers and declarators as text.

use crate::operator_text::{
    assign_text, binary_text, postfix_text, prefix_text, specifier_text, unary_text,
};
use c_ast::{
    Argument, Declarator, Enumerator, Expression, MemberDeclaration, Parameter, Parameters,
    Specifier, Spelling, TypeName, first_of_declarator, first_of_expression, first_of_specifier,
    first_of_specifiers,
};
use c_types::IntKind;
use lay_base::Boxed;
use row_lines::Writer;

/// What stands where a part is left out.
const NOTHING: &str = "()";

/// A name or a literal as it is spelled.
fn put_word(out: &mut Writer, name: &Spelling) {
    out.bytes(name.text.as_slice());
}

/// The name of a type, as `<T>`.
fn put_type_word(out: &mut Writer, name: &Spelling) {
    out.word("<");
    out.add(name.text.as_slice());
    out.add(b">");
}

/// A number in decimal, with the suffix of its type.
fn put_number(out: &mut Writer, value: u32, kind: IntKind) {
    let suffix = match kind {
        IntKind::Int => "",
        IntKind::UInt => "u",
        IntKind::Long => "l",
        IntKind::ULong => "ul",
        _ => "?",
    };
    out.number(u64::from(value));
    out.add(suffix.as_bytes());
}

fn put_strings(out: &mut Writer, all: &[Spelling]) {
    out.open("strings");
    for text in all {
        put_word(out, text);
    }
    out.close();
}

/// A name or a constant.
fn put_leaf(out: &mut Writer, node: &Expression) {
    match node {
        Expression::Name(name) => put_word(out, name),
        Expression::Number(_, value, kind) => put_number(out, *value, *kind),
        Expression::Character(_, value) => {
            out.open("character");
            put_number(out, *value, IntKind::Int);
            out.close();
        }
        Expression::Texts(all) => put_strings(out, all.as_slice()),
        _ => {}
    }
}

/// The word or the punctuator for an expression that has parts.
fn head_of(node: &Expression) -> Option<&'static str> {
    let head = match node {
        Expression::Name(_)
        | Expression::Number(_, _, _)
        | Expression::Character(_, _)
        | Expression::Texts(_) => return None,
        Expression::Paren(_, _, _) => "paren",
        Expression::Index(_, _, _, _) => "index",
        Expression::Call(_, _, _, _) => "call",
        Expression::Dot(_, _, _) => ".",
        Expression::Arrow(_, _, _) => "->",
        Expression::Post(_, op, _) => postfix_text(*op),
        Expression::Pre(op, _, _) => prefix_text(*op),
        Expression::Unary(op, _, _) => unary_text(*op),
        Expression::SizeofExpression(_, _) => "sizeof",
        Expression::SizeofType(_, _, _, _) => "sizeof-type",
        Expression::Cast(_, _, _, _) => "cast",
        Expression::Binary(_, op, _, _) => binary_text(*op),
        Expression::Cond(_, _, _, _, _) => "?",
        Expression::Assign(_, op, _, _) => assign_text(*op),
        Expression::Comma(_, _, _) => ",",
        Expression::Braces(_, _, _, _) => "braces",
    };
    Some(head)
}

#[cycle(expression_text)]
pub fn put_expression(out: &mut Writer, expression: &Expression) {
    out.place(first_of_expression(expression));
    match head_of(expression) {
        None => put_leaf(out, expression),
        Some(head) => {
            out.open(head);
            put_type_operand(out, expression);
            put_operands(out, expression);
            put_other_parts(out, expression);
            out.close();
        }
    }
}

/// The type name of an expression that has one.
#[cycle(expression_text)]
fn put_type_operand(out: &mut Writer, node: &Expression) {
    match node {
        Expression::SizeofType(_, _, type_name, _) | Expression::Cast(_, type_name, _, _) => {
            put_type_name(out, type_name);
        }
        _ => {}
    }
}

/// The operands of an expression, which come after its type name.
#[cycle(expression_text)]
fn put_operands(out: &mut Writer, node: &Expression) {
    match node {
        Expression::Paren(_, a, _)
        | Expression::Post(a, _, _)
        | Expression::Pre(_, _, a)
        | Expression::Unary(_, _, a)
        | Expression::SizeofExpression(_, a)
        | Expression::Cast(_, _, _, a)
        | Expression::Dot(a, _, _)
        | Expression::Arrow(a, _, _)
        | Expression::Call(a, _, _, _) => put_expression(out, a.get()),
        Expression::Index(a, _, b, _)
        | Expression::Binary(a, _, _, b)
        | Expression::Assign(a, _, _, b)
        | Expression::Comma(a, _, b) => {
            put_expression(out, a.get());
            put_expression(out, b.get());
        }
        Expression::Cond(a, _, b, _, c) => {
            put_expression(out, a.get());
            put_expression(out, b.get());
            put_expression(out, c.get());
        }
        _ => {}
    }
}

/// What comes after the operands of an expression: the name of a member, arguments, initializers.
#[cycle(expression_text)]
fn put_other_parts(out: &mut Writer, node: &Expression) {
    match node {
        Expression::Dot(_, _, name) | Expression::Arrow(_, _, name) => put_word(out, name),
        Expression::Call(_, _, all, _) => put_list(out, all.as_slice()),
        Expression::Braces(_, all, last, _) => {
            put_list(out, all.as_slice());
            put_last_comma(out, *last);
        }
        _ => {}
    }
}

/// A comma, where one stands after the last of a list.
fn put_last_comma(out: &mut Writer, comma: Option<u32>) {
    match comma {
        None => {}
        Some(_) => out.word(","),
    }
}

/// Arguments, or initializers in braces.
#[cycle(expression_text)]
fn put_list(out: &mut Writer, all: &[Argument]) {
    for item in all {
        put_expression(out, &item.value);
    }
}

/// An expression, where there is one.
#[cycle(expression_text)]
pub fn put_optional_expression(out: &mut Writer, expression: &Option<Boxed<Expression>>) {
    match expression {
        None => out.word(NOTHING),
        Some(expression) => put_expression(out, expression.get()),
    }
}

/// A type name: specifiers and an abstract declarator or none.
#[cycle(expression_text)]
fn put_type_name(out: &mut Writer, type_name: &TypeName) {
    out.open("");
    put_specifiers(out, type_name.specifiers.as_slice());
    if let Some(declarator) = &type_name.declarator {
        put_declarator(out, declarator.get());
    }
    out.close();
}

#[cycle(expression_text)]
pub fn put_specifiers(out: &mut Writer, all: &[Specifier]) {
    for specifier in all {
        put_specifier(out, specifier);
    }
}

/// The keyword and the tag or none of a `struct` or an `enum`.
fn open_tagged(out: &mut Writer, keyword: &str, tag: &Option<Spelling>) {
    out.open(keyword);
    match tag {
        None => {}
        Some(tag) => put_word(out, tag),
    }
}

#[cycle(expression_text)]
fn put_specifier(out: &mut Writer, specifier: &Specifier) {
    out.place(first_of_specifier(specifier));
    match specifier {
        Specifier::Keyword(of, _) => out.word(specifier_text(*of)),
        Specifier::Typename(name) => put_type_word(out, name),
        Specifier::Struct(_, tag) => {
            out.open("struct");
            put_word(out, tag);
            out.close();
        }
        Specifier::Enum(_, tag) => {
            out.open("enum");
            put_word(out, tag);
            out.close();
        }
        Specifier::StructBody(_, tag, _, all, _) => {
            open_tagged(out, "struct", tag);
            out.word("{");
            put_member_declarations(out, all.as_slice());
            out.word("}");
            out.close();
        }
        Specifier::EnumBody(_, tag, _, all, last, _) => {
            open_tagged(out, "enum", tag);
            out.word("{");
            put_enumerators(out, all.as_slice());
            put_last_comma(out, *last);
            out.word("}");
            out.close();
        }
    }
}

/// The member declarations of a struct, each with its specifiers and its declarators.
#[cycle(expression_text)]
fn put_member_declarations(out: &mut Writer, all: &[MemberDeclaration]) {
    for member in all {
        let specifiers = member.specifiers.as_slice();
        out.place(first_of_specifiers(specifiers));
        out.open("");
        put_specifiers(out, specifiers);
        for one in member.declarators.as_slice() {
            put_declarator(out, &one.declarator);
        }
        out.close();
    }
}

/// Names, or `=`, a name and its value.
#[cycle(expression_text)]
fn put_enumerators(out: &mut Writer, all: &[Enumerator]) {
    for enumerator in all {
        out.place(enumerator.name.from);
        match &enumerator.value {
            None => put_word(out, &enumerator.name),
            Some(value) => {
                out.open("=");
                put_word(out, &enumerator.name);
                put_expression(out, value.value.get());
                out.close();
            }
        }
    }
}

/// `*`, and `const` as often as it stands there.
fn open_pointer(out: &mut Writer, times: usize) {
    out.open("*");
    for _ in 0..times {
        out.word("const");
    }
}

#[cycle(expression_text)]
pub fn put_declarator(out: &mut Writer, declarator: &Declarator) {
    out.place(first_of_declarator(declarator));
    match declarator {
        Declarator::Identifier(name) => put_word(out, name),
        Declarator::Enclosed(_, inner, _) => {
            out.open("paren");
            put_declarator(out, inner.get());
            out.close();
        }
        Declarator::Pointer(_, consts, inner) => {
            open_pointer(out, consts.len());
            if let Some(inner) = inner {
                put_declarator(out, inner.get());
            }
            out.close();
        }
        Declarator::Array(inner, _, length, _) => {
            out.open("array");
            put_inner(out, inner);
            put_optional_expression(out, length);
            out.close();
        }
        Declarator::Function(inner, _, parameters, _) => {
            out.open("function");
            put_inner(out, inner);
            put_parameters(out, parameters);
            out.close();
        }
    }
}

/// What an array or a function is of, where it has a declarator.
#[cycle(expression_text)]
fn put_inner(out: &mut Writer, declarator: &Option<Boxed<Declarator>>) {
    match declarator {
        None => out.word(NOTHING),
        Some(declarator) => put_declarator(out, declarator.get()),
    }
}

/// `void`, or each parameter with its specifiers and its declarator or none.
#[cycle(expression_text)]
fn put_parameters(out: &mut Writer, parameters: &Parameters) {
    match parameters {
        Parameters::Void(_) => out.word("void"),
        Parameters::Listed(all) => put_listed(out, all.as_slice()),
    }
}

#[cycle(expression_text)]
fn put_listed(out: &mut Writer, all: &[Parameter]) {
    for parameter in all {
        out.open("");
        put_specifiers(out, parameter.specifiers.as_slice());
        if let Some(declarator) = &parameter.declarator {
            put_declarator(out, declarator.get());
        }
        out.close();
    }
}
