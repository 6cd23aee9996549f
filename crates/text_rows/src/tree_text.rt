//! Trees as text: the parts of a node after the word or the punctuator for its alternative, in parentheses.

use crate::expression_text::{
    put_declarator, put_expression, put_optional_expression, put_specifiers,
};
use c_ast::{
    BlockItem, Declaration, ForStart, Function, InitDeclarator, Item, Label, Statement, SwitchItem,
    Tree, first_of_item, first_of_statement,
};
use row_lines::Writer;

/// A declarator, or `=`, a declarator and its initializer.
fn put_declared(out: &mut Writer, declared: &InitDeclarator) {
    match &declared.value {
        None => put_declarator(out, &declared.declarator),
        Some(value) => {
            out.open("=");
            put_declarator(out, &declared.declarator);
            put_expression(out, value.value.get());
            out.close();
        }
    }
}

/// Specifiers and declarators.
fn put_declaration(out: &mut Writer, declaration: &Declaration) {
    out.open("declare");
    put_specifiers(out, declaration.specifiers.as_slice());
    for declared in declaration.declarators.as_slice() {
        put_declared(out, declared);
    }
    out.close();
}

fn put_label(out: &mut Writer, label: &Label) {
    match label {
        Label::Case(_, value, _) => {
            out.open("case");
            put_expression(out, value);
            out.close();
        }
        Label::Default(_, _) => out.word("default"),
    }
}

fn put_start(out: &mut Writer, start: &ForStart) {
    match start {
        ForStart::Expression(value, _) => put_optional_expression(out, value),
        ForStart::Declaration(declaration) => put_declaration(out, declaration),
    }
}

/// The word for a statement.
fn statement_head(statement: &Statement) -> &'static str {
    match statement {
        Statement::Block(_, _, _) => "block",
        Statement::Expression(_, _) => ";",
        Statement::If(_, _, _, _, _) => "if",
        Statement::IfElse(_, _, _, _, _, _, _) => "if-else",
        Statement::While(_, _, _, _, _) => "while",
        Statement::DoWhile(_, _, _, _, _, _, _) => "do-while",
        Statement::For(_, _, _, _, _, _, _, _) => "for",
        Statement::Switch(_, _, _, _, _, _, _) => "switch",
        Statement::Break(_, _) => "break",
        Statement::Continue(_, _) => "continue",
        Statement::Return(_, _, _) => "return",
    }
}

#[cycle(statement_text)]
fn put_statement(out: &mut Writer, statement: &Statement) {
    out.place(first_of_statement(statement));
    out.open(statement_head(statement));
    put_parts(out, statement);
    out.close();
}

/// The parts of a statement.
#[cycle(statement_text)]
fn put_parts(out: &mut Writer, statement: &Statement) {
    match statement {
        Statement::Break(_, _) | Statement::Continue(_, _) => {}
        Statement::Expression(None, _) | Statement::Return(_, None, _) => {}
        Statement::Expression(Some(value), _) | Statement::Return(_, Some(value), _) => {
            put_expression(out, value.get());
        }
        Statement::Block(_, all, _) => put_block_items(out, all.as_slice()),
        Statement::If(_, _, test, _, body) | Statement::While(_, _, test, _, body) => {
            put_expression(out, test.get());
            put_statement(out, body.get());
        }
        Statement::DoWhile(_, body, _, _, test, _, _) => {
            put_statement(out, body.get());
            put_expression(out, test.get());
        }
        Statement::IfElse(_, _, test, _, one, _, other) => {
            put_expression(out, test.get());
            put_statement(out, one.get());
            put_statement(out, other.get());
        }
        Statement::For(_, _, start, test, _, step, _, body) => {
            put_start(out, start);
            put_optional_expression(out, test);
            put_optional_expression(out, step);
            put_statement(out, body.get());
        }
        Statement::Switch(_, _, value, _, _, all, _) => {
            put_expression(out, value.get());
            put_switch_items(out, all.as_slice());
        }
    }
}

#[cycle(statement_text)]
fn put_block_items(out: &mut Writer, all: &[BlockItem]) {
    for item in all {
        match item {
            BlockItem::Declaration(declaration) => put_declaration(out, declaration),
            BlockItem::Statement(statement) => put_statement(out, statement),
        }
    }
}

/// Declarations, and statements with their labels.
#[cycle(statement_text)]
fn put_switch_items(out: &mut Writer, all: &[SwitchItem]) {
    for item in all {
        match item {
            SwitchItem::Local(declaration) => put_declaration(out, declaration),
            SwitchItem::Labelled(labels, statement) => {
                out.open("arm");
                for label in labels.as_slice() {
                    put_label(out, label);
                }
                put_statement(out, statement);
                out.close();
            }
        }
    }
}

fn put_function(out: &mut Writer, function: &Function) {
    out.open("define");
    put_specifiers(out, function.specifiers.as_slice());
    put_declarator(out, &function.declarator);
    out.place(function.open);
    out.open("block");
    put_block_items(out, function.body.as_slice());
    out.close();
    out.close();
}

/// The text of a tree.
pub fn put_tree(out: &mut Writer, tree: &Tree) {
    for item in tree.items.as_slice() {
        out.place(first_of_item(item));
        match item {
            Item::Function(function) => put_function(out, function),
            Item::Declaration(declaration) => put_declaration(out, declaration),
        }
    }
}
