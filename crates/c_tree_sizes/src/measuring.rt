//! The depth and the number of nodes of each sort of node and list.

ghost use Rattle.std.specs.Prelude.{◌≡◌, map};
ghost use Rattle.std.specs.Option.{option_map};
ghost use Rattle.c_ast.specs.Sizes.{IsCountable, as_initializer, size as size_of, size_arguments, size_initializers, size_type_name, size_specifiers};
ghost use Rattle.c_ast.specs.Sizes.{size_specifier, size_member_declarations, size_member_declarators, size_enumerators, size_declarator};
ghost use Rattle.c_ast.specs.Sizes.{size_parameter_list, size_parameters, size_initializer, size_init_declarators, size_declaration, size_if_any};
ghost use Rattle.c_ast.specs.Sizes.{size_labels, size_for_start, size_statement, size_block_items, size_switch_items, size_item, size_items};
ghost use Rattle.c_ast.specs.Views.{expression_of, argument_of, type_name_of, specifier_of, member_declaration_of, member_declarator_of};
ghost use Rattle.c_ast.specs.Views.{enumerator_of, declarator_of, parameter_list_of, parameter_of, arguments_of, specifiers_of};
ghost use Rattle.c_ast.specs.Views.{member_declarations_of, member_declarators_of, enumerators_of, parameters_of, init_declarator_of, declaration_of};
ghost use Rattle.c_ast.specs.Views.{label_of, for_start_of, block_items_of, switch_items_of, statement_of, block_item_of, switch_item_of};
ghost use Rattle.c_ast.specs.Views.{function_of, item_of};

use crate::size::{beside, empty, leaf, over};
use c_ast::{
    Argument, BlockItem, Declaration, Declarator, Enumerator, Expression, ForStart, Function,
    InitDeclarator, Item, Label, MemberDeclaration, MemberDeclarator, Parameter, Parameters, Size,
    Specifier, Statement, SwitchItem, TypeName,
};
use lay_base::Boxed;

/// The size of an initializer, of which that of the expression is known.
fn as_initializer(a: &Expression, size: Size) -> Size
    requires { IsCountable (as_initializer (expression_of a.now) size) }
    ensures { result ≡ as_initializer (expression_of a.now) size }
{
    match a {
        Expression::Braces(_, _, _, _) => size,
        _ => over(size),
    }
}

#[cycle(expression_sizes)]
fn expression_size(a: &Expression) -> Size
    requires { IsCountable (size_of (expression_of a.now)) }
    ensures { result ≡ size_of (expression_of a.now) }
{
    match a {
        Expression::Name(_)
        | Expression::Number(_, _, _)
        | Expression::Character(_, _)
        | Expression::Texts(_) => leaf(),
        Expression::Paren(_, a, _)
        | Expression::Dot(a, _, _)
        | Expression::Arrow(a, _, _)
        | Expression::Post(a, _, _)
        | Expression::Pre(_, _, a)
        | Expression::Unary(_, _, a)
        | Expression::SizeofExpression(_, a) => over(expression_size(a.get())),
        Expression::SizeofType(_, _, type_name, _) => over(type_name_size(type_name)),
        Expression::Cast(_, type_name, _, a) => over(beside(
            type_name_size(type_name),
            expression_size(a.get()),
        )),
        Expression::Index(a, _, b, _)
        | Expression::Binary(a, _, _, b)
        | Expression::Assign(a, _, _, b)
        | Expression::Comma(a, _, b) => over(beside(
            expression_size(a.get()),
            expression_size(b.get()),
        )),
        Expression::Cond(a, _, b, _, c) => {
            let both = beside(expression_size(a.get()), expression_size(b.get()));
            over(beside(both, expression_size(c.get())))
        }
        Expression::Call(f, _, all, _) => over(beside(
            expression_size(f.get()),
            arguments_size(all.as_slice()),
        )),
        Expression::Braces(_, all, _, _) => over(initializers_size(all.as_slice())),
    }
}

#[cycle(expression_sizes)]
fn arguments_size(all: &[Argument]) -> Size
    requires { IsCountable (size_arguments (arguments_of (map argument_of all.now))) }
    ensures { result ≡ size_arguments (arguments_of (map argument_of all.now)) }
{
    let mut size = empty();
    for item in all {
        size = beside(size, expression_size(&item.value));
    }
    size
}

#[cycle(expression_sizes)]
fn initializers_size(all: &[Argument]) -> Size
    requires { IsCountable (size_initializers (arguments_of (map argument_of all.now))) }
    ensures { result ≡ size_initializers (arguments_of (map argument_of all.now)) }
{
    let mut size = empty();
    for item in all {
        let own = as_initializer(&item.value, expression_size(&item.value));
        size = beside(size, own);
    }
    size
}

#[cycle(expression_sizes)]
fn type_name_size(type_name: &TypeName) -> Size
    requires { IsCountable (size_type_name (type_name_of type_name.now)) }
    ensures { result ≡ size_type_name (type_name_of type_name.now) }
{
    let specifiers = specifiers_size(type_name.specifiers.as_slice());
    match &type_name.declarator {
        None => specifiers,
        Some(d) => beside(specifiers, declarator_size(d.get())),
    }
}

#[cycle(expression_sizes)]
fn specifiers_size(all: &[Specifier]) -> Size
    requires { IsCountable (size_specifiers (specifiers_of (map specifier_of all.now))) }
    ensures { result ≡ size_specifiers (specifiers_of (map specifier_of all.now)) }
{
    let mut size = empty();
    for specifier in all {
        size = beside(size, specifier_size(specifier));
    }
    size
}

#[cycle(expression_sizes)]
fn specifier_size(specifier: &Specifier) -> Size
    requires { IsCountable (size_specifier (specifier_of specifier.now)) }
    ensures { result ≡ size_specifier (specifier_of specifier.now) }
{
    match specifier {
        Specifier::Keyword(_, _)
        | Specifier::Typename(_)
        | Specifier::Struct(_, _)
        | Specifier::Enum(_, _) => leaf(),
        Specifier::StructBody(_, _, _, all, _) => over(member_declarations_size(all.as_slice())),
        Specifier::EnumBody(_, _, _, all, _, _) => over(enumerators_size(all.as_slice())),
    }
}

#[cycle(expression_sizes)]
fn member_declarations_size(all: &[MemberDeclaration]) -> Size
    requires { IsCountable (size_member_declarations (member_declarations_of (map member_declaration_of all.now))) }
    ensures { result ≡ size_member_declarations (member_declarations_of (map member_declaration_of all.now)) }
{
    let mut size = empty();
    for member_declaration in all {
        let specifiers = specifiers_size(member_declaration.specifiers.as_slice());
        let declarators = member_declarators_size(member_declaration.declarators.as_slice());
        size = beside(size, over(beside(specifiers, declarators)));
    }
    size
}

#[cycle(expression_sizes)]
fn member_declarators_size(all: &[MemberDeclarator]) -> Size
    requires { IsCountable (size_member_declarators (member_declarators_of (map member_declarator_of all.now))) }
    ensures { result ≡ size_member_declarators (member_declarators_of (map member_declarator_of all.now)) }
{
    let mut size = empty();
    for member_declarator in all {
        size = beside(size, declarator_size(&member_declarator.declarator));
    }
    size
}

#[cycle(expression_sizes)]
fn enumerators_size(all: &[Enumerator]) -> Size
    requires { IsCountable (size_enumerators (enumerators_of (map enumerator_of all.now))) }
    ensures { result ≡ size_enumerators (enumerators_of (map enumerator_of all.now)) }
{
    let mut size = empty();
    for enumerator in all {
        let value = match &enumerator.value {
            None => empty(),
            Some(value) => expression_size(value.value.get()),
        };
        size = beside(size, over(value));
    }
    size
}

#[cycle(expression_sizes)]
fn declarator_size(d: &Declarator) -> Size
    requires { IsCountable (size_declarator (declarator_of d.now)) }
    ensures { result ≡ size_declarator (declarator_of d.now) }
{
    match d {
        Declarator::Identifier(_) => leaf(),
        Declarator::Enclosed(_, d, _) => over(declarator_size(d.get())),
        Declarator::Pointer(_, _, d) => {
            let inner = match d {
                None => empty(),
                Some(d) => declarator_size(d.get()),
            };
            over(inner)
        }
        Declarator::Array(d, _, length, _) => {
            let inner = match d {
                None => empty(),
                Some(d) => declarator_size(d.get()),
            };
            let length = match length {
                None => empty(),
                Some(a) => expression_size(a.get()),
            };
            over(beside(inner, length))
        }
        Declarator::Function(d, _, all, _) => {
            let inner = match d {
                None => empty(),
                Some(d) => declarator_size(d.get()),
            };
            over(beside(inner, parameters_size(all)))
        }
    }
}

#[cycle(expression_sizes)]
fn parameters_size(parameters: &Parameters) -> Size
    requires { IsCountable (size_parameter_list (parameter_list_of parameters.now)) }
    ensures { result ≡ size_parameter_list (parameter_list_of parameters.now) }
{
    match parameters {
        Parameters::Void(_) => empty(),
        Parameters::Listed(all) => listed_size(all.as_slice()),
    }
}

#[cycle(expression_sizes)]
fn listed_size(all: &[Parameter]) -> Size
    requires { IsCountable (size_parameters (parameters_of (map parameter_of all.now))) }
    ensures { result ≡ size_parameters (parameters_of (map parameter_of all.now)) }
{
    let mut size = empty();
    for parameter in all {
        let specifiers = specifiers_size(parameter.specifiers.as_slice());
        let declarator = match &parameter.declarator {
            None => empty(),
            Some(d) => declarator_size(d.get()),
        };
        size = beside(size, beside(specifiers, declarator));
    }
    size
}

fn initializer_size(a: &Expression) -> Size
    requires { IsCountable (size_initializer (expression_of a.now)) }
    ensures { result ≡ size_initializer (expression_of a.now) }
{
    as_initializer(a, expression_size(a))
}

fn init_declarators_size(all: &[InitDeclarator]) -> Size
    requires { IsCountable (size_init_declarators (map init_declarator_of all.now)) }
    ensures { result ≡ size_init_declarators (map init_declarator_of all.now) }
{
    let mut size = empty();
    for d in all {
        let declarator = declarator_size(&d.declarator);
        let value = match &d.value {
            None => empty(),
            Some(value) => initializer_size(value.value.get()),
        };
        size = beside(size, beside(declarator, value));
    }
    size
}

fn declaration_size(d: &Declaration) -> Size
    requires { IsCountable (size_declaration (declaration_of d.now)) }
    ensures { result ≡ size_declaration (declaration_of d.now) }
{
    let specifiers = specifiers_size(d.specifiers.as_slice());
    beside(specifiers, init_declarators_size(d.declarators.as_slice()))
}

fn optional_size(a: &Option<Boxed<Expression>>) -> Size
    requires { IsCountable (size_if_any (option_map expression_of a.now)) }
    ensures { result ≡ size_if_any (option_map expression_of a.now) }
{
    match a {
        None => empty(),
        Some(a) => expression_size(a.get()),
    }
}

fn labels_size(all: &[Label]) -> Size
    requires { IsCountable (size_labels (map label_of all.now)) }
    ensures { result ≡ size_labels (map label_of all.now) }
{
    let mut size = empty();
    for label in all {
        let value = match label {
            Label::Case(_, a, _) => expression_size(a),
            Label::Default(_, _) => empty(),
        };
        size = beside(size, value);
    }
    size
}

fn for_start_size(start: &ForStart) -> Size
    requires { IsCountable (size_for_start (for_start_of start.now)) }
    ensures { result ≡ size_for_start (for_start_of start.now) }
{
    match start {
        ForStart::Expression(a, _) => optional_size(a),
        ForStart::Declaration(d) => declaration_size(d),
    }
}

#[cycle(statement_sizes)]
fn statement_size(s: &Statement) -> Size
    requires { IsCountable (size_statement (statement_of s.now)) }
    ensures { result ≡ size_statement (statement_of s.now) }
{
    match s {
        Statement::Break(_, _) | Statement::Continue(_, _) => leaf(),
        Statement::Expression(a, _) | Statement::Return(_, a, _) => over(optional_size(a)),
        Statement::Block(_, items, _) => over(block_items_size(items.as_slice())),
        Statement::If(_, _, a, _, body) | Statement::While(_, _, a, _, body) => {
            over(beside(expression_size(a.get()), statement_size(body.get())))
        }
        Statement::DoWhile(_, body, _, _, a, _, _) => {
            over(beside(statement_size(body.get()), expression_size(a.get())))
        }
        Statement::IfElse(_, _, a, _, one, _, other) => {
            let first = beside(expression_size(a.get()), statement_size(one.get()));
            over(beside(first, statement_size(other.get())))
        }
        Statement::For(_, _, start, test, _, step, _, body) => {
            let head = beside(for_start_size(start), optional_size(test));
            let head = beside(head, optional_size(step));
            over(beside(head, statement_size(body.get())))
        }
        Statement::Switch(_, _, a, _, _, items, _) => {
            over(beside(
                expression_size(a.get()),
                switch_items_size(items.as_slice()),
            ))
        }
    }
}

#[cycle(statement_sizes)]
fn block_items_size(all: &[BlockItem]) -> Size
    requires { IsCountable (size_block_items (block_items_of (map block_item_of all.now))) }
    ensures { result ≡ size_block_items (block_items_of (map block_item_of all.now)) }
{
    let mut size = empty();
    for block_item in all {
        let within = match block_item {
            BlockItem::Declaration(d) => declaration_size(d),
            BlockItem::Statement(s) => statement_size(s),
        };
        size = beside(size, within);
    }
    size
}

#[cycle(statement_sizes)]
fn switch_items_size(all: &[SwitchItem]) -> Size
    requires { IsCountable (size_switch_items (switch_items_of (map switch_item_of all.now))) }
    ensures { result ≡ size_switch_items (switch_items_of (map switch_item_of all.now)) }
{
    let mut size = empty();
    for switch_item in all {
        let within = match switch_item {
            SwitchItem::Local(d) => declaration_size(d),
            SwitchItem::Labelled(labels, s) => {
                beside(labels_size(labels.as_slice()), statement_size(s))
            }
        };
        size = beside(size, within);
    }
    size
}

fn function_size(f: &Function) -> Size
    requires { IsCountable (size_item (function_of f.now)) }
    ensures { result ≡ size_item (function_of f.now) }
{
    let specifiers = specifiers_size(f.specifiers.as_slice());
    let head = beside(specifiers, declarator_size(&f.declarator));
    over(beside(head, over(block_items_size(f.body.as_slice()))))
}

/// The size of an item of a file.
pub fn item_size(item: &Item) -> Size
    requires { IsCountable (size_item (item_of item.now)) }
    ensures { result ≡ size_item (item_of item.now) }
{
    match item {
        Item::Function(f) => function_size(f),
        Item::Declaration(d) => over(declaration_size(d)),
    }
}

/// The size of a file's items.
pub fn items_size(all: &[Item]) -> Size
    requires { IsCountable (size_items (map item_of all.now)) }
    ensures { result ≡ size_items (map item_of all.now) }
{
    let mut size = empty();
    for item in all {
        size = beside(size, item_size(item));
    }
    size
}
