//! Expressions (C99 6.5), and integer constant expressions (6.6).

ghost use Rattle.std.specs.Prelude.{map};
ghost use Rattle.c_types.specs.Views.{type_of, types_of};
ghost use Rattle.c_ast.specs.Places.{first};
ghost use Rattle.c_ast.specs.Views.{argument_of, arguments_of, expression_of as tree_of};
ghost use Rattle.c_erasure.specs.Checking.Answers.{moved};
ghost use Rattle.c_erasure.specs.Checking.Finding.{arguments, assigned as assigned_to, constant_at, find, subscripted, tested_at, value_at};
ghost use Rattle.c_erasure.specs.Checking.Nodes.{array_of as array_in};
ghost use Rattle.c_erasure.specs.Operators.{update_of};
ghost use Rattle.c_erasure.specs.Scopes.{for_value};
ghost use Rattle.c_annotated.specs.Views.{expression_of, expressions_of, thing_of};
ghost use Rattle.c_nodes.specs.DeclaratorTypes.DeclaratorViews.{integer_view};
ghost use Rattle.c_nodes.specs.OperatorNodes.Parts.{target_view};
ghost use Rattle.c_scopes.specs.Scoping.{file_of, scope_of};
ghost use Rattle.c_check_expressions.specs.Finds.{Finds};
ghost use Rattle.c_check_expressions.specs.Parts.{argument_found, call_found};

use crate::operators::unary_thing;
use crate::places::{first_and_rest, first_of_argument};
use crate::start::begins_at;
use crate::types::type_name;
use c_annotated::{Expression as Typed, Thing};
use c_ast::{Argument, AssignOp, Expression, first_of_expression};
use c_declaring::{character, literal, mentions_in, name, number, size_of_thing, size_of_type};
use c_nodes::{
    Fault, Integer, Start, Subscripted, Target, Value, argument as converted_argument, array_of,
    arrow, assigned, binary, call as called, cast, chosen, comma, constant as constant_value,
    copied, dot, element, index as indexed, kind_of, signature_of, step, step_of, target_in,
    tested, update_of, updated, worth,
};
use c_scopes::{FileScope, Scope, for_value, measured, place_in};
use c_types::Ty;
use lay_base::{List, Rule, add};

/// What an expression designates (C99 6.5), in the file up to there, which gets what it declares.
#[cycle(finding)]
#[tactic(auto, unfolding(c_erasure::specs::Checking::Finding::find))]
pub fn find(e: &Expression, file: &mut FileScope, scope: Scope) -> Result<Thing, Fault>
    ensures { Finds thing_of result (find (tree_of e.now) (scope_of file.old scope.entry)) file.new }
{
    // These are most expressions. The function for all others needs much more room on the stack, which takes time to make.
    match e {
        Expression::Name(x) => name(file, scope, x),
        Expression::Number(x, n, kind) => number(file, scope, x.from, *n, *kind),
        Expression::Paren(_, a, _) => find(a.get(), file, scope),
        _ => find_any(e, file, scope),
    }
}

/// What an expression of any kind designates.
#[cycle(finding)]
#[tactic(auto, unfolding(c_erasure::specs::Checking::Finding::find))]
fn find_any(e: &Expression, file: &mut FileScope, scope: Scope) -> Result<Thing, Fault>
    ensures { Finds thing_of result (find (tree_of e.now) (scope_of file.old scope.entry)) file.new }
{
    match e {
        Expression::Name(x) => name(file, scope, x),
        Expression::Number(x, n, kind) => number(file, scope, x.from, *n, *kind),
        Expression::Character(x, n) => character(file, scope, x.from, *n),
        Expression::Texts(all) => {
            let place = place_in(file, scope, first_of_expression(e));
            literal(file, scope, place, all.as_slice())
        }
        Expression::Paren(_, a, _) => find(a.get(), file, scope),
        Expression::Index(a, left, b, _) => {
            let begin = begins_at(file, scope, first_of_expression(a.get()));
            match find(a.get(), file, scope) {
                Err(fault) => Err(fault),
                Ok(thing) => index(b.get(), file, scope, begin, *left, thing),
            }
        }
        Expression::Call(g, _, all, right) => {
            let begin = begins_at(file, scope, first_of_expression(g.get()));
            match find(g.get(), file, scope) {
                Err(fault) => Err(fault),
                Ok(thing) => call(all, file, scope, begin, *right, thing),
            }
        }
        Expression::Dot(a, at, x) => {
            let place = place_in(file, scope, first_of_expression(a.get()));
            let count = file.tags.ended(*at);
            match find(a.get(), file, scope) {
                Err(fault) => Err(fault),
                Ok(thing) => dot(file.alloc, &file.records, count, place, x, thing),
            }
        }
        Expression::Arrow(a, _, x) => {
            let begin = begins_at(file, scope, first_of_expression(a.get()));
            match value(a.get(), file, scope) {
                Err(fault) => Err(fault),
                Ok(p) => arrow(&file.records, begin, x, p),
            }
        }
        Expression::Post(a, op, at) => {
            let begin = begins_at(file, scope, first_of_expression(a.get()));
            match find(a.get(), file, scope) {
                Err(fault) => Err(fault),
                Ok(thing) => step(begin, begin.at, *at, step_of(*op), false, thing),
            }
        }
        Expression::Pre(op, at, a) => {
            let begin = begins_at(file, scope, *at);
            let from = first_of_expression(a.get());
            match find(a.get(), file, scope) {
                Err(fault) => Err(fault),
                Ok(thing) => step(begin, from, *at, step_of(*op), true, thing),
            }
        }
        Expression::Unary(op, at, a) => {
            let begin = begins_at(file, scope, *at);
            let from = first_of_expression(a.get());
            match find(a.get(), file, scope) {
                Err(fault) => Err(fault),
                Ok(thing) => unary_thing(file, *op, begin, from, *at, thing),
            }
        }
        Expression::SizeofExpression(at, a) => {
            let begin = begins_at(file, scope, *at);
            let from = first_of_expression(a.get());
            let inner = measured(file, scope);
            match find(a.get(), file, inner) {
                Err(fault) => Err(fault),
                Ok(thing) => size_of_thing(file, scope, begin, from, thing),
            }
        }
        Expression::SizeofType(at, _, n, right) => {
            let place = place_in(file, scope, *at);
            let count = file.tags.ended(*right);
            let before = mentions_in(file);
            match type_name(n, file, scope) {
                Err(fault) => Err(fault),
                Ok(t) => size_of_type(file, scope, before, count, *at, place, t),
            }
        }
        Expression::Cast(left, n, _, a) => {
            let place = place_in(file, scope, *left);
            match type_name(n, file, scope) {
                Err(fault) => Err(fault),
                Ok(t) => match value(a.get(), file, scope) {
                    Err(fault) => Err(fault),
                    Ok(x) => cast(file.alloc, place, t, x),
                },
            }
        }
        Expression::Binary(a, op, at, b) => {
            let begin = begins_at(file, scope, first_of_expression(a.get()));
            match value(a.get(), file, scope) {
                Err(fault) => Err(fault),
                Ok(x) => match value(b.get(), file, scope) {
                    Err(fault) => Err(fault),
                    Ok(y) => binary(begin, *at, kind_of(*op), x, y),
                },
            }
        }
        Expression::Cond(a, question, b, colon, c) => {
            let begin = begins_at(file, scope, first_of_expression(a.get()));
            match test(a.get(), file, scope, *question) {
                Err(fault) => Err(fault),
                Ok(x) => match value(b.get(), file, scope) {
                    Err(fault) => Err(fault),
                    Ok(y) => match value(c.get(), file, scope) {
                        Err(fault) => Err(fault),
                        Ok(z) => chosen(begin, *colon, x, y, z),
                    },
                },
            }
        }
        Expression::Assign(a, op, at, b) => {
            let begin = begins_at(file, scope, first_of_expression(a.get()));
            match find(a.get(), file, scope) {
                Err(fault) => Err(fault),
                Ok(thing) => match target_in(begin.at, thing) {
                    Err(fault) => Err(fault),
                    Ok(target) => assign(b.get(), file, scope, begin, *op, *at, target),
                },
            }
        }
        Expression::Comma(a, _, b) => {
            let begin = begins_at(file, scope, first_of_expression(a.get()));
            match value(a.get(), file, scope) {
                Err(fault) => Err(fault),
                Ok(x) => match value(b.get(), file, scope) {
                    Err(fault) => Err(fault),
                    Ok(y) => comma(begin, x, y),
                },
            }
        }
        Expression::Braces(left, _, _, _) => Err(Fault::IllTyped(Rule::Init, *left)),
    }
}

/// The value of an expression (C99 6.3.2.1).
#[cycle(finding)]
pub fn value(e: &Expression, file: &mut FileScope, scope: Scope) -> Result<Value, Fault>
    ensures { Finds expression_of result (value_at (first (tree_of e.now)) (find (tree_of e.now) (scope_of file.old scope.entry))) file.new }
{
    match find(e, file, scope) {
        Err(fault) => Err(fault),
        Ok(thing) => worth(file.alloc, first_of_expression(e), thing),
    }
}

/// The value of an expression that is tested against zero. A fault of its type is named at `question`.
#[cycle(finding)]
fn test(e: &Expression, file: &mut FileScope, scope: Scope, question: u32) -> Result<Value, Fault>
    ensures { Finds expression_of result
        (tested_at question (value_at (first (tree_of e.now)) (find (tree_of e.now) (scope_of file.old scope.entry)))) file.new }
{
    match value(e, file, scope) {
        Err(fault) => Err(fault),
        Ok(x) => tested(question, x),
    }
}

/// The value of an integer constant expression (C99 6.6).
#[cycle(finding)]
pub fn constant(e: &Expression, file: &mut FileScope, scope: Scope) -> Result<Integer, Fault>
    ensures { Finds integer_view result (constant_at (first (tree_of e.now))
        (value_at (first (tree_of e.now)) (find (tree_of e.now) (for_value (scope_of file.old scope.entry))))) file.new }
{
    let inner = for_value(file, scope);
    match value(e, file, inner) {
        Err(fault) => Err(fault),
        Ok(x) => constant_value(first_of_expression(e), x.get()),
    }
}

/// A subscript on what is found (C99 6.5.2.1). The bracket stands at `left`.
#[cycle(finding)]
fn index(
    b: &Expression,
    file: &mut FileScope,
    scope: Scope,
    begin: Start,
    left: u32,
    thing: Thing,
) -> Result<Thing, Fault>
    ensures { Finds thing_of result (subscripted begin.count begin.at left begin.place (thing_of thing) (file_of file.old)
        (λ f. value_at (first (tree_of b.now)) (find (tree_of b.now) (moved (scope_of file.old scope.entry) f))) (array_in (thing_of thing))) file.new }
{
    match array_of(file.alloc, thing) {
        Err(want) => Err(Fault::Memory(want)),
        Ok(Subscripted::Array(p, t)) => match value(b, file, scope) {
            Err(fault) => Err(fault),
            Ok(i) => element(begin, left, p, t, i),
        },
        Ok(Subscripted::Other(thing)) => match worth(file.alloc, begin.at, thing) {
            Err(fault) => Err(fault),
            Ok(x) => match value(b, file, scope) {
                Err(fault) => Err(fault),
                Ok(y) => indexed(begin, left, x, y),
            },
        },
    }
}

/// A call of what is found (C99 6.5.2.2), whose arguments end at `right`.
#[cycle(finding)]
fn call(
    all: &List<Argument>,
    file: &mut FileScope,
    scope: Scope,
    begin: Start,
    right: u32,
    thing: Thing,
) -> Result<Thing, Fault>
    ensures { Finds thing_of result
        (call_found right begin.at begin.place (thing_of thing) (arguments_of (map argument_of all.now)) (scope_of file.old scope.entry)) file.new }
{
    match signature_of(file.alloc, begin.at, &thing) {
        Err(fault) => Err(fault),
        Ok(signature) => match arguments(
            all,
            file,
            scope,
            right,
            signature.parameters.get().as_slice(),
        ) {
            Err(fault) => Err(fault),
            Ok(list) => called(begin, thing, signature.result, list),
        },
    }
}

/// An argument, converted to its parameter's type.
#[cycle(finding)]
fn argument(item: &Argument, file: &mut FileScope, scope: Scope, t: &Ty) -> Result<Value, Fault>
    ensures { Finds expression_of result (argument_found (type_of t.now) (argument_of item.now).1 (scope_of file.old scope.entry)) file.new }
{
    match value(&item.value, file, scope) {
        Err(fault) => Err(fault),
        Ok(x) => converted_argument(file.alloc, first_of_expression(&item.value), t, x),
    }
}

/// The arguments of a call, each converted to its parameter's type. They end at `right`.
#[cycle(finding)]
fn arguments(
    all: &List<Argument>,
    file: &mut FileScope,
    scope: Scope,
    right: u32,
    parameters: &[Ty],
) -> Result<List<Typed>, Fault>
    ensures { Finds (λ done. expressions_of (map expression_of done)) result
        (arguments right (types_of parameters.now) (arguments_of (map argument_of all.now)) (scope_of file.old scope.entry)) file.new }
{
    let mut done = List::new(file.alloc);
    let mut types = parameters;
    for item in all.as_slice() {
        let Some((t, more)) = first_and_rest(types) else {
            return Err(Fault::IllTyped(Rule::Arguments, first_of_argument(item)));
        };
        match argument(item, file, scope, t) {
            Err(fault) => return Err(fault),
            Ok(x) => match add(&mut done, x.into_inner()) {
                Ok(()) => types = more,
                Err(want) => return Err(Fault::Memory(want)),
            },
        }
    }
    match first_and_rest(types) {
        None => Ok(done),
        Some(_) => Err(Fault::IllTyped(Rule::Arguments, right)),
    }
}

/// What is assigned to an object (C99 6.5.16), by an operator that stands at `at`.
#[cycle(finding)]
fn assign(
    b: &Expression,
    file: &mut FileScope,
    scope: Scope,
    begin: Start,
    op: AssignOp,
    at: u32,
    target: Target,
) -> Result<Thing, Fault>
    ensures { Finds thing_of result (assigned_to begin.count at (first (tree_of b.now)) begin.place (target_view target) (file_of file.old)
        (λ f. find (tree_of b.now) (moved (scope_of file.old scope.entry) f)) (update_of op)) file.new }
{
    match (update_of(op), target) {
        (Some(op), Target::Scalar(p)) | (Some(op), Target::Record(p)) => {
            match value(b, file, scope) {
                Err(fault) => Err(fault),
                Ok(x) => updated(begin, at, op, p, x),
            }
        }
        (None, Target::Scalar(p)) => match value(b, file, scope) {
            Err(fault) => Err(fault),
            Ok(x) => assigned(begin, at, p, x),
        },
        (None, Target::Record(p)) => match find(b, file, scope) {
            Err(fault) => Err(fault),
            Ok(thing) => copied(begin, at, first_of_expression(b), p, thing),
        },
    }
}
