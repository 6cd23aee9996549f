//! Parts that one expression initializes: numbers, pointers, whole records and texts (C99 6.7.8).

ghost use Rattle.std.specs.Prelude.{◌≡◌, map};
ghost use Rattle.std.specs.Option.{option_copied};
ghost use Rattle.c_types.specs.Views.{type_of};
ghost use Rattle.c_ast.specs.Places.{first};
ghost use Rattle.c_ast.specs.Views.{argument_of, arguments_of, expression_of};
ghost use Rattle.c_erasure.specs.Initializers.{texts_of};
ghost use Rattle.c_annotated.specs.Views.{thing_of};
ghost use Rattle.c_erasure.specs.Checking.Finding.{find as find_in};
ghost use Rattle.c_erasure.specs.Checking.Initializers.{initial_record_in, one_value as one_value_in, without_braces as without_braces_in};
ghost use Rattle.c_nodes.specs.Gives.{Gives};
ghost use Rattle.c_scopes.specs.Scoping.{scope_of};
ghost use Rattle.c_check_expressions.specs.Finds.{Finds};
ghost use Rattle.c_check_parts.specs.InitializerParts.Parts.{one_part, value_alone};

use crate::initializer_parts::texts::{is_character, text_of_array};
use c_annotated::{InitializerPart, PartValue, Thing};
use c_ast::{Argument, Expression, Spelling, first_of_expression};
use c_check_expressions::{find, value};
use c_nodes::{Fault, initial_value, misplaced};
use c_scopes::{FileScope, Scope};
use c_types::{Ty, same};
use lay_base::{List, Rule};

/// A record, which is initialized by another one of its type.
#[tactic(auto, unfolding(c_erasure::specs::Checking::Initializers::initial_record_in))]
fn record(from: u32, at: u32, t: &Ty, thing: Thing) -> Result<InitializerPart, Fault>
    ensures { Gives one_part result (initial_record_in from at (type_of t.now) (thing_of thing)) }
{
    match thing {
        Thing::Object(p) => {
            if same(&p.get().ty.ty, t) {
                Ok(InitializerPart {
                    offset: at,
                    value: PartValue::Record(p),
                })
            } else {
                Err(Fault::IllTyped(Rule::Assign, from))
            }
        }
        thing => {
            let (rule, there) = misplaced(&thing, Rule::Assign, from, from);
            Err(Fault::IllTyped(rule, there))
        }
    }
}

/// What an expression without braces initializes, which begins at the byte `at` of the whole. `texts` are its string literals.
pub fn without_braces(
    a: &Expression,
    file: &mut FileScope,
    scope: Scope,
    t: &Ty,
    at: u32,
    texts: Option<&List<Spelling>>,
) -> Result<InitializerPart, Fault>
    ensures { let a = expression_of a.now in let s = scope_of file.old scope.entry in
        Finds one_part result (without_braces_in (first a) at (type_of t.now) (option_copied texts.entry) s.file (find_in a s)) file.new }
{
    match t {
        Ty::Int(_) | Ty::Pointer(_) => {
            let x = value(a, file, scope)?;
            let x = initial_value(file.alloc, first_of_expression(a), t, x)?;
            Ok(InitializerPart {
                offset: at,
                value: PartValue::Value(x),
            })
        }
        Ty::Record(_) => {
            let thing = find(a, file, scope)?;
            record(first_of_expression(a), at, t, thing)
        }
        Ty::Array(element, n) => {
            let is_text = is_character(element.get());
            text_of_array(file.alloc, first_of_expression(a), at, *n, is_text, texts)
        }
        Ty::Void | Ty::Function(_, _) => {
            Err(Fault::IllTyped(Rule::Init, first_of_expression(a)))
        }
    }
}

/// What one expression alone initializes, which has no braces of its own.
fn value_alone(
    a: &Expression,
    file: &mut FileScope,
    scope: Scope,
    t: &Ty,
    at: u32,
) -> Result<InitializerPart, Fault>
    ensures { Finds one_part result (value_alone (expression_of a.now) (scope_of file.old scope.entry) (type_of t.now) at) file.new }
{
    match a {
        Expression::Braces(inner, _, _, _) => Err(Fault::IllTyped(Rule::Init, *inner)),
        _ => without_braces(a, file, scope, t, at, None),
    }
}

/// What the only item in braces initializes. `left` is where these begin.
#[tactic(auto, using(crate::proofs::InitializerParts::Braces::not_one, crate::proofs::InitializerParts::Braces::one_alone))]
pub fn one_value(
    left: u32,
    all: &[Argument],
    file: &mut FileScope,
    scope: Scope,
    t: &Ty,
    at: u32,
) -> Result<InitializerPart, Fault>
    ensures { let s = scope_of file.old scope.entry in
        Finds one_part result (one_value_in left (arguments_of (map argument_of all.now)) s (type_of t.now) at) file.new }
{
    if all.len() == 1 {
        value_alone(&all[0].value, file, scope, t, at)
    } else {
        Err(Fault::IllTyped(Rule::Init, left))
    }
}
