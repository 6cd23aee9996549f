//! Initializers of whole objects (C99 6.7.8).

ghost use Rattle.std.specs.Prelude.{◌≡◌, map};
ghost use Rattle.std.specs.Option.{option_map};
ghost use Rattle.c_types.specs.Views.{records_of, type_of};
ghost use Rattle.c_ast.specs.Views.{expression_of, value_of};
ghost use Rattle.c_erasure.specs.Initializers.{is_braces};
ghost use Rattle.c_annotated.specs.Views.{initializer_of, part_of, part_value_of};
ghost use Rattle.c_erasure.specs.Checking.Initializers.{initializer as initializer_in, whole_from, whole_in, whole_of};
ghost use Rattle.c_erasure.specs.Checking.Statements.{constants_if_any as constants_if_any_in, initial_if_any as initial_if_any_in, sized_in};
ghost use Rattle.c_nodes.specs.DeclaratorTypes.DeclaratorViews.{shape_of};
ghost use Rattle.c_nodes.specs.Gives.{Gives};
ghost use Rattle.c_scopes.specs.Scoping.{scope_of};
ghost use Rattle.c_check_expressions.specs.Finds.{Finds};
ghost use Rattle.c_check_parts.specs.InitializerParts.Parts.{is_value_alone};

use crate::initializer_parts::constants::constants;
use crate::initializer_parts::recursion::initialized;
use crate::initializer_parts::texts::length_of;
use c_annotated::{Initializer, InitializerPart, PartValue};
use c_ast::{Expression, InitialValue, first_of_expression};
use c_nodes::{Fault, Shape, counted};
use c_scopes::{FileScope, Scope};
use c_typed::{is_record, is_scalar};
use c_types::{Records, Ty};
use lay_base::{List, Rule};
use std::alloc::Global;

/// Whether parts are one part, which is no text.
fn is_value_alone(parts: &[InitializerPart]) -> bool
    ensures { result ≡ is_value_alone (map part_of parts.now) }
{
    match parts {
        [part] => !matches!(part.value, PartValue::Text(_)),
        _ => false,
    }
}

/// The whole object by the value of its only part; of a text, the other parts.
fn whole_from(value: PartValue, others: List<InitializerPart>) -> Initializer
    ensures { initializer_of result ≡ whole_from (part_value_of value) (map part_of others) }
{
    match value {
        PartValue::Value(x) => Initializer::Value(x),
        PartValue::Record(p) => Initializer::Record(p),
        PartValue::Text(_) => Initializer::Parts(others),
    }
}

/// The whole object by its only part.
fn whole_in(mut parts: List<InitializerPart>) -> Initializer
    ensures { initializer_of result ≡ whole_in (map part_of parts) }
{
    if !is_value_alone(parts.as_slice()) {
        return Initializer::Parts(parts);
    }
    match parts.pop() {
        Some(part) => whole_from(part.value, parts),
        None => Initializer::Parts(parts),
    }
}

/// A number or a pointer by its value, a record by another one or by its parts, an array by its parts.
fn whole_of(t: &Ty, braces: bool, parts: List<InitializerPart>) -> Initializer
    ensures { initializer_of result ≡ whole_of (type_of t.now) braces (map part_of parts) }
{
    if is_scalar(t) || (is_record(t) && !braces) {
        whole_in(parts)
    } else {
        Initializer::Parts(parts)
    }
}

fn is_braces(a: &Expression) -> bool
    ensures { result ≡ is_braces (expression_of a.now) }
{
    matches!(a, Expression::Braces(_, _, _, _))
}

/// What an object of a type holds at first, by an initializer.
pub fn initializer(
    a: &Expression,
    file: &mut FileScope,
    scope: Scope,
    t: &Ty,
) -> Result<Initializer, Fault>
    ensures { Finds initializer_of result (initializer_in (expression_of a.now) (scope_of file.old scope.entry) (type_of t.now)) file.new }
{
    let mut parts = List::new(file.alloc);
    initialized(a, file, scope, t, 0, &mut parts)?;
    Ok(whole_of(t, is_braces(a), parts))
}

/// What an object of a type holds at first, where an initializer stands.
pub fn initial_if_any(
    value: &Option<InitialValue>,
    file: &mut FileScope,
    scope: Scope,
    t: &Ty,
) -> Result<Option<Initializer>, Fault>
    ensures { let s = scope_of file.old scope.entry in
        Finds (λ i. option_map initializer_of i) result (initial_if_any_in (option_map value_of value.now) s (type_of t.now)) file.new }
{
    match value {
        None => Ok(None),
        Some(value) => Ok(Some(initializer(value.value.get(), file, scope, t)?)),
    }
}

/// What an object of a type holds at first that is made before the program starts: it is zero where it has no initializer.
pub fn constants_if_any(
    value: &Option<InitialValue>,
    file: &mut FileScope,
    scope: Scope,
    t: &Ty,
) -> Result<Initializer, Fault>
    ensures { let s = scope_of file.old scope.entry in
        Finds initializer_of result (constants_if_any_in (option_map value_of value.now) s (type_of t.now)) file.new }
{
    match value {
        None => Ok(Initializer::Parts(List::new(file.alloc))),
        Some(value) => {
            let a = value.value.get();
            let initial = initializer(a, file, scope, t)?;
            constants(file, scope, first_of_expression(a), initial)
        }
    }
}

/// The type of an object: an array whose length is left out has as many elements as its initializer. `at` is where the name stands.
#[tactic(auto, unfolding(c_erasure::specs::Checking::Statements::sized_in))]
pub fn sized(
    alloc: Global,
    records: &Records,
    at: u32,
    shape: Shape,
    value: &Option<InitialValue>,
) -> Result<Ty, Fault>
    ensures { Gives type_of result (sized_in (records_of records.now) at (shape_of shape) (option_map value_of value.now)) }
{
    match shape {
        Shape::Closed(t) => Ok(t),
        Shape::OpenArray(element) => match value {
            None => Err(Fault::IllTyped(Rule::Length, at)),
            Some(value) => {
                let a = value.value.get();
                let n = length_of(alloc, &element, a)?;
                counted(alloc, records, first_of_expression(a), element, n)
            }
        },
    }
}
