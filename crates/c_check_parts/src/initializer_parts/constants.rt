//! Initializers of objects that are made before the program starts (C99 6.7.8): each value is a constant.

ghost use Rattle.std.specs.Prelude.{◌≡◌, map};
ghost use Rattle.c_erasure.specs.Scopes.{declared};
ghost use Rattle.c_annotated.specs.Views.{initializer_of, part_of, part_value_of};
ghost use Rattle.c_erasure.specs.Checking.Initializers.{are_constant_parts, are_constants, constants_in, is_constant_part};
ghost use Rattle.c_initial_values.specs.Values.{declared_by};
ghost use Rattle.c_nodes.specs.Gives.{Gives};
ghost use Rattle.c_scopes.specs.Scoping.{scope_of};

use c_annotated::{Expression, Initializer, InitializerPart, Object, PartValue};
use c_initial_values::initial_value;
use c_nodes::Fault;
use c_scopes::{FileScope, Scope};
use c_types::Records;
use lay_base::Rule;

/// Whether a part holds a constant. A record is initialized by its parts alone.
fn is_constant_part(records: &Records, objects: &[Object], value: &PartValue) -> bool
    ensures { result ≡ is_constant_part (declared_by records.now objects.now) (part_value_of value.now) }
{
    match value {
        PartValue::Value(x) => initial_value(records, objects, x.get()).is_some(),
        PartValue::Record(_) => false,
        PartValue::Text(_) => true,
    }
}

fn are_constant_parts(records: &Records, objects: &[Object], all: &[InitializerPart]) -> bool
    ensures { result ≡ are_constant_parts (declared_by records.now objects.now) (map part_of all.now) }
{
    for part in all {
        if !is_constant_part(records, objects, &part.value) {
            return false;
        }
    }
    true
}

/// Whether each value is a constant, where these objects are declared.
fn are_constants(records: &Records, objects: &[Object], initial: &Initializer) -> bool
    ensures { result ≡ are_constants (declared_by records.now objects.now) (initializer_of initial.now) }
{
    match initial {
        Initializer::Value(x) => initial_value(records, objects, x.get()).is_some(),
        Initializer::Record(_) => false,
        Initializer::Parts(all) => are_constant_parts(records, objects, all.as_slice()),
    }
}

/// Whether each value is a constant, with what is declared there.
fn are_constants_in(file: &FileScope, scope: Scope, initial: &Initializer) -> bool
    ensures { result ≡ are_constants (declared (scope_of file.now scope.entry)) (initializer_of initial.now) }
{
    are_constants(&file.records, file.objects.as_slice(), initial)
}

/// An initializer of constants. It begins at `at`.
#[tactic(auto, unfolding(c_erasure::specs::Checking::Initializers::constants_in))]
pub fn constants(
    file: &FileScope,
    scope: Scope,
    at: u32,
    initial: Initializer,
) -> Result<Initializer, Fault>
    ensures { Gives initializer_of result (constants_in (declared (scope_of file.now scope.entry)) at (initializer_of initial)) }
{
    if are_constants_in(file, scope, &initial) {
        Ok(initial)
    } else {
        Err(Fault::IllTyped(Rule::Init, at))
    }
}
