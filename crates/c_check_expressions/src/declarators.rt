//! Declarators and parameters (C99 6.7.5).

ghost use Rattle.std.specs.Prelude.{map};
ghost use Rattle.std.specs.Option.{option_map};
ghost use Rattle.c_types.specs.Views.{type_of, types_of};
ghost use Rattle.c_ast.specs.Views.{declarator_if_any, declarator_of, expression_of as tree_of, optional_of, parameter_list_of, parameter_of};
ghost use Rattle.c_ast.specs.Views.{parameters_of, specifier_of, specifiers_of};
ghost use Rattle.c_erasure.specs.Checking.Finding.{array_step as array_step_of, derivations, parameter_list, parameters};
ghost use Rattle.c_erasure.specs.Scopes.{inside};
ghost use Rattle.c_nodes.specs.DeclaratorTypes.DeclaratorViews.{derivations_of};
ghost use Rattle.c_scopes.specs.Scoping.{scope_of};
ghost use Rattle.c_check_expressions.specs.Finds.{Finds};
ghost use Rattle.c_check_expressions.specs.Parts.{base_of_parameter, parameter_found};

use crate::expressions::constant;
use crate::places::first_if_any;
use crate::types::boxed_base;
use c_ast::{
    Declarator, Expression, Parameter, Parameters, Specifier, first_of_expression,
    first_of_specifiers,
};
use c_declaring::{
    add_parameter, array_step, mentions_in, new_block, parameter as parameter_type, with_step,
    within,
};
use c_nodes::{Derivation, Fault, Storage, storage_of};
use c_scopes::{FileScope, Scope};
use c_types::Ty;
use lay_base::{Boxed, List, Rule};

/// The steps of a declarator (C99 6.7.5), read from left to right. The one that is taken first stands last.
#[cycle(finding)]
#[tactic(auto, unfolding(c_erasure::specs::Checking::Finding::derivations))]
pub fn derivations(
    d: &Declarator,
    file: &mut FileScope,
    scope: Scope,
) -> Result<List<Derivation>, Fault>
    ensures { Finds derivations_of result (derivations (declarator_of d.now) (scope_of file.old scope.entry)) file.new }
{
    match d {
        Declarator::Identifier(_) => Ok(List::new(file.alloc)),
        Declarator::Enclosed(_, d, _) => derivations(d.get(), file, scope),
        Declarator::Pointer(at, _, d) => match derivations_if_any(d, file, scope) {
            Err(fault) => Err(fault),
            Ok(steps) => with_step(steps, Derivation::Pointer(*at)),
        },
        Declarator::Array(d, left, number, _) => {
            let count = file.tags.ended(*left);
            match derivations_if_any(d, file, scope) {
                Err(fault) => Err(fault),
                Ok(steps) => length_step(number, file, scope, count, *left, steps),
            }
        }
        Declarator::Function(d, left, all, _) => match derivations_if_any(d, file, scope) {
            Err(fault) => Err(fault),
            Ok(steps) => match parameter_list(all, file, scope) {
                Err(fault) => Err(fault),
                Ok(types) => with_step(steps, Derivation::Function(*left, types)),
            },
        },
    }
}

/// The steps of a declarator, or none where there is none.
#[cycle(finding)]
#[tactic(auto, unfolding(c_erasure::specs::Checking::Finding::derivations))]
pub fn derivations_if_any(
    d: &Option<Boxed<Declarator>>,
    file: &mut FileScope,
    scope: Scope,
) -> Result<List<Derivation>, Fault>
    ensures { Finds derivations_of result
        (derivations (declarator_if_any (option_map declarator_of d.now)) (scope_of file.old scope.entry)) file.new }
{
    match d {
        None => Ok(List::new(file.alloc)),
        Some(d) => derivations(d.get(), file, scope),
    }
}

/// The step to an array, before others. Its bracket stands at `left`, where `count` records are complete.
#[cycle(finding)]
#[tactic(auto, unfolding(c_erasure::specs::Checking::Finding::array_step))]
fn length_step(
    number: &Option<Boxed<Expression>>,
    file: &mut FileScope,
    scope: Scope,
    count: usize,
    left: u32,
    steps: List<Derivation>,
) -> Result<List<Derivation>, Fault>
    ensures { Finds derivations_of result
        (array_step_of (optional_of (option_map tree_of number.now)) left count (derivations_of steps) (scope_of file.old scope.entry)) file.new }
{
    match number {
        None => with_step(steps, Derivation::OpenArray(count, left)),
        Some(a) => match constant(a.get(), file, scope) {
            Err(fault) => Err(fault),
            Ok(c) => array_step(file, first_of_expression(a.get()), count, left, c, steps),
        },
    }
}

/// The types of the parameters of a declarator, in a scope of their own (C99 6.2.1, 6.7.5.3).
#[cycle(finding)]
#[tactic(auto, unfolding(c_erasure::specs::Checking::Finding::parameter_list))]
fn parameter_list(all: &Parameters, file: &mut FileScope, scope: Scope) -> Result<List<Ty>, Fault>
    ensures { Finds types_of result (parameter_list (parameter_list_of all.now) (inside (scope_of file.old scope.entry))) file.new }
{
    match all {
        Parameters::Void(_) => Ok(List::new(file.alloc)),
        Parameters::Listed(all) => parameters(all, file, scope),
    }
}

/// The types of parameters; the name of each is known in those after it.
#[cycle(finding)]
fn parameters(all: &List<Parameter>, file: &mut FileScope, scope: Scope) -> Result<List<Ty>, Fault>
    ensures { Finds types_of result (parameters (parameters_of (map parameter_of all.now)) (inside (scope_of file.old scope.entry))) file.new }
{
    let mut done = List::new(file.alloc);
    let mut block = new_block(file.alloc, scope);
    for p in all.as_slice() {
        match parameter(p, file, within(&block, scope)) {
            Err(fault) => return Err(fault),
            Ok(t) => match add_parameter(file.alloc, &mut block, &mut done, p, t) {
                Ok(()) => {}
                Err(want) => return Err(Fault::Memory(want)),
            },
        }
    }
    Ok(done)
}

/// The type of a parameter.
#[cycle(finding)]
fn parameter(p: &Parameter, file: &mut FileScope, scope: Scope) -> Result<Ty, Fault>
    ensures { Finds type_of result (parameter_found (parameter_of p.now).1 (parameter_of p.now).2 (scope_of file.old scope.entry)) file.new }
{
    let at = first_if_any(&p.declarator, first_of_specifiers(p.specifiers.as_slice()));
    match parameter_base(&p.specifiers, file, scope) {
        Err(fault) => Err(fault),
        Ok(t) => {
            let before = mentions_in(file);
            match derivations_if_any(&p.declarator, file, scope) {
                Err(fault) => Err(fault),
                Ok(steps) => { parameter_type(file, scope, before, at, &p.declarator, steps, t) }
            }
        }
    }
}

/// The type that the specifiers of a parameter name; `register` alone may stand among them.
#[cycle(finding)]
fn parameter_base(
    specifiers: &List<Specifier>,
    file: &mut FileScope,
    scope: Scope,
) -> Result<Boxed<Ty>, Fault>
    ensures { Finds type_of result (base_of_parameter (specifiers_of (map specifier_of specifiers.now)) (scope_of file.old scope.entry)) file.new }
{
    match storage_of(specifiers.as_slice()) {
        Storage::None | Storage::Register => boxed_base(specifiers, file, scope),
        _ => Err(Fault::IllTyped(Rule::Specifiers, first_of_specifiers(specifiers.as_slice()))),
    }
}
