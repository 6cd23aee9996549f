//! The parameters of functions that are defined (C99 6.9.1): locals of the function, and names in its block.

ghost use Rattle.std.specs.Prelude.{◌≡◌, ℕ, [], IfOk, Some, map};
ghost use Rattle.std.specs.Option.{option_copied, option_map};
ghost use Rattle.c_types.specs.Views.{type_of, types_of as types_of_list};
ghost use Rattle.c_ast.specs.Trees.{void_alone};
ghost use Rattle.c_ast.specs.Views.{declarator_if_any, declarator_of, parameter_list_of, parameter_of, parameters_of as parameters_in_list};
ghost use Rattle.c_erasure.specs.Declarators.{is_name};
ghost use Rattle.c_erasure.specs.Files.{parameters_of as parameters_in};
ghost use Rattle.c_erasure.specs.Checking.Files.{named_parameters, received_by};
ghost use Rattle.c_externals.specs.Receiving.{received_of, with_received};

use c_annotated::{Bound, Entity, How, Local};
use c_ast::{Declarator, Parameter, Parameters};
use c_declaring::declared_name;
use c_nodes::name;
use c_scopes::BoundNames;
use c_types::{Ty, copy};
use lay_base::{Boxed, List, NoMemory, add};
use std::alloc::Global;

/// The parameters of a function that is defined: its first locals, and their names in its outermost block.
#[derive(Drop)]
pub struct Received {
    pub locals: List<Local>,
    pub names: BoundNames,
}

/// Whether a declarator is a name alone, or none.
fn is_name(d: &Option<Boxed<Declarator>>) -> bool
    ensures { result ≡ is_name (declarator_if_any (option_map declarator_of d.now)) }
{
    match d {
        Some(d) => is_name_alone(d.get()),
        None => true,
    }
}

fn is_name_alone(d: &Declarator) -> bool
    ensures { result ≡ is_name (declarator_of d.now) }
{
    match d {
        Declarator::Identifier(_) => true,
        Declarator::Enclosed(_, inner, _) => is_name_alone(inner.get()),
        _ => false,
    }
}

/// The parameters in the declarator that stands nearest to the name.
#[cycle(nearest)]
pub fn parameters_of(d: &Declarator) -> Option<&Parameters>
    ensures { option_map parameter_list_of (option_copied result) ≡ parameters_in (declarator_of d.now) }
{
    match d {
        Declarator::Identifier(_) => None,
        Declarator::Pointer(_, _, inner) => parameters_if_any(inner),
        Declarator::Enclosed(_, inner, _) => parameters_of(inner.get()),
        Declarator::Array(inner, _, _, _) => parameters_if_any(inner),
        Declarator::Function(inner, _, all, _) => {
            if is_name(inner) {
                Some(all)
            } else {
                parameters_if_any(inner)
            }
        }
    }
}

#[cycle(nearest)]
fn parameters_if_any(d: &Option<Boxed<Declarator>>) -> Option<&Parameters>
    ensures { option_map parameter_list_of (option_copied result) ≡ parameters_in (declarator_if_any (option_map declarator_of d.now)) }
{
    match d {
        Some(d) => parameters_of(d.get()),
        None => None,
    }
}

/// No parameters.
fn nothing(alloc: Global) -> Received
    ensures { received_of result ≡ record { locals = []; bounds = [] } }
{
    Received {
        locals: List::new(alloc),
        names: BoundNames::new(alloc),
    }
}

/// A parameter after others; `None` where it has no name.
fn add_parameter(
    alloc: Global,
    received: &mut Received,
    number: usize,
    p: &Parameter,
    t: &Ty,
) -> Result<Option<()>, NoMemory>
    ensures { IfOk result (λ done. option_map (λ x. received_of received.new) done
        ≡ with_received (received_of received.old) number (parameter_of p.now) (type_of t.now)) }
{
    let x = match &p.declarator {
        Some(d) => match declared_name(d.get()) {
            Some(x) => x,
            None => return Ok(None),
        },
        None => return Ok(None),
    };
    let local = Local {
        name: name(alloc, x.text.as_slice())?,
        ty: copy(alloc, t)?,
    };
    add(&mut received.locals, local)?;
    let b = Bound {
        name: name(alloc, x.text.as_slice())?,
        place: x.from,
        from: x.to,
        how: How::Defines,
        entity: Entity::Local(number, copy(alloc, t)?),
    };
    received.names.add(alloc, b)?;
    Ok(Some(()))
}

/// The parameters of a list with their types; `None` where one has no name.
fn named(alloc: Global, all: &[Parameter], types: &[Ty]) -> Result<Option<Received>, NoMemory>
    ensures { IfOk result (λ r. option_map received_of r ≡ named_parameters (parameters_in_list (map parameter_of all.now)) (types_of_list types.now) 0) }
{
    if all.len() != types.len() {
        return Ok(None);
    }
    let mut received = nothing(alloc);
    for (index, p) in all.iter().enumerate() {
        if add_parameter(alloc, &mut received, index, p, &types[index])?.is_none() {
            return Ok(None);
        }
    }
    Ok(Some(received))
}

/// No parameters, of a function that takes nothing.
#[tactic(auto, unfolding(c_erasure::specs::Checking::Files::received_by))]
fn without_parameters(alloc: Global, types: &[Ty]) -> Option<Received>
    ensures { (at : ℕ) → option_map received_of result ≡ received_by (Some (void_alone at)) (types_of_list types.now) }
{
    if types.is_empty() {
        Some(nothing(alloc))
    } else {
        None
    }
}

/// The parameters of a function of these types; `None` where they are not all named.
#[tactic(auto, unfolding(c_erasure::specs::Checking::Files::received_by))]
pub fn receive(
    alloc: Global,
    all: Option<&Parameters>,
    types: &[Ty],
) -> Result<Option<Received>, NoMemory>
    ensures { IfOk result (λ r. option_map received_of r ≡ received_by (option_map parameter_list_of (option_copied all.entry)) (types_of_list types.now)) }
{
    match all {
        Some(Parameters::Listed(all)) => named(alloc, all.as_slice(), types),
        Some(Parameters::Void(_)) => Ok(without_parameters(alloc, types)),
        None => Ok(None),
    }
}
