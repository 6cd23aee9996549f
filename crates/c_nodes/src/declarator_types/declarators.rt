//! The types that declarators make (C99 6.7.5), and the limits of types.

ghost use Rattle.std.specs.Prelude.{◌≡◌, IfOk};
ghost use Rattle.std.specs.Option.{option_copied, option_map};
ghost use Rattle.c_types.specs.Views.{records_of, type_of, types_of};
ghost use Rattle.c_erasure.specs.Declarators.{parameter_type as type_of_parameter};
ghost use Rattle.c_erasure.specs.Checking.Declaring.{closed_at, derived as derived_in, element as element_in, object_at, result_type, scalar_parameter};
ghost use Rattle.c_erasure.specs.Checking.Declaring.{small as small_in, type_named};
ghost use Rattle.c_erasure.specs.Checking.Statements.{counted_array, variable_type};
ghost use Rattle.c_annotated.specs.FileViews.{entity_of};
ghost use Rattle.c_nodes.specs.DeclaratorTypes.DeclaratorViews.{array_in, derivations_of, function_in, shape_of};
ghost use Rattle.c_nodes.specs.Gives.{Gives};

use crate::fault::Fault;
use crate::making::pointer_to;
use crate::primary::name;
use crate::sizes::{is_complete, is_small, may_be_pointed_to};
use c_annotated::Entity;
use c_ast::Spelling;
use c_typed::{adjusted, is_function, is_scalar, is_void};
use c_types::{Records, Ty, copy};
use lay_base::{List, NoMemory, Rule, shared};
use std::alloc::Global;

/// One step of a declarator from a type to the next, with the byte of its punctuator.
#[derive(Drop)]
pub enum Derivation {
    /// To a pointer.
    Pointer(u32),
    /// To an array: how many records are complete there, the byte, and how many elements there are.
    Array(usize, u32, u64),
    /// To an array whose length is left out: how many records are complete there, and the byte.
    OpenArray(usize, u32),
    /// To a function, with the types of its parameters.
    Function(u32, List<Ty>),
}

/// What a declarator makes of a type.
#[derive(Drop)]
pub enum Shape {
    Closed(Ty),
    /// An array of elements of this type, whose number is left out.
    OpenArray(Ty),
}

/// A type within the limits of types. A fault is named at `at`.
pub fn small(records: &Records, at: u32, t: Ty) -> Result<Ty, Fault>
    ensures { Gives type_of result (small_in (records_of records.now) at (type_of t)) }
{
    if is_small(records, &t) {
        Ok(t)
    } else {
        Err(Fault::TooBig(at))
    }
}

/// A type as that of the elements of an array (C99 6.7.5.2).
fn element(records: &Records, count: usize, at: u32, t: Ty) -> Result<Ty, Fault>
    ensures { Gives type_of result (element_in (records_of records.now) count at (type_of t)) }
{
    if is_complete(records, count, &t) {
        Ok(t)
    } else {
        Err(Fault::IllTyped(Rule::Incomplete, at))
    }
}

/// A type as that of the result of a function: a number, a pointer or nothing.
fn result(at: u32, t: Ty) -> Result<Ty, Fault>
    ensures { Gives type_of result (result_type at (type_of t)) }
{
    if is_void(&t) || is_scalar(&t) {
        Ok(t)
    } else {
        Err(Fault::IllTyped(Rule::ByValue, at))
    }
}

/// An array of so many elements of a type.
fn array(
    alloc: Global,
    records: &Records,
    count: usize,
    at: u32,
    n: u64,
    t: Ty,
) -> Result<Ty, Fault>
    ensures { Gives type_of result (array_in (records_of records.now) count at n (type_of t)) }
{
    let t = element(records, count, at, t)?;
    small(records, at, Ty::Array(shared(alloc, t)?, n))
}

/// A function with parameters of these types, whose result has a type. A pointer to it is within the limits of types too.
fn function(alloc: Global, at: u32, parameters: List<Ty>, t: Ty) -> Result<Ty, Fault>
    ensures { Gives type_of result (function_in at (types_of parameters) (type_of t)) }
{
    let result = result(at, t)?;
    let t = Ty::Function(shared(alloc, result)?, shared(alloc, parameters)?);
    if may_be_pointed_to(&t) {
        Ok(t)
    } else {
        Err(Fault::TooBig(at))
    }
}

/// What the steps of a declarator make of a type. The step that is taken first stands last.
#[tactic(auto, unfolding(c_erasure::specs::Checking::Declaring::derived), using(crate::proofs::DeclaratorTypes::Steps::next_step, crate::proofs::DeclaratorTypes::Steps::array_step, crate::proofs::DeclaratorTypes::Steps::function_step))]
pub fn derived(
    alloc: Global,
    records: &Records,
    mut steps: List<Derivation>,
    t: Ty,
) -> Result<Shape, Fault>
    ensures { Gives shape_of result (derived_in (records_of records.now) (derivations_of steps) (type_of t)) }
{
    match steps.pop() {
        None => Ok(Shape::Closed(t)),
        Some(Derivation::Pointer(at)) => {
            let t = small(records, at, pointer_to(alloc, t)?)?;
            derived(alloc, records, steps, t)
        }
        Some(Derivation::Array(count, at, n)) => {
            let t = array(alloc, records, count, at, n, t)?;
            derived(alloc, records, steps, t)
        }
        Some(Derivation::OpenArray(count, at)) => match steps.pop() {
            None => Ok(Shape::OpenArray(element(records, count, at, t)?)),
            Some(_) => Err(Fault::IllTyped(Rule::Length, at)),
        },
        Some(Derivation::Function(at, parameters)) => {
            let t = function(alloc, at, parameters, t)?;
            derived(alloc, records, steps, t)
        }
    }
}

/// The type itself, where the length of an array is not left out.
pub fn closed(at: u32, shape: Shape) -> Result<Ty, Fault>
    ensures { Gives type_of result (closed_at at (shape_of shape)) }
{
    match shape {
        Shape::Closed(t) => Ok(t),
        Shape::OpenArray(_) => Err(Fault::IllTyped(Rule::Length, at)),
    }
}

/// A type as that of an object or a field, where `count` records are complete.
#[tactic(auto, unfolding(c_erasure::specs::Checking::Declaring::object_at))]
pub fn object(records: &Records, count: usize, at: u32, t: Ty) -> Result<Ty, Fault>
    ensures { Gives type_of result (object_at (records_of records.now) count at (type_of t)) }
{
    if is_complete(records, count, &t) {
        Ok(t)
    } else {
        Err(Fault::IllTyped(Rule::Incomplete, at))
    }
}

/// The type of a parameter: an array or a function becomes a pointer (C99 6.7.5.3).
pub fn parameter_type(alloc: Global, shape: Shape) -> Result<Ty, NoMemory>
    ensures { IfOk result (λ t. type_of t ≡ type_of_parameter (shape_of shape)) }
{
    match shape {
        Shape::Closed(t) => adjusted(alloc, t),
        Shape::OpenArray(t) => pointer_to(alloc, t),
    }
}

/// A type as that of a parameter: a number or a pointer.
pub fn scalar(at: u32, t: Ty) -> Result<Ty, Fault>
    ensures { Gives type_of result (scalar_parameter at (type_of t)) }
{
    match t {
        Ty::Int(kind) => Ok(Ty::Int(kind)),
        Ty::Pointer(to) => Ok(Ty::Pointer(to)),
        Ty::Record(_) => Err(Fault::IllTyped(Rule::ByValue, at)),
        _ => Err(Fault::IllTyped(Rule::Incomplete, at)),
    }
}

/// The type of an array whose initializer tells how many elements it has (C99 6.7.8).
pub fn counted(alloc: Global, records: &Records, at: u32, element: Ty, n: u64) -> Result<Ty, Fault>
    ensures { Gives type_of result (counted_array (records_of records.now) at (type_of element) n) }
{
    if n == 0 {
        Err(Fault::IllTyped(Rule::Init, at))
    } else {
        small(records, at, Ty::Array(shared(alloc, element)?, n))
    }
}

/// The type of an object in a block, which is complete, and no function. `count` records are complete there.
#[tactic(auto, unfolding(c_erasure::specs::Checking::Statements::variable_type, c_erasure::specs::Checking::Declaring::object_at))]
pub fn variable(records: &Records, count: usize, at: u32, t: Ty) -> Result<Ty, Fault>
    ensures { Gives type_of result (variable_type (records_of records.now) count at (type_of t)) }
{
    if is_function(&t) {
        Err(Fault::IllTyped(Rule::Scope, at))
    } else {
        object(records, count, at, t)
    }
}

/// The type for which the name of a typedef stands (C99 6.7.7).
pub fn typedef_named(alloc: Global, x: &Spelling, it: Option<&Entity>) -> Result<Ty, Fault>
    ensures { Gives type_of result (type_named x.now (option_map entity_of (option_copied it.entry))) }
{
    match it {
        Some(Entity::Typedef(t)) => Ok(copy(alloc, t)?),
        _ => Err(Fault::Undeclared(name(alloc, x.text.as_slice())?, x.from)),
    }
}
