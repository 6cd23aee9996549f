//! Calls (C99 6.5.2.2).

ghost use Rattle.std.specs.Prelude.{◌≡◌, [], ◌∷◌, IfOk, Some, map};
ghost use Rattle.c_types.specs.declared.ty.IntKind.TheVariants.{UInt};
ghost use Rattle.c_types.specs.Types.{and_type, function, integer, no_types, pointer, void};
ghost use Rattle.c_types.specs.Views.{type_of, types_of};
ghost use Rattle.c_typed.specs.Fits.{library_type};
ghost use Rattle.c_erasure.specs.Broken.{pointed_type};
ghost use Rattle.c_erasure.specs.Checking.Nodes.{argument_in, call_in, signature_in, signature_of};
ghost use Rattle.c_annotated.specs.Views.{expression_of, expressions_of, thing_of};
ghost use Rattle.c_nodes.specs.Gives.{Gives};
ghost use Rattle.c_nodes.specs.OperatorNodes.Parts.{parameters_of, result_of, signature_view};

use crate::fault::Fault;
use crate::making::{Start, Value, convert, node, object_value, pointer_to};
use c_annotated::{Expression, ExpressionNode, Thing, is_null};
use c_typed::{LibraryFunction, assigns};
use c_types::{IntKind, Ty, copy};
use lay_base::{List, NoMemory, Rule, Shared, add, shared};
use std::alloc::Global;

/// The types of the parameters, and of the result, of what is called.
#[derive(Drop)]
pub struct Signature {
    pub parameters: Shared<List<Ty>>,
    pub result: Ty,
}

/// `void *`
fn bytes(alloc: Global) -> Result<Ty, NoMemory>
    ensures { IfOk result (λ t. type_of t ≡ pointer void) }
{
    pointer_to(alloc, Ty::Void)
}

/// One parameter.
fn one(alloc: Global, t: Ty) -> Result<List<Ty>, NoMemory>
    ensures { IfOk result (λ all. all ≡ t ∷ []) }
{
    let mut all = List::new(alloc);
    add(&mut all, t)?;
    Ok(all)
}

/// `void *`, another parameter, and a size.
fn three(alloc: Global, second: Ty) -> Result<List<Ty>, NoMemory>
    ensures { IfOk result (λ all. types_of all ≡ and_type (pointer void) (and_type (type_of second) (and_type (integer UInt) no_types))) }
{
    let mut all = one(alloc, bytes(alloc)?)?;
    add(&mut all, second)?;
    add(&mut all, Ty::Int(IntKind::UInt))?;
    Ok(all)
}

/// Two sizes.
fn two_sizes(alloc: Global) -> Result<List<Ty>, NoMemory>
    ensures { IfOk result (λ all. types_of all ≡ and_type (integer UInt) (and_type (integer UInt) no_types)) }
{
    let mut all = one(alloc, Ty::Int(IntKind::UInt))?;
    add(&mut all, Ty::Int(IntKind::UInt))?;
    Ok(all)
}

/// The types of the parameters of a library function.
fn library_parameters(alloc: Global, which: LibraryFunction) -> Result<List<Ty>, NoMemory>
    ensures { IfOk result (λ all. types_of all ≡ parameters_of (library_type which)) }
{
    match which {
        LibraryFunction::Malloc => one(alloc, Ty::Int(IntKind::UInt)),
        LibraryFunction::Calloc => two_sizes(alloc),
        LibraryFunction::Free => one(alloc, bytes(alloc)?),
        LibraryFunction::Memcpy | LibraryFunction::Memmove | LibraryFunction::Memcmp => {
            three(alloc, bytes(alloc)?)
        }
        LibraryFunction::Memset => three(alloc, Ty::Int(IntKind::Int)),
        LibraryFunction::Putchar | LibraryFunction::Exit => one(alloc, Ty::Int(IntKind::Int)),
        LibraryFunction::Getchar => Ok(List::new(alloc)),
    }
}

/// The type of the result of a library function.
fn library_result(alloc: Global, which: LibraryFunction) -> Result<Ty, NoMemory>
    ensures { IfOk result (λ t. type_of t ≡ result_of (library_type which)) }
{
    match which {
        LibraryFunction::Free | LibraryFunction::Exit => Ok(Ty::Void),
        LibraryFunction::Memcmp | LibraryFunction::Putchar | LibraryFunction::Getchar => Ok(Ty::Int(
            IntKind::Int,
        )),
        _ => bytes(alloc),
    }
}

/// The signature of a library function (C99 7.19.7, 7.20.3, 7.20.4, 7.21).
fn of_library(alloc: Global, which: LibraryFunction) -> Result<Signature, NoMemory>
    ensures { IfOk result (λ it. function (type_of it.result) (types_of it.parameters) ≡ library_type which) }
{
    let parameters = shared(alloc, library_parameters(alloc, which)?)?;
    let result = library_result(alloc, which)?;
    Ok(Signature { parameters, result })
}

/// The signature that a function type is. What is called begins at `at`.
fn of_type(alloc: Global, at: u32, t: &Ty) -> Result<Signature, Fault>
    ensures { Gives signature_view result (signature_of at (Some (type_of t.now))) }
{
    match copy(alloc, t)? {
        Ty::Function(result, parameters) => Ok(Signature {
            parameters,
            result: copy(alloc, result.get())?,
        }),
        _ => Err(Fault::IllTyped(Rule::Callee, at)),
    }
}

/// The signature of the function to which a value of a type points. What is called begins at `at`.
fn of_pointed(alloc: Global, at: u32, t: &Ty) -> Result<Signature, Fault>
    ensures { Gives signature_view result (signature_of at (pointed_type (type_of t.now))) }
{
    match t {
        Ty::Pointer(to) => of_type(alloc, at, to.get()),
        _ => Err(Fault::IllTyped(Rule::Callee, at)),
    }
}

/// The types of the parameters and of the result of what is called, which begins at `at`.
#[tactic(auto, unfolding(c_erasure::specs::Checking::Nodes::signature_in))]
pub fn signature_of(alloc: Global, at: u32, thing: &Thing) -> Result<Signature, Fault>
    ensures { Gives signature_view result (signature_in at (thing_of thing.now)) }
{
    match thing {
        Thing::Object(p) => of_pointed(alloc, at, &p.get().ty.ty),
        Thing::Value(e) | Thing::FunctionAt(e) => of_pointed(alloc, at, &e.get().ty.ty),
        Thing::Function(_, _, t) => of_type(alloc, at, t),
        Thing::LibraryFunction(_, which) => Ok(of_library(alloc, *which)?),
    }
}

/// An argument, converted to the type of its parameter. It begins at `at`.
#[tactic(auto, unfolding(c_erasure::specs::Checking::Nodes::argument_in))]
pub fn argument(alloc: Global, at: u32, t: &Ty, x: Value) -> Result<Value, Fault>
    ensures { Gives expression_of result (argument_in at (type_of t.now) (expression_of x)) }
{
    if assigns(&x.get().ty.ty, is_null(x.get()), t) {
        Ok(convert(alloc, t, x)?)
    } else {
        Err(Fault::IllTyped(Rule::Arguments, at))
    }
}

/// A call, whose result has a type.
#[tactic(auto, unfolding(c_erasure::specs::Checking::Nodes::call_in))]
pub fn call(begin: Start, thing: Thing, t: Ty, all: List<Expression>) -> Result<Thing, Fault>
    ensures { Gives thing_of result (call_in begin.place (thing_of thing) (type_of t) (expressions_of (map expression_of all))) }
{
    let Start { alloc, place, .. } = begin;
    match thing {
        Thing::Object(p) => match object_value(alloc, p)? {
            Some(e) => node(alloc, t, place, ExpressionNode::CallThrough(e, all)),
            None => Err(Fault::IllTyped(Rule::Callee, place.at)),
        },
        Thing::Value(e) | Thing::FunctionAt(e) => {
            node(alloc, t, place, ExpressionNode::CallThrough(e, all))
        }
        Thing::Function(_, f, _) => node(alloc, t, place, ExpressionNode::Call(f, all)),
        Thing::LibraryFunction(_, which) => {
            node(alloc, t, place, ExpressionNode::Library(which, all))
        }
    }
}
