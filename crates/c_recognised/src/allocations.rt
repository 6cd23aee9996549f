//! Conversions that are allocations of records or null pointers.

ghost use Rattle.std.specs.Prelude.{◌≡◌, IfOk, IsTrue, OnOk, Some, is_some, map};
ghost use Rattle.std.specs.Option.{option_map};
ghost use Rattle.c_annotated.specs.Views.{expression_of, expressions_of, node_of, optional_of};
ghost use Rattle.c_erasure.specs.Recognised.{allocation, is_null_constant, reconverted};
ghost use Rattle.c_recognised.specs.Calls.{by_call, calloc_count, malloc_count};
ghost use Rattle.c_recognised.specs.Conversions.{allocated_by, became, is_fit, may_allocate};
ghost use Rattle.c_types.specs.Sameness.{same_type};
ghost use Rattle.c_types.specs.Types.{pointer, void};
ghost use Rattle.c_types.specs.Views.{type_of};

use crate::sizes::{as_unsigned, counted, is_counted, is_size};
use c_annotated::{Expression, ExpressionNode};
use c_typed::{LibraryFunction, is_integer, is_void};
use c_types::Ty;
use lay_base::{Boxed, List, NoMemory};
use std::alloc::Global;

/// How many records are allocated, where that is written, and whether all bytes are zero.
type Allocation = (Option<Boxed<Expression>>, bool);

/// Whether `malloc` with those arguments allocates records with a number.
#[tactic(auto, using(crate::proofs::Calls::malloc_of_more))]
fn is_malloc_of(r: usize, all: &[Expression]) -> bool
    ensures { result ≡ is_some (malloc_count r (expressions_of (map expression_of all.now))) }
{
    match all {
        [x] => is_counted(r, x),
        _ => false,
    }
}

/// Whether `calloc` with those arguments allocates records with a number.
#[tactic(auto, using(crate::proofs::Calls::calloc_of_less, crate::proofs::Calls::calloc_of_two, crate::proofs::Calls::calloc_of_more))]
fn is_calloc_of(r: usize, all: &[Expression]) -> bool
    ensures { result ≡ is_some (calloc_count r (expressions_of (map expression_of all.now))) }
{
    match all {
        [_, y] => is_size(r, y),
        _ => false,
    }
}

/// Whether an expression allocates records with a number.
#[tactic(auto, using(crate::proofs::Calls::malloc_found, crate::proofs::Calls::calloc_found))]
fn allocates(r: usize, e: &Expression) -> bool
    ensures { result ≡ is_some (allocation r (expression_of e.now)) }
{
    match &e.node {
        ExpressionNode::Library(LibraryFunction::Malloc, all) => is_malloc_of(r, all.as_slice()),
        ExpressionNode::Library(LibraryFunction::Calloc, all) => is_calloc_of(r, all.as_slice()),
        _ => false,
    }
}

/// How many records with a number `malloc` with those arguments allocates. There are no others for which it is asked.
fn malloc_count(
    alloc: Global,
    r: usize,
    all: &mut List<Expression>,
) -> Result<Option<Boxed<Expression>>, NoMemory>
    requires { IsTrue (is_some (malloc_count r (expressions_of (map expression_of all.old)))) }
    ensures { IfOk result (λ count. malloc_count r (expressions_of (map expression_of all.old)) ≡ Some (optional_of (option_map expression_of count))) }
{
    match all.as_mut_vec().as_mut_slice() {
        [x] => counted(alloc, r, x),
        _ => unreachable!(),
    }
}

/// How many records with a number `calloc` with those arguments allocates. There are no others for which it is asked.
fn calloc_count(
    alloc: Global,
    r: usize,
    all: &mut List<Expression>,
) -> Result<Option<Boxed<Expression>>, NoMemory>
    requires { IsTrue (is_some (calloc_count r (expressions_of (map expression_of all.old)))) }
    ensures { IfOk result (λ count. calloc_count r (expressions_of (map expression_of all.old)) ≡ Some (optional_of (option_map expression_of count))) }
{
    match all.as_mut_vec().as_mut_slice() {
        [x, _] => {
            let x = as_unsigned(alloc, x)?;
            Ok(Some(x))
        }
        _ => unreachable!(),
    }
}

/// What a call of the library with those arguments allocates. There are no others for which it is asked.
fn by_call(
    alloc: Global,
    r: usize,
    which: LibraryFunction,
    all: &mut List<Expression>,
) -> Result<Allocation, NoMemory>
    requires { IsTrue (is_some (by_call r which (expressions_of (map expression_of all.old)))) }
    ensures { IfOk result (λ a. by_call r which (expressions_of (map expression_of all.old)) ≡ Some (optional_of (option_map expression_of a.0), a.1)) }
{
    match which {
        LibraryFunction::Malloc => {
            let count = malloc_count(alloc, r, all)?;
            Ok((count, false))
        }
        LibraryFunction::Calloc => {
            let count = calloc_count(alloc, r, all)?;
            Ok((count, true))
        }
        _ => unreachable!(),
    }
}

/// What an expression that allocates records with a number allocates. There is no other expression for which it is asked.
fn allocation(alloc: Global, r: usize, e: &mut Expression) -> Result<Allocation, NoMemory>
    requires { IsTrue (is_some (allocation r (expression_of e.old))) }
    ensures { IfOk result (λ a. allocation r (expression_of e.old) ≡ Some (optional_of (option_map expression_of a.0), a.1)) }
{
    match &mut e.node {
        ExpressionNode::Library(which, all) => by_call(alloc, r, *which, all),
        _ => unreachable!(),
    }
}

/// Whether an expression, whose null pointers are recognised, is a null pointer constant where it is converted to a pointer.
fn is_null_constant(e: &Expression) -> bool
    ensures { result ≡ is_null_constant (expression_of e.now) }
{
    match &e.node {
        ExpressionNode::Null => is_void_pointer(&e.ty.ty),
        _ => is_integer(&e.ty.ty),
    }
}

fn is_void_pointer(t: &Ty) -> bool
    ensures { result ≡ same_type (type_of t.now) (pointer void) }
{
    match t {
        Ty::Pointer(to) => is_void(to.get()),
        _ => false,
    }
}

/// What a node becomes that is a conversion, or is none.
enum Becomes {
    /// What it is.
    Same,
    Null,
    /// An allocation of records with that number.
    Records(usize),
}

/// What a node of a type becomes, where its operands are done.
fn conversion(node: &ExpressionNode, t: &Ty) -> Becomes
    ensures became { became result (node_of node.now) ≡ reconverted (type_of t.now) (node_of node.now) }
    ensures fit { IsTrue (is_fit result (node_of node.now)) }
{
    match node {
        ExpressionNode::Convert(e, _) => match t {
            Ty::Pointer(to) => {
                if is_null_constant(e.get()) {
                    return Becomes::Null;
                }
                match to.get() {
                    Ty::Record(r) if allocates(*r, e.get()) => Becomes::Records(*r),
                    _ => Becomes::Same,
                }
            }
            _ => Becomes::Same,
        },
        _ => Becomes::Same,
    }
}

/// Puts a node in the place of another, which is let go.
fn put(node: &mut ExpressionNode, other: ExpressionNode)
    ensures { node.new ≡ other }
{
    *node = other;
}

/// Makes a conversion that allocates records with a number an allocation. There is no other node for which it is asked.
fn allocate(alloc: Global, r: usize, node: &mut ExpressionNode) -> Result<(), NoMemory>
    requires { IsTrue (may_allocate r (node_of node.old)) }
    ensures { OnOk result (node_of node.new ≡ allocated_by r (node_of node.old)) }
{
    match node {
        ExpressionNode::Convert(e, _) => {
            let (count, zeroed) = allocation(alloc, r, e.get_mut())?;
            put(node, ExpressionNode::Allocate(r, count, zeroed));
            Ok(())
        }
        _ => unreachable!(),
    }
}

/// Makes a node of a type, whose operands are done, an allocation or a null pointer where it is a conversion that is one.
pub fn converted(alloc: Global, node: &mut ExpressionNode, t: &Ty) -> Result<(), NoMemory>
    ensures { OnOk result (node_of node.new ≡ reconverted (type_of t.now) (node_of node.old)) }
{
    match conversion(node, t) {
        Becomes::Same => Ok(()),
        Becomes::Null => {
            put(node, ExpressionNode::Null);
            Ok(())
        }
        Becomes::Records(r) => allocate(alloc, r, node),
    }
}
