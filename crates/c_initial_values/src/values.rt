//! The values of constant expressions in initializers (C99 6.6): numbers, null pointers, and addresses.

ghost use Rattle.std.specs.Prelude.{◌≡◌, []};
ghost use Rattle.std.specs.Option.{option_map};
ghost use Rattle.c_typed.specs.InitialValues.{address_in, address_of_path, function_in, initial_value, is_null_in};
ghost use Rattle.c_typed.specs.Mapped.{mapped_path, of_types};
ghost use Rattle.c_annotated.specs.Views.{expression_of, path_of};
ghost use Rattle.c_erasure.specs.Erasure.{typed};
ghost use Rattle.c_initial_values.specs.Values.{address_of, declared_by, pointer_value, value_of};

use crate::address::{Address, field_at, moved, moved_by, number_in, subscripted};
use crate::sizes::{element_size, field_offset};
use c_annotated::{Expression, ExpressionNode, Object, Path, PathNode, constant_of, is_null};
use c_typed::{Constant, is_pointer};
use c_types::{IntKind, Records, Ty};

/// The value of a constant expression in an initializer.
#[derive(Clone, Copy)]
pub enum Value {
    Number(IntKind, u32),
    Null,
    Address(Address),
    /// The function of that number.
    Function(usize),
}

/// The address that an expression is.
#[cycle(addresses)]
fn address_in(e: &Expression, records: &Records, objects: &[Object]) -> Option<Address>
    ensures { option_map address_of result ≡ address_in (declared_by records.now objects.now) (typed (expression_of e.now)) }
{
    match &e.node {
        ExpressionNode::AddressOf(p) => address_of_path(true, p.get(), records, objects),
        ExpressionNode::Decay(p) => address_of_path(false, p.get(), records, objects),
        ExpressionNode::Convert(x, _) => {
            if is_pointer(&e.ty.ty) {
                address_in(x.get(), records, objects)
            } else {
                None
            }
        }
        ExpressionNode::PointerAdd(op, x, y) => {
            let size = element_size(records, &e.ty.ty);
            if is_pointer(&x.get().ty.ty) {
                let k = number_in(&y.get().ty.ty, constant_of(y.get()));
                let a = address_in(x.get(), records, objects);
                moved_by(records, objects, *op, a, k, size)
            } else {
                let k = number_in(&x.get().ty.ty, constant_of(x.get()));
                let a = address_in(y.get(), records, objects);
                moved(records, objects, a, k, size)
            }
        }
        _ => None,
    }
}

/// The address of what a path leads to, which may be the operand of `&`.
#[cycle(addresses)]
fn address_of_path(
    addressed: bool,
    p: &Path,
    records: &Records,
    objects: &[Object],
) -> Option<Address>
    ensures { option_map address_of result
        ≡ address_of_path (declared_by records.now objects.now) addressed (mapped_path (of_types (λ t. t.ty)) (path_of p.now)) }
{
    match &p.node {
        PathNode::Named(_) => None,
        PathNode::Object(n) => Some(Address {
            object: *n,
            offset: 0,
        }),
        PathNode::Deref(e) => address_in(e.get(), records, objects),
        PathNode::Index(e, i) => {
            let size = element_size(records, &e.get().ty.ty);
            let k = number_in(&i.get().ty.ty, constant_of(i.get()));
            let a = address_in(e.get(), records, objects);
            moved(records, objects, a, k, size)
        }
        PathNode::Member(p, r, field) => {
            let offset = field_offset(records, *r, *field);
            let a = address_of_path(false, p.get(), records, objects);
            field_at(records, objects, a, offset)
        }
        PathNode::Element(p, i) => {
            let k = number_in(&i.get().ty.ty, constant_of(i.get()));
            let a = address_of_path(false, p.get(), records, objects);
            subscripted(records, objects, addressed, &p.get().ty.ty, a, k)
        }
    }
}

/// The function whose address an expression is, converted or not.
fn function_in(e: &Expression) -> Option<usize>
    ensures { result ≡ function_in (declared_by [] []) (typed (expression_of e.now)) }
{
    match &e.node {
        ExpressionNode::FunctionName(f) => Some(*f),
        ExpressionNode::Convert(x, _) => {
            if is_pointer(&e.ty.ty) {
                function_in(x.get())
            } else {
                None
            }
        }
        _ => None,
    }
}

/// Whether an expression is a null pointer constant, converted or not.
fn is_null_in(e: &Expression) -> bool
    ensures { result ≡ is_null_in (declared_by [] []) (typed (expression_of e.now)) }
{
    match &e.node {
        ExpressionNode::Null => true,
        ExpressionNode::Convert(x, _) => {
            is_pointer(&e.ty.ty) && (is_null(x.get()) || is_null_in(x.get()))
        }
        _ => false,
    }
}

/// The value of an expression whose type is no integer type.
#[tactic(auto, using(crate::proofs::Alike::null_anywhere, crate::proofs::Alike::function_anywhere))]
fn pointer_value(records: &Records, objects: &[Object], e: &Expression) -> Option<Value>
    ensures { option_map value_of result ≡ pointer_value (declared_by records.now objects.now) (typed (expression_of e.now)) }
{
    if is_null_in(e) {
        return Some(Value::Null);
    }
    match address_in(e, records, objects) {
        Some(a) => Some(Value::Address(a)),
        None => match function_in(e) {
            Some(f) => Some(Value::Function(f)),
            None => None,
        },
    }
}

/// The value of a constant expression in an initializer of a file with those records and objects; none of any other expression.
pub fn initial_value(records: &Records, objects: &[Object], e: &Expression) -> Option<Value>
    ensures { option_map value_of result ≡ initial_value (declared_by records.now objects.now) (typed (expression_of e.now)) }
{
    match &e.ty.ty {
        Ty::Int(kind) => match constant_of(e) {
            Constant::Valued(v) => Some(Value::Number(*kind, v)),
            _ => None,
        },
        _ => pointer_value(records, objects, e),
    }
}
