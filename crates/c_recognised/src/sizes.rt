//! Which expressions are the size of one record, and how many records a number of bytes is.

ghost use Rattle.std.specs.Prelude.{◌≡◌, IfOk, IsTrue, Some, false, is_some};
ghost use Rattle.std.specs.Option.{option_copied, option_map};
ghost use Rattle.c_annotated.specs.Views.{expression_of, note_of, optional_of};
ghost use Rattle.c_erasure.specs.Noted.{unconverted, value};
ghost use Rattle.c_erasure.specs.Recognised.{as_unsigned, as_unsigned_from, counted, is_constant_of, is_note_of, is_size};
ghost use Rattle.c_typed.specs.Trees;
ghost use Rattle.c_types.specs.Sameness.{same_type};
ghost use Rattle.c_types.specs.Types.{integer, structure};
ghost use Rattle.c_types.specs.declared.ty.IntKind.TheVariants.{UInt};
ghost use Rattle.c_types.specs.Views.{type_of};

use c_annotated::{Expression, ExpressionNode, SizeOf, plain};
use c_typed::BinaryOp;
use c_types::{IntKind, Ty};
use lay_base::{Boxed, NoMemory, Place, boxed};
use std::alloc::Global;
use std::mem::replace;

/// Whether a type is that of the record with a number.
fn is_record(r: usize, t: &Ty) -> bool
    ensures { result ≡ same_type (type_of t.now) (structure r) }
{
    match t {
        Ty::Record(number) => *number == r,
        _ => false,
    }
}

/// Whether a note is the size of the record with a number.
fn is_note_of(r: usize, note: &Option<Boxed<SizeOf>>) -> bool
    ensures { result ≡ is_note_of r (note_of note.now) }
{
    match note {
        Some(size) => is_record(r, &size.get().ty),
        None => false,
    }
}

/// An expression without the implicit conversion at its top, where no note stands beside that.
pub fn lent_unconverted(e: &Expression) -> &Expression
    ensures { expression_of result.now ≡ unconverted (expression_of e.now) }
{
    match &e.node {
        ExpressionNode::Convert(x, false) => match &e.ty.note {
            None => x.get(),
            Some(_) => e,
        },
        _ => e,
    }
}

/// An expression, out of a place where no one asks for it again.
fn take(e: &mut Expression) -> Expression
    ensures { result ≡ e.old }
{
    let left = Expression {
        ty: plain(Ty::Void),
        place: e.place,
        node: ExpressionNode::Constant(0),
    };
    replace(e, left)
}

/// Whether an expression is a constant that is the size of the record with a number.
pub fn is_constant_of(r: usize, e: &Expression) -> bool
    ensures { result ≡ is_constant_of r (expression_of e.now) }
{
    match &e.node {
        ExpressionNode::Constant(_) => is_note_of(r, &e.ty.note),
        _ => false,
    }
}

/// Whether an expression is the size of the record with a number, converted or not.
pub fn is_size(r: usize, e: &Expression) -> bool
    ensures { result ≡ is_size r (expression_of e.now) }
{
    is_constant_of(r, lent_unconverted(e))
}

/// Whether a number of bytes is that of some records with a number.
fn is_product_of(r: usize, e: &Expression) -> bool
    ensures { result ≡ is_some (counted r (expression_of e.now)) }
{
    match &e.node {
        ExpressionNode::Constant(_) => is_note_of(r, &e.ty.note),
        ExpressionNode::Binary(BinaryOp::Multiply, x, y) => is_size(r, y.get())
            || is_size(r, x.get()),
        _ => false,
    }
}

/// Whether a number of bytes, converted or not, is that of some records with a number.
pub fn is_counted(r: usize, e: &Expression) -> bool
    ensures { result ≡ is_some (counted r (unconverted (expression_of e.now))) }
{
    is_product_of(r, lent_unconverted(e))
}

fn is_unsigned(t: &Ty) -> bool
    ensures { result ≡ same_type (type_of t.now) (integer UInt) }
{
    matches!(t, Ty::Int(IntKind::UInt))
}

/// An implicit conversion to `unsigned`.
fn to_unsigned(e: Boxed<Expression>, place: Place) -> Expression
    ensures { expression_of result ≡ value (integer UInt) place (Trees.convert (expression_of e) false) }
{
    Expression {
        ty: plain(Ty::Int(IntKind::UInt)),
        place,
        node: ExpressionNode::Convert(e, false),
    }
}

/// An expression, which is not looked into, as an `unsigned`, out of a place where no one asks for it again.
fn as_unsigned_from(alloc: Global, e: &mut Expression) -> Result<Boxed<Expression>, NoMemory>
    ensures { IfOk result (λ r. expression_of r ≡ as_unsigned_from (expression_of e.old)) }
{
    let place = e.place;
    let is_other = !is_unsigned(&e.ty.ty);
    let e = boxed(alloc, take(e))?;
    if is_other {
        boxed(alloc, to_unsigned(e, place))
    } else {
        Ok(e)
    }
}

/// An expression's value as an `unsigned`, out of a place where no one asks for it again.
pub fn as_unsigned(alloc: Global, e: &mut Expression) -> Result<Boxed<Expression>, NoMemory>
    ensures { IfOk result (λ r. expression_of r ≡ as_unsigned (expression_of e.old)) }
{
    match &mut e.node {
        ExpressionNode::Convert(x, false) if e.ty.note.is_none() => as_unsigned_from(
            alloc,
            x.get_mut(),
        ),
        _ => as_unsigned_from(alloc, e),
    }
}

/// How many records a number of bytes is, where it is one of theirs. There is no other expression for which it is asked.
fn counted_from(
    alloc: Global,
    r: usize,
    e: &mut Expression,
) -> Result<Option<Boxed<Expression>>, NoMemory>
    requires { IsTrue (is_some (counted r (expression_of e.old))) }
    ensures { IfOk result (λ count. counted r (expression_of e.old) ≡ Some (optional_of (option_map expression_of count))) }
{
    match &mut e.node {
        ExpressionNode::Constant(_) if is_note_of(r, &e.ty.note) => Ok(None),
        ExpressionNode::Binary(BinaryOp::Multiply, x, y) => {
            if is_size(r, y.get()) {
                let x = as_unsigned(alloc, x.get_mut())?;
                Ok(Some(x))
            } else if is_size(r, x.get()) {
                let y = as_unsigned(alloc, y.get_mut())?;
                Ok(Some(y))
            } else {
                unreachable!()
            }
        }
        _ => unreachable!(),
    }
}

/// How many records a number of bytes, converted or not, is, where it is one of theirs. There is no other expression for which it is
/// asked.
pub fn counted(
    alloc: Global,
    r: usize,
    e: &mut Expression,
) -> Result<Option<Boxed<Expression>>, NoMemory>
    requires { IsTrue (is_some (counted r (unconverted (expression_of e.old)))) }
    ensures { IfOk result (λ count. counted r (unconverted (expression_of e.old)) ≡ Some (optional_of (option_map expression_of count))) }
{
    match (&mut e.node, &e.ty.note) {
        (ExpressionNode::Convert(x, false), None) => counted_from(alloc, r, x.get_mut()),
        _ => counted_from(alloc, r, e),
    }
}
