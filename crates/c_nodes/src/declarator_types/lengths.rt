//! Integer constant expressions (C99 6.6) as lengths of arrays and values of enumerators. An expression begins at `at`.

ghost use Rattle.std.specs.Prelude.{◌≡◌};
ghost use Rattle.c_typed.specs.Conversions.{number_of as number_in};
ghost use Rattle.c_erasure.specs.Checking.Declaring.{constant_in, int_value as int_in, length_value, next_value as next_in};
ghost use Rattle.c_annotated.specs.Views.{expression_of};
ghost use Rattle.c_nodes.specs.Gives.{Gives};
ghost use Rattle.c_nodes.specs.DeclaratorTypes.DeclaratorViews.{integer_view};

use crate::fault::Fault;
use c_annotated::{Expression, constant_of};
use c_typed::{Constant, is_signed};
use c_types::{IntKind, Ty};
use lay_base::Rule;

/// The value of an integer constant expression, as the 32 bits that stand for it, with its type.
#[derive(Clone, Copy)]
pub struct Integer {
    pub kind: IntKind,
    pub value: u32,
}

/// The value of an integer constant expression.
#[tactic(auto, unfolding(c_erasure::specs::Checking::Declaring::constant_in))]
pub fn constant(at: u32, x: &Expression) -> Result<Integer, Fault>
    ensures { Gives integer_view result (constant_in at (expression_of x.now)) }
{
    match (&x.ty.ty, constant_of(x)) {
        (Ty::Int(kind), Constant::Valued(value)) => Ok(Integer { kind: *kind, value }),
        _ => Err(Fault::IllTyped(Rule::Constant, at)),
    }
}

/// The number itself.
fn number_of(c: Integer) -> i64
    ensures { result ≡ number_in c.kind c.value }
{
    if is_signed(c.kind) {
        i64::from(c.value.cast_signed())
    } else {
        i64::from(c.value)
    }
}

/// The length of an array: a number of at least 1 (C99 6.7.5.2).
pub fn length(at: u32, c: Integer) -> Result<u64, Fault>
    ensures { Gives (λ n. n) result (length_value at (integer_view c)) }
{
    match u64::try_from(number_of(c)) {
        Ok(n) if n > 0 => Ok(n),
        _ => Err(Fault::IllTyped(Rule::Length, at)),
    }
}

/// The value of an enumerator: an `int` (C99 6.7.2.2), as the 32 bits that stand for it.
pub fn int_value(at: u32, c: Integer) -> Result<u32, Fault>
    ensures { Gives (λ v. v) result (int_in at (integer_view c)) }
{
    match i32::try_from(number_of(c)) {
        Ok(_) => Ok(c.value),
        Err(_) => Err(Fault::IllTyped(Rule::Constant, at)),
    }
}

/// The value of an enumerator where none is written: one more than that before it, which is no greatest `int`.
pub fn next_value(at: u32, v: u32) -> Result<u32, Fault>
    ensures { Gives (λ v. v) result (next_in at v) }
{
    if v == 0x8000_0000 {
        Err(Fault::IllTyped(Rule::Constant, at))
    } else {
        Ok(v)
    }
}
