//! Numbers, and truth.

ghost use Rattle.std.specs.Prelude.{◌≡◌, ◌≤◌, ◌^◌, ◌*ℤ◌, pos, unsigned_abs};
ghost use Rattle.c_typed.specs.Conversions.{number_of};
ghost use Rattle.c_types.specs.Limits.{greatest_size};
ghost use Rattle.block_memory.specs.RunWorlds.Operators.{binary, flag, is_true, unary, undefined_by};
ghost use Rattle.block_memory.specs.RunWorlds.Scalars.{pointer_of};

use block_memory::{Ptr, Value};
use c_typed::{BinaryOp, UnaryOp, binary_value, is_signed, unary_value};
use c_types::IntKind;
use lay_base::UndefinedKind;

/// A pointer, and a null pointer where it is a number.
pub fn pointer_of(v: Value) -> Ptr
    ensures { result ≡ pointer_of v }
{
    match v {
        Value::Word(_) => Ptr::Null,
        Value::Pointer(p) => p,
    }
}

/// The number that 32 bits stand for.
pub fn number_of(kind: IntKind, word: u32) -> i64
    ensures value { result ≡ number_of kind word }
    ensures small { unsigned_abs result ≤ 2 ^ 32 }
{
    if is_signed(kind) {
        i64::from(word.cast_signed())
    } else {
        i64::from(word)
    }
}

/// So many elements of a size, in bytes.
pub fn bytes_of(kind: IntKind, word: u32, size: u32) -> i64
    requires { size ≤ greatest_size }
    ensures value { result ≡ number_of kind word *ℤ pos size }
    ensures small { unsigned_abs result ≤ 2 ^ 56 }
{
    number_of(kind, word) * i64::from(size)
}

/// Whether a value is not zero (C99 6.5.3.3, 6.8.4.1).
pub fn is_true(v: Value) -> bool
    ensures { result ≡ is_true v }
{
    match v {
        Value::Word(word) => word != 0,
        Value::Pointer(Ptr::Null) => false,
        Value::Pointer(Ptr::Block(_, _)) | Value::Pointer(Ptr::Function(_)) => true,
    }
}

/// 0 or 1, as an `int`.
pub fn flag(test: bool) -> Value
    ensures { result ≡ flag test }
{
    Value::Word(u32::from(test))
}

/// The value of a unary operator (C99 6.5.3.3).
pub fn unary(op: UnaryOp, v: Value) -> Result<Value, UndefinedKind>
    ensures { result ≡ unary op v }
{
    match v {
        Value::Word(word) => Ok(Value::Word(unary_value(op, word))),
        Value::Pointer(_) => Err(UndefinedKind::Pointer),
    }
}

fn undefined_by(op: BinaryOp) -> UndefinedKind
    ensures { result ≡ undefined_by op }
{
    match op {
        BinaryOp::ShiftLeft | BinaryOp::ShiftRight => UndefinedKind::Shift,
        _ => UndefinedKind::Division,
    }
}

/// The value of a binary operator (C99 6.5.5 to 6.5.7, 6.5.10 to 6.5.12) on numbers of a kind; the right operand of a shift has a kind of
/// its own.
pub fn binary(
    op: BinaryOp,
    kind: IntKind,
    v: Value,
    right: IntKind,
    w: Value,
) -> Result<Value, UndefinedKind>
    ensures { result ≡ binary op kind v right w }
{
    match (v, w) {
        (Value::Word(v), Value::Word(w)) => match binary_value(op, kind, v, right, w) {
            Some(word) => Ok(Value::Word(word)),
            None => Err(undefined_by(op)),
        },
        _ => Err(UndefinedKind::Pointer),
    }
}
