//! Arithmetic on pointers (C99 6.5.6), and comparisons (6.5.8, 6.5.9).

ghost use Rattle.std.specs.Prelude.{◌≡◌, ◌≤◌};
ghost use Rattle.block_memory.specs.Pointers.{stepped};
ghost use Rattle.block_memory.specs.View.{memory_of};
ghost use Rattle.block_memory.specs.RunWorlds.Operators.{bytes_by, compared, distance, moved, moved_from, opposite, pointers_compare};
ghost use Rattle.block_memory.specs.RunWorlds.Scalars.{as_value};
ghost use Rattle.block_memory.specs.declared.run_worlds.value.Value.TheVariants.{Pointer};
ghost use Rattle.c_typed.specs.Conversions.{number_of};
ghost use Rattle.c_types.specs.Limits.{greatest_size};
ghost use Rattle.source_values.specs.Elements.{ahead, back, whole, words_between};

use crate::numbers::{bytes_of, flag};
use block_memory::{Ptr, Store, Value};
use c_typed::{CompareOp, PointerOp, holds};
use c_types::IntKind;
use lay_base::UndefinedKind;

/// So many elements on or back, in bytes.
fn bytes_by(op: PointerOp, kind: IntKind, word: u32, size: u32) -> i64
    requires { size ≤ greatest_size }
    ensures { result ≡ bytes_by op (number_of kind word) size }
{
    let bytes = bytes_of(kind, word, size);
    match op {
        PointerOp::Add => bytes,
        PointerOp::Subtract => 0 - bytes,
    }
}

fn stepped(store: &Store, p: Ptr, by: i64) -> Result<Value, UndefinedKind>
    ensures { result ≡ as_value Pointer (stepped (memory_of store.now) p by) }
{
    match store.step(p, by) {
        Ok(q) => Ok(Value::Pointer(q)),
        Err(kind) => Err(kind),
    }
}

/// A pointer and a number of elements of a size (C99 6.5.6).
pub fn moved(
    store: &Store,
    op: PointerOp,
    size: u32,
    kind: IntKind,
    v: Value,
    w: Value,
) -> Result<Value, UndefinedKind>
    requires { size ≤ greatest_size }
    ensures { result ≡ moved (memory_of store.now) op size kind v w }
{
    match (v, w) {
        (Value::Pointer(p), Value::Word(word)) => stepped(store, p, bytes_by(op, kind, word, size)),
        _ => Err(UndefinedKind::Pointer),
    }
}

/// The same, where the pointer is the left operand or the right one.
pub fn moved_from(
    store: &Store,
    left: bool,
    op: PointerOp,
    size: u32,
    kind: IntKind,
    v: Value,
    w: Value,
) -> Result<Value, UndefinedKind>
    requires { size ≤ greatest_size }
    ensures { result ≡ moved_from left (memory_of store.now) op size kind v w }
{
    if left {
        moved(store, op, size, kind, v, w)
    } else {
        moved(store, op, size, kind, w, v)
    }
}

/// So many bytes as a number of elements, where they are a whole number of them.
fn whole(bytes: u32, size: u32) -> Option<u32>
    ensures { result ≡ whole bytes size }
{
    if size == 0 {
        if bytes == 0 { Some(0) } else { None }
    } else if bytes % size == 0 {
        Some(bytes / size)
    } else {
        None
    }
}

fn ahead(elements: Option<u32>) -> Result<Value, UndefinedKind>
    ensures { result ≡ ahead elements }
{
    match elements {
        Some(elements) => Ok(Value::Word(elements)),
        None => Err(UndefinedKind::Range),
    }
}

fn back(elements: Option<u32>) -> Result<Value, UndefinedKind>
    ensures { result ≡ back elements }
{
    match elements {
        Some(elements) => Ok(Value::Word(elements.wrapping_neg())),
        None => Err(UndefinedKind::Range),
    }
}

fn words_between(from: u32, to: u32, size: u32) -> Result<Value, UndefinedKind>
    ensures { result ≡ words_between from to size }
{
    if from <= to {
        ahead(whole(to - from, size))
    } else {
        back(whole(from - to, size))
    }
}

/// How many elements of a size lie between two pointers (C99 6.5.6).
pub fn distance(size: u32, v: Value, w: Value) -> Result<Value, UndefinedKind>
    ensures { result ≡ distance size v w }
{
    match (v, w) {
        (Value::Pointer(Ptr::Block(block, at)), Value::Pointer(Ptr::Block(other, from))) => {
            if block == other {
                words_between(from, at, size)
            } else {
                Err(UndefinedKind::TwoBlocks)
            }
        }
        (Value::Pointer(_), Value::Pointer(_)) => Err(UndefinedKind::Range),
        _ => Err(UndefinedKind::Pointer),
    }
}

fn opposite(test: Result<bool, UndefinedKind>) -> Result<bool, UndefinedKind>
    ensures { result ≡ opposite test }
{
    match test {
        Ok(test) => Ok(!test),
        Err(kind) => Err(kind),
    }
}

fn pointers_compare(store: &Store, op: CompareOp, p: Ptr, q: Ptr) -> Result<bool, UndefinedKind>
    ensures { result ≡ pointers_compare op (memory_of store.now) p q }
{
    match op {
        CompareOp::Equal => store.are_equal(p, q),
        CompareOp::NotEqual => opposite(store.are_equal(p, q)),
        CompareOp::Less => store.is_less(p, q),
        CompareOp::Greater => store.is_less(q, p),
        CompareOp::LessEqual => opposite(store.is_less(q, p)),
        CompareOp::GreaterEqual => opposite(store.is_less(p, q)),
    }
}

/// The value of a comparison (C99 6.5.8, 6.5.9), of numbers of one kind or of pointers.
pub fn compared(
    store: &Store,
    op: CompareOp,
    kind: IntKind,
    v: Value,
    w: Value,
) -> Result<Value, UndefinedKind>
    ensures { result ≡ compared op (memory_of store.now) kind v w }
{
    match (v, w) {
        (Value::Word(v), Value::Word(w)) => Ok(flag(holds(op, kind, v, w))),
        (Value::Pointer(p), Value::Pointer(q)) => match pointers_compare(store, op, p, q) {
            Ok(test) => Ok(flag(test)),
            Err(kind) => Err(kind),
        },
        _ => Err(UndefinedKind::Pointer),
    }
}
