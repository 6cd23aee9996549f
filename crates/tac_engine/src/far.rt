//! Elements of more bytes than a type may have, which no program has: so many of them may pass 64 bits.

ghost use Rattle.std.specs.Prelude.{◌≡◌, ◌≤◌, ◌^◌, ◌*ℤ◌, ◌+ℤ◌, pos, unsigned_abs};
ghost use Rattle.block_memory.specs.Pointers.{stepped, within};
ghost use Rattle.block_memory.specs.RunWorlds.Operators.{bytes_by, moved};
ghost use Rattle.block_memory.specs.View.{memory_of};
ghost use Rattle.c_meaning.specs.Expressions.{field_in, inside, part_in};
ghost use Rattle.c_typed.specs.Conversions.{number_of};

use block_memory::{Ptr, Store, Value};
use c_typed::PointerOp;
use c_types::IntKind;
use lay_base::UndefinedKind;
use source_values::number_of;

/// So many elements of a size, in bytes.
pub(crate) fn far_bytes(kind: IntKind, word: u32, size: u32) -> i128
    ensures value { result ≡ number_of kind word *ℤ pos size }
    ensures small { unsigned_abs result ≤ 2 ^ 64 }
{
    i128::from(number_of(kind, word)) * i128::from(size)
}

/// A pointer to an offset in a block, or to one past its end.
fn within(store: &Store, block: u64, at: i128) -> Result<Ptr, UndefinedKind>
    ensures { result ≡ within (memory_of store.now) block at }
{
    if at < 0 || at > i128::from(store.size(block)) {
        Err(UndefinedKind::Range)
    } else {
        Ok(Ptr::Block(block, at as u32))
    }
}

/// So many bytes further on, or back.
fn stepped(store: &Store, p: Ptr, by: i128) -> Result<Ptr, UndefinedKind>
    requires { unsigned_abs by ≤ 2 ^ 64 }
    ensures { result ≡ stepped (memory_of store.now) p by }
{
    match p {
        Ptr::Null => {
            if by == 0 {
                Ok(Ptr::Null)
            } else {
                Err(UndefinedKind::Range)
            }
        }
        Ptr::Function(_) => Err(UndefinedKind::Range),
        Ptr::Block(block, at) => within(store, block, i128::from(at) + by),
    }
}

/// An element so many bytes on from where a pointer leads: it lies in the block, or one past its end.
pub(crate) fn far_part(store: &Store, p: Ptr, by: i128) -> Result<Ptr, UndefinedKind>
    requires { unsigned_abs by ≤ 2 ^ 64 }
    ensures { result ≡ part_in (memory_of store.now) p by }
{
    match p {
        Ptr::Null => Err(UndefinedKind::Null),
        Ptr::Block(_, _) | Ptr::Function(_) => stepped(store, p, by),
    }
}

fn inside(store: &Store, block: u64, at: i128) -> Result<Ptr, UndefinedKind>
    ensures { result ≡ inside (memory_of store.now) block at }
{
    if 0 <= at && at < i128::from(store.size(block)) {
        Ok(Ptr::Block(block, at as u32))
    } else {
        Err(UndefinedKind::Outside)
    }
}

/// The way to a field of an element through a pointer: its first byte lies in a live block.
pub(crate) fn far_field(store: &Store, p: Ptr, bytes: i128, by: u32) -> Result<Ptr, UndefinedKind>
    requires { unsigned_abs bytes ≤ 2 ^ 64 }
    ensures { result ≡ field_in (memory_of store.now) p (bytes +ℤ pos by) }
{
    match p {
        Ptr::Null => Err(UndefinedKind::Null),
        Ptr::Function(_) => Err(UndefinedKind::Dead),
        Ptr::Block(block, at) => {
            if store.live(block) {
                inside(store, block, i128::from(at) + (bytes + i128::from(by)))
            } else {
                Err(UndefinedKind::Dead)
            }
        }
    }
}

/// So many elements on or back, in bytes.
fn bytes_by(op: PointerOp, kind: IntKind, word: u32, size: u32) -> i128
    ensures value { result ≡ bytes_by op (number_of kind word) size }
    ensures small { unsigned_abs result ≤ 2 ^ 64 }
{
    let bytes = far_bytes(kind, word, size);
    match op {
        PointerOp::Add => bytes,
        PointerOp::Subtract => 0 - bytes,
    }
}

/// A pointer and a number of elements of a size (C99 6.5.6).
pub(crate) fn far_moved(
    store: &Store,
    op: PointerOp,
    size: u32,
    kind: IntKind,
    v: Value,
    w: Value,
) -> Result<Value, UndefinedKind>
    ensures { result ≡ moved (memory_of store.now) op size kind v w }
{
    match (v, w) {
        (Value::Pointer(p), Value::Word(word)) => {
            match stepped(store, p, bytes_by(op, kind, word, size)) {
                Ok(q) => Ok(Value::Pointer(q)),
                Err(kind) => Err(kind),
            }
        }
        _ => Err(UndefinedKind::Pointer),
    }
}
