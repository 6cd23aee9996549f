//! The ways to fields and elements (C99 6.5.2.1, 6.5.2.3).

ghost use Rattle.std.specs.Prelude.{◌≡◌, ◌≤◌};
ghost use Rattle.block_memory.specs.View.{memory_of};
ghost use Rattle.c_meaning.specs.Expressions.{field_in, inside, is_subscript, part_in};
ghost use Rattle.c_types.specs.Limits.{greatest_size};
ghost use Rattle.source_values.specs.Ways.{way_to};

use crate::numbers::bytes_of;
use block_memory::{Ptr, Store};
use c_types::IntKind;
use lay_base::UndefinedKind;

/// A field or an element so many bytes on from where a pointer leads: it lies in the block, or one past its end.
#[inline(always)]
pub fn part_in(store: &Store, p: Ptr, by: i64) -> Result<Ptr, UndefinedKind>
    ensures { result ≡ part_in (memory_of store.now) p by }
{
    match p {
        Ptr::Null => Err(UndefinedKind::Null),
        Ptr::Block(_, _) | Ptr::Function(_) => store.step(p, by),
    }
}

/// Whether an array of that length has an element of that number; `&` may take one more.
pub fn is_subscript(length: u32, addressed: bool, number: i64) -> bool
    ensures { result ≡ is_subscript length addressed number }
{
    let length = i64::from(length);
    0 <= number && (number < length || addressed && number == length)
}

/// How far the field of an element lies from where a pointer points.
pub fn way_to(kind: IntKind, word: u32, size: u32, offset: u32) -> i64
    requires { size ≤ greatest_size }
    ensures { result ≡ way_to kind word size offset }
{
    bytes_of(kind, word, size) + i64::from(offset)
}

fn inside(store: &Store, block: u64, at: i64) -> Result<Ptr, UndefinedKind>
    ensures { result ≡ inside (memory_of store.now) block at }
{
    if 0 <= at && at < i64::from(store.size(block)) {
        Ok(Ptr::Block(block, at as u32))
    } else {
        Err(UndefinedKind::Outside)
    }
}

/// The way to a field through a pointer: its first byte lies in a live block.
pub fn field_in(store: &Store, p: Ptr, by: i64) -> Result<Ptr, UndefinedKind>
    ensures { result ≡ field_in (memory_of store.now) p by }
{
    match p {
        Ptr::Null => Err(UndefinedKind::Null),
        Ptr::Function(_) => Err(UndefinedKind::Dead),
        Ptr::Block(block, at) => {
            if !store.live(block) {
                return Err(UndefinedKind::Dead);
            }
            let at = i64::from(at);
            if by >= i64::from(store.size(block)) - at {
                Err(UndefinedKind::Outside)
            } else {
                inside(store, block, at + by)
            }
        }
    }
}
