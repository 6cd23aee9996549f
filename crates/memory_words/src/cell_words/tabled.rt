//! What stands in the tables: whole pointers, and any four cells.

ghost use Rattle.std.specs.Prelude.{◌≡◌, ◌+◌, ◌*◌, ◌/◌, ◌%◌, ◌^◌, MatchOption};
ghost use Rattle.memory_words.specs.CellWords.Words.{PointerIn, cell_of_part, four_of_group, four_of_pointer, four_pointer};

use crate::cell_words::cell::Cell;
use crate::cell_words::plain::four_pointer;
use crate::cell_words::pointer::Ptr;
use crate::cell_words::word::{Four, Group, Part, Pointer};

/// A pointer as it stands in the table of pointers, where it fits there.
pub(crate) fn pointer_of(type_number: usize, p: Ptr) -> Option<Pointer>
    ensures { MatchOption result (Unit {0}) (λ pointer. four_of_pointer pointer ≡ four_pointer type_number p) }
{
    if type_number >= 4_294_967_296 {
        return None;
    }
    let t = type_number as u32;
    match p {
        Ptr::Block(b, at) if b < 4_294_967_296 => Some(Pointer::Block(t, b as u32, at)),
        Ptr::Function(f) if f < 4_294_967_296 => Some(Pointer::Function(t, f as u32)),
        _ => None,
    }
}

/// A pointer that stands in the table of pointers, if it is of a type.
#[inline(always)]
pub(crate) fn pointer_in(pointer: Pointer, type_number: usize) -> Option<Ptr>
    ensures { PointerIn type_number (four_of_pointer pointer) result }
{
    match pointer {
        Pointer::Block(t, b, at) => {
            if t as usize == type_number {
                Some(Ptr::Block(u64::from(b), at))
            } else {
                None
            }
        }
        Pointer::Function(t, f) => {
            if t as usize == type_number {
                Some(Ptr::Function(f as usize))
            } else {
                None
            }
        }
    }
}

/// The cells of a pointer that stands in the table of pointers.
pub(crate) fn four_of_pointer(pointer: Pointer) -> Four
    ensures { result ≡ four_of_pointer pointer }
{
    match pointer {
        Pointer::Block(t, b, at) => four_pointer(t as usize, Ptr::Block(u64::from(b), at)),
        Pointer::Function(t, f) => four_pointer(t as usize, Ptr::Function(f as usize)),
    }
}

fn low(n: u64) -> u32
    ensures { result ≡ n % 2 ^ 32 }
{
    (n % 4_294_967_296) as u32
}

fn high(n: u64) -> u32
    ensures { result ≡ n / 2 ^ 32 }
{
    (n / 4_294_967_296) as u32
}

fn joined(low: u32, high: u32) -> u64
    ensures { result ≡ low + 2 ^ 32 * high }
{
    u64::from(low) + 4_294_967_296 * u64::from(high)
}

fn part_of(cell: Cell) -> Part
    ensures { cell_of_part result ≡ cell }
{
    match cell {
        Cell::Empty => Part::Empty,
        Cell::Byte(x) => Part::Byte(x),
        Cell::Fragment(t, Ptr::Null, k) => Part::Null(k, low(t as u64), high(t as u64)),
        Cell::Fragment(t, Ptr::Block(b, at), k) => Part::Block(
            k,
            low(t as u64),
            high(t as u64),
            low(b),
            high(b),
            at,
        ),
        Cell::Fragment(t, Ptr::Function(f), k) => Part::Function(
            k,
            low(t as u64),
            high(t as u64),
            low(f as u64),
            high(f as u64),
        ),
    }
}

fn cell_of_part(part: Part) -> Cell
    ensures { result ≡ cell_of_part part }
{
    match part {
        Part::Empty => Cell::Empty,
        Part::Byte(x) => Cell::Byte(x),
        Part::Null(k, s, t) => Cell::Fragment(joined(s, t) as usize, Ptr::Null, k),
        Part::Block(k, s, t, b, c, at) => Cell::Fragment(
            joined(s, t) as usize,
            Ptr::Block(joined(b, c), at),
            k,
        ),
        Part::Function(k, s, t, f, g) => Cell::Fragment(
            joined(s, t) as usize,
            Ptr::Function(joined(f, g) as usize),
            k,
        ),
    }
}

/// Four cells as they stand in the table of groups.
pub(crate) fn group_of(four: Four) -> Group
    ensures { four_of_group result ≡ four }
{
    Group {
        a: part_of(four.a),
        b: part_of(four.b),
        c: part_of(four.c),
        d: part_of(four.d),
    }
}

/// Four cells that stand in the table of groups.
pub(crate) fn four_of_group(group: Group) -> Four
    ensures { result ≡ four_of_group group }
{
    Four {
        a: cell_of_part(group.a),
        b: cell_of_part(group.b),
        c: cell_of_part(group.c),
        d: cell_of_part(group.d),
    }
}
