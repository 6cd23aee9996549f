//! Pointers in cells.

ghost use Rattle.std.specs.Prelude.{◌≡◌, [], ◌∷◌};
ghost use Rattle.block_memory.specs.Digits.{as_pointer};
ghost use Rattle.block_memory.specs.Held.{held, is_empty, pointer_in};

use crate::numbers::in_four;
use lay_base::UndefinedKind;
use memory_words::{Cell, Four, Ptr, are_fragments};

fn is_empty(cell: Cell) -> bool
    ensures { result ≡ is_empty cell }
{
    match cell {
        Cell::Empty => true,
        Cell::Byte(_) => false,
        Cell::Fragment(_, _, _) => false,
    }
}

/// A number as a pointer: only zero is one.
fn as_pointer(number: Result<u32, UndefinedKind>) -> Result<Ptr, UndefinedKind>
    ensures { result ≡ as_pointer number }
{
    match number {
        Ok(0) => Ok(Ptr::Null),
        Ok(_) => Err(UndefinedKind::Pointer),
        Err(kind) => Err(kind),
    }
}

/// The pointer of a type that four cells hold.
pub(crate) fn pointer_of(
    a: Cell,
    b: Cell,
    c: Cell,
    d: Cell,
    type_number: usize,
) -> Result<Ptr, UndefinedKind>
    ensures { result ≡ held (a ∷ b ∷ c ∷ d ∷ []) (pointer_in type_number (a ∷ b ∷ c ∷ d ∷ [])) }
{
    match a {
        Cell::Empty => as_pointer(in_four(a, b, c, d)),
        Cell::Byte(_) => as_pointer(in_four(a, b, c, d)),
        Cell::Fragment(_, p, _) => {
            if is_empty(b) || is_empty(c) || is_empty(d) {
                return Err(UndefinedKind::Empty);
            }
            if are_fragments(Four { a, b, c, d }, type_number, p) {
                Ok(p)
            } else {
                Err(UndefinedKind::Pointer)
            }
        }
    }
}
