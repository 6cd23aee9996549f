//! Fragments of pointers.

ghost use Rattle.std.specs.Prelude.{◌≡◌, ◌==◌, ◌&&◌, Bool, false};
ghost use Rattle.memory_words.specs.CellWords.Fragments.{are_fragments, is_fragment, is_same};
ghost use Rattle.memory_words.specs.CellWords.Words.{PointerIn, cells_of};

use crate::cell_words::cell::Cell;
use crate::cell_words::pointer::Ptr;
use crate::cell_words::word::Four;

/// Whether two pointers are one.
fn is_same(p: Ptr, q: Ptr) -> bool
    ensures { result ≡ is_same p q }
{
    match p {
        Ptr::Null => match q {
            Ptr::Null => true,
            Ptr::Block(_, _) => false,
            Ptr::Function(_) => false,
        },
        Ptr::Block(b, at) => match q {
            Ptr::Null => false,
            Ptr::Block(c, other) => b == c && at == other,
            Ptr::Function(_) => false,
        },
        Ptr::Function(f) => match q {
            Ptr::Null => false,
            Ptr::Block(_, _) => false,
            Ptr::Function(g) => f == g,
        },
    }
}

/// Whether a cell is a pointer's k-th fragment.
fn is_fragment(cell: Cell, type_number: usize, p: Ptr, k: u8) -> bool
    ensures { result ≡ is_fragment type_number p k cell }
{
    match cell {
        Cell::Empty => false,
        Cell::Byte(_) => false,
        Cell::Fragment(t, q, j) => t == type_number && is_same(q, p) && j == k,
    }
}

/// Whether four cells are the fragments of a pointer, in their order.
pub fn are_fragments(four: Four, type_number: usize, p: Ptr) -> bool
    ensures { result ≡ are_fragments type_number p 0 (cells_of four) }
{
    let first = is_fragment(four.a, type_number, p, 0);
    let second = is_fragment(four.b, type_number, p, 1);
    let third = is_fragment(four.c, type_number, p, 2);
    let fourth = is_fragment(four.d, type_number, p, 3);
    first && (second && (third && fourth))
}

/// The pointer of a type whose fragments four cells are, if there is one.
#[tactic(auto, using(crate::proofs::CellWords::Contents::fragments_are))]
pub(crate) fn pointer_in_four(four: Four, type_number: usize) -> Option<Ptr>
    ensures { PointerIn type_number four result }
{
    match four.a {
        Cell::Empty => None,
        Cell::Byte(_) => None,
        Cell::Fragment(_, p, _) => {
            if are_fragments(four, type_number, p) {
                Some(p)
            } else {
                None
            }
        }
    }
}
