//! Bytes of two cells.

ghost use Rattle.std.specs.Prelude.{◌≡◌};
ghost use Rattle.block_memory.specs.Digits.{compared, is_zero};
ghost use Rattle.block_memory.specs.Ranges.{byte_in};

use lay_base::UndefinedKind;
use memory_words::Cell;

fn byte_in(cell: Cell) -> Result<u8, UndefinedKind>
    ensures { result ≡ byte_in cell }
{
    match cell {
        Cell::Empty => Err(UndefinedKind::Empty),
        Cell::Byte(x) => Ok(x),
        Cell::Fragment(_, _, _) => Err(UndefinedKind::Pointer),
    }
}

/// Minus one, zero or one, by the bytes of two cells.
pub(crate) fn compared(a: Cell, b: Cell) -> Result<i32, UndefinedKind>
    ensures { result ≡ compared a b }
{
    let x = byte_in(a)?;
    let y = byte_in(b)?;
    if x < y {
        Ok(-1)
    } else if y < x {
        Ok(1)
    } else {
        Ok(0)
    }
}

/// Whether they are one byte.
pub(crate) fn is_zero(difference: Result<i32, UndefinedKind>) -> bool
    ensures { result ≡ is_zero difference }
{
    match difference {
        Ok(0) => true,
        Ok(_) => false,
        Err(_) => false,
    }
}
