//! Numbers in cells.

ghost use Rattle.std.specs.Prelude.{◌≡◌, ◌<◌, ◌*◌, ◌^◌, [], ◌∷◌, Ok, IfOk};
ghost use Rattle.c_types.specs.IntKinds.{width};
ghost use Rattle.block_memory.specs.Digits.{digit_before, valued};
ghost use Rattle.block_memory.specs.Held.{word_of};

use c_types::IntKind;
use lay_base::UndefinedKind;
use memory_words::Cell;

/// A byte, and the number in the cells behind it.
#[inline(always)]
fn digit(first: Cell, rest: Result<u32, UndefinedKind>) -> Result<u32, UndefinedKind>
    requires { IfOk rest (λ v. v < 2 ^ 24) }
    ensures value { result ≡ digit_before first rest }
    ensures one { IfOk rest (λ v. v < 1) → IfOk result (λ v. v < 2 ^ 8) }
    ensures two { IfOk rest (λ v. v < 2 ^ 8) → IfOk result (λ v. v < 2 ^ 16) }
    ensures three { IfOk rest (λ v. v < 2 ^ 16) → IfOk result (λ v. v < 2 ^ 24) }
{
    match first {
        Cell::Empty => Err(UndefinedKind::Empty),
        Cell::Byte(x) => match rest {
            Ok(v) => Ok(u32::from(x) + 256 * v),
            Err(kind) => Err(kind),
        },
        Cell::Fragment(_, _, _) => match rest {
            Ok(_) => Err(UndefinedKind::Pointer),
            Err(kind) => Err(kind),
        },
    }
}

/// The number in one cell.
pub(crate) fn in_one(a: Cell) -> Result<u32, UndefinedKind>
    ensures value { result ≡ digit_before a (Ok 0) }
    ensures small { IfOk result (λ v. v < 2 ^ 8) }
{
    digit(a, Ok(0))
}

/// The number in two cells.
pub(crate) fn in_two(a: Cell, b: Cell) -> Result<u32, UndefinedKind>
    ensures value { result ≡ digit_before a (digit_before b (Ok 0)) }
    ensures small { IfOk result (λ v. v < 2 ^ 16) }
{
    digit(a, digit(b, Ok(0)))
}

/// The number in four cells.
pub(crate) fn in_four(a: Cell, b: Cell, c: Cell, d: Cell) -> Result<u32, UndefinedKind>
    ensures { result ≡ digit_before a (digit_before b (digit_before c (digit_before d (Ok 0)))) }
{
    digit(a, digit(b, digit(c, digit(d, Ok(0)))))
}

/// The word that stands for a number of so many bytes in two's complement.
pub(crate) fn word_of(kind: IntKind, v: u32) -> u32
    requires { v < 2 ^ (8 * width kind) }
    ensures { result ≡ word_of kind v }
{
    match kind {
        IntKind::SChar => { if v <= 127 { v } else { v + 4_294_967_040 } }
        IntKind::Short => { if v <= 32767 { v } else { v + 4_294_901_760 } }
        IntKind::Char
        | IntKind::UChar
        | IntKind::UShort
        | IntKind::Int
        | IntKind::UInt
        | IntKind::Long
        | IntKind::ULong => v,
    }
}

/// A number of a type as its word.
pub(crate) fn valued(kind: IntKind, v: Result<u32, UndefinedKind>) -> Result<u32, UndefinedKind>
    requires { IfOk v (λ v. v < 2 ^ (8 * width kind)) }
    ensures { result ≡ valued kind v }
{
    match v {
        Ok(v) => Ok(word_of(kind, v)),
        Err(fault) => Err(fault),
    }
}
