//! What the arithmetic instructions give, on words (RISC-V unprivileged specification, RV32I and the
//! M extension). None of them traps.

ghost use Rattle.std.specs.Prelude.{◌≡◌, FitsSigned};
ghost use Rattle.std.specs.Int.{w8, w16, w32, cast_signed, cast_unsigned, int_shr};
ghost use Rattle.rv_isa.specs.Arithmetic.{extended, high_mixed, high_signed, high_unsigned, is_less, one_if, plus, quotient, quotient_unsigned};
ghost use Rattle.rv_isa.specs.Arithmetic.{remainder, remainder_unsigned, shifted_left, shifted_right, shifted_right_signed};

/// 1 where the test holds, and else 0.
#[inline(always)]
pub(crate) fn word_if(test: bool) -> u32
    ensures { result ≡ one_if test }
{
    test as u32
}

/// The sum of a word and an immediate, without its carry.
#[inline(always)]
pub(crate) fn plus(a: u32, imm: i32) -> u32
    ensures { result ≡ plus a imm }
{
    a.wrapping_add(imm.cast_unsigned())
}

/// The immediate as a word, with its sign extended.
#[inline(always)]
pub(crate) fn extended(imm: i32) -> u32
    ensures { result ≡ extended imm }
{
    imm.cast_unsigned()
}

/// The byte as a word, with its sign extended (LB).
#[inline(always)]
pub(crate) fn extended_byte(byte: u8) -> u32
    ensures { result ≡ extended (cast_signed w8 byte) }
{
    (byte.cast_signed() as i32).cast_unsigned()
}

/// The half as a word, with its sign extended (LH).
#[inline(always)]
pub(crate) fn extended_half(half: u16) -> u32
    ensures { result ≡ extended (cast_signed w16 half) }
{
    (half.cast_signed() as i32).cast_unsigned()
}

/// Whether one signed number is less than the other (SLT, BLT).
#[inline(always)]
pub(crate) fn is_less(a: u32, b: u32) -> bool
    ensures { result ≡ is_less a b }
{
    a.cast_signed() < b.cast_signed()
}

/// The upper word of a product.
#[inline(always)]
fn upper_word(product: i64) -> u32
    requires { FitsSigned w32 (int_shr product 32) }
    ensures { result ≡ cast_unsigned w32 (int_shr product 32) }
{
    ((product >> 32) as i32).cast_unsigned()
}

/// The upper word of the product of two signed numbers (MULH).
#[inline(always)]
pub(crate) fn high_signed(a: u32, b: u32) -> u32
    ensures { result ≡ high_signed a b }
{
    upper_word(a.cast_signed() as i64 * b.cast_signed() as i64)
}

/// The upper word of the product of a signed and an unsigned number (MULHSU).
#[inline(always)]
pub(crate) fn high_mixed(a: u32, b: u32) -> u32
    ensures { result ≡ high_mixed a b }
{
    upper_word(a.cast_signed() as i64 * b as i64)
}

/// The upper word of the product of two unsigned numbers (MULHU).
#[inline(always)]
pub(crate) fn high_unsigned(a: u32, b: u32) -> u32
    ensures { result ≡ high_unsigned a b }
{
    (a as u64 * b as u64 >> 32) as u32
}

/// The word shifted left by the low five bits of the amount (SLL).
#[inline(always)]
pub(crate) fn shifted_left(a: u32, amount: u32) -> u32
    ensures { result ≡ shifted_left a amount }
{
    a << (amount % 32)
}

/// The word shifted right by the low five bits of the amount, with zeros from above (SRL).
#[inline(always)]
pub(crate) fn shifted_right(a: u32, amount: u32) -> u32
    ensures { result ≡ shifted_right a amount }
{
    a >> (amount % 32)
}

/// The word shifted right by the low five bits of the amount, with its sign from above (SRA).
#[inline(always)]
pub(crate) fn shifted_right_signed(a: u32, amount: u32) -> u32
    ensures { result ≡ shifted_right_signed a amount }
{
    (a.cast_signed() >> (amount % 32)).cast_unsigned()
}

/// The quotient of two signed numbers, rounded towards zero (DIV). By zero it is all ones.
#[inline(always)]
pub(crate) fn quotient(a: u32, b: u32) -> u32
    ensures { result ≡ quotient a b }
{
    if b == 0 {
        u32::MAX
    } else {
        a.cast_signed()
            .wrapping_div(b.cast_signed())
            .cast_unsigned()
    }
}

/// The remainder of two signed numbers, with the sign of the dividend (REM). By zero it is the
/// dividend.
#[inline(always)]
pub(crate) fn remainder(a: u32, b: u32) -> u32
    ensures { result ≡ remainder a b }
{
    if b == 0 {
        a
    } else {
        a.cast_signed()
            .wrapping_rem(b.cast_signed())
            .cast_unsigned()
    }
}

/// The quotient of two unsigned numbers (DIVU). By zero it is all ones.
#[inline(always)]
pub(crate) fn quotient_unsigned(a: u32, b: u32) -> u32
    ensures { result ≡ quotient_unsigned a b }
{
    if b == 0 { u32::MAX } else { a / b }
}

/// The remainder of two unsigned numbers (REMU). By zero it is the dividend.
#[inline(always)]
pub(crate) fn remainder_unsigned(a: u32, b: u32) -> u32
    ensures { result ≡ remainder_unsigned a b }
{
    if b == 0 { a } else { a % b }
}
