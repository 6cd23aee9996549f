//! Division and shifts of 32-bit integers, as C99 has them. `None` stands where a program's
//! behaviour is undefined.

ghost use Rattle.std.specs.Prelude.{◌≡◌, ◌↔◌, IsNone};
ghost use Rattle.lay_base.specs.Operators.{IsUndefinedDivision, quotient, remainder, shifted_left, shifted_right};

/// The quotient of two ints, its fraction discarded (C99 6.5.5), where it is defined.
#[tactic(auto, using(crate::proofs::Division::undefined_divisions))]
pub fn divide(a: i32, b: i32) -> Option<i32>
    ensures value { result ≡ quotient a b }
    ensures undefined { IsNone result ↔ IsUndefinedDivision a b }
{
    a.checked_div(b)
}

/// The remainder of two ints, with the sign of `a` (C99 6.5.5), where it is defined.
#[tactic(auto, using(crate::proofs::Division::undefined_divisions))]
pub fn remain(a: i32, b: i32) -> Option<i32>
    ensures value { result ≡ remainder a b }
    ensures undefined { IsNone result ↔ IsUndefinedDivision a b }
{
    a.checked_rem(b)
}

/// The bits of `a << by`, modulo 2^32 for signed operands too (C99 6.5.7). `None` comes exactly
/// where `by` is negative or at least 32.
pub fn shift_left(a: u32, by: i32) -> Option<u32>
    ensures { result ≡ shifted_left a by }
{
    let amount = u32::try_from(by).ok()?;
    a.checked_shl(amount)
}

/// The bits of `a >> by` (C99 6.5.7), where `signed` says that `a` is a number in two's complement:
/// its sign bit is then copied. `None` comes exactly where `by` is negative or at least 32.
pub fn shift_right(a: u32, by: i32, signed: bool) -> Option<u32>
    ensures { result ≡ shifted_right a by signed }
{
    let amount = u32::try_from(by).ok()?;
    if signed {
        let shifted = a.cast_signed().checked_shr(amount)?;
        Some(shifted.cast_unsigned())
    } else {
        a.checked_shr(amount)
    }
}
