//! Bytes by their classes.

ghost use Rattle.std.specs.Prelude.{◌≡◌, ◌≤◌, true};
ghost use Rattle.c_tokens.specs.Characters.{is_white, is_blank, is_digit, is_octal, is_hexadecimal, is_letter, goes_on_in_name, digit_value};

pub fn white(b: u8) -> bool
    ensures { result ≡ is_white b }
{
    b == b' ' || (b'\t' <= b && b <= b'\r')
}

pub fn blank(b: u8) -> bool
    ensures { result ≡ is_blank b }
{
    white(b) && b != b'\n'
}

pub fn decimal(b: u8) -> bool
    ensures { result ≡ is_digit b }
{
    b'0' <= b && b <= b'9'
}

pub fn octal(b: u8) -> bool
    ensures { result ≡ is_octal b }
{
    b'0' <= b && b <= b'7'
}

pub fn hexadecimal(b: u8) -> bool
    ensures { result ≡ is_hexadecimal b }
{
    decimal(b) || (b'A' <= b && b <= b'F') || (b'a' <= b && b <= b'f')
}

pub fn letter(b: u8) -> bool
    ensures { result ≡ is_letter b }
{
    (b'A' <= b && b <= b'Z') || (b'a' <= b && b <= b'z') || b == b'_'
}

pub fn name_byte(b: u8) -> bool
    ensures { result ≡ goes_on_in_name b }
{
    letter(b) || decimal(b)
}

/// The value of a digit, of a hexadecimal one too.
pub fn digit(b: u8) -> u64
    requires { is_hexadecimal b ≡ true }
    ensures is { result ≡ digit_value b }
    ensures small { result ≤ 15 }
{
    if b >= b'a' {
        (b - b'a') as u64 + 10
    } else if b >= b'A' {
        (b - b'A') as u64 + 10
    } else {
        (b - b'0') as u64
    }
}
