//! Integer constants.

ghost use Rattle.std.specs.Prelude.{◌≡◌, ◌≤◌, ◌^◌, length, take, IfSome, true};
ghost use Rattle.std.specs.List.{list_all, prefix_len};
ghost use Rattle.c_tokens.specs.Characters.{is_hexadecimal};
ghost use Rattle.c_tokens.specs.Numbers.{base, begins_number, goes_on_in_number, kinds, first_holding};
ghost use Rattle.c_lexer.specs.NumberScan.{number_length, capped_value, radix_at, is_digit_in, is_u, is_l, suffix_of_one, suffix_of_two};
ghost use Rattle.c_lexer.specs.NumberScan.{suffix_of_three, suffix_at, number_after, number_of};

use crate::characters::{decimal, digit, hexadecimal, name_byte};
use crate::runs::{decimal_run, hexadecimal_run, octal_run};
use c_tokens::{FaultKind, Radix, Suffix, TokenKind};
use c_types::IntKind;

/// What no value of a number passes: the first that no type holds.
const CAP: u64 = 4_294_967_296;

/// Whether a number begins here: with a digit, or with a dot and a digit.
pub fn number_begins(bytes: &[u8]) -> bool
    ensures { result ≡ begins_number bytes.now }
{
    match bytes {
        [b, ..] if decimal(*b) => true,
        [b'.', b, ..] => decimal(*b),
        _ => false,
    }
}

fn number_goes_on(before: u8, b: u8) -> bool
    ensures { result ≡ goes_on_in_number before b }
{
    let exponent = before == b'e' || before == b'E' || before == b'p' || before == b'P';
    name_byte(b) || b == b'.' || (exponent && (b == b'+' || b == b'-'))
}

/// How far a number goes on after a byte of it.
pub fn number_run(first: u8, bytes: &[u8]) -> usize
    ensures is { result ≡ number_length first bytes.now }
    ensures within { result ≤ length bytes.now }
{
    let mut before = first;
    for (i, b) in bytes.iter().enumerate() {
        if !number_goes_on(before, *b) {
            return i;
        }
        before = *b;
    }
    bytes.len()
}

/// The radix of a constant, and how many bytes stand before its digits.
fn radix_of(word: &[u8]) -> Option<(Radix, usize)>
    ensures is { result ≡ radix_at word.now }
    ensures within { IfSome result (λ start. start.1 ≤ length word.now) }
{
    match word {
        [b'0', b'x' | b'X', b, ..] if hexadecimal(*b) => Some((Radix::Hexadecimal, 2)),
        [b'0', ..] => Some((Radix::Octal, 1)),
        [b, ..] if decimal(*b) => Some((Radix::Decimal, 0)),
        _ => None,
    }
}

fn base_of(radix: Radix) -> u64
    ensures is { result ≡ base radix }
    ensures small { result ≤ 16 }
{
    match radix {
        Radix::Decimal => 10,
        Radix::Octal => 8,
        Radix::Hexadecimal => 16,
    }
}

#[tactic(auto, using(crate::proofs::Digits::decimal_run_passes, crate::proofs::Digits::octal_run_passes, crate::proofs::Digits::hexadecimal_run_passes))]
fn digit_run(radix: Radix, text: &[u8]) -> usize
    ensures is { result ≡ prefix_len (is_digit_in radix) text.now }
    ensures within { result ≤ length text.now }
    ensures each { list_all is_hexadecimal (take result text.now) ≡ true }
{
    match radix {
        Radix::Decimal => decimal_run(text),
        Radix::Octal => octal_run(text),
        Radix::Hexadecimal => hexadecimal_run(text),
    }
}

/// The value of digits, or 2^32 where it is greater.
pub fn value_of(base: u64, digits: &[u8]) -> u64
    requires few { base ≤ 16 }
    requires each { list_all is_hexadecimal digits.now ≡ true }
    ensures is { result ≡ capped_value base digits.now }
    ensures capped { result ≤ 2 ^ 32 }
{
    let mut value = 0;
    for b in digits {
        value = (base * value + digit(*b)).min(CAP);
    }
    value
}

fn unsigned_letter(b: u8) -> bool
    ensures { result ≡ is_u b }
{
    b == b'u' || b == b'U'
}

fn long_letter(b: u8) -> bool
    ensures { result ≡ is_l b }
{
    b == b'l' || b == b'L'
}

fn suffix_of_one(a: u8) -> Option<Suffix>
    ensures { result ≡ suffix_of_one a }
{
    if unsigned_letter(a) {
        Some(Suffix::Unsigned)
    } else if long_letter(a) {
        Some(Suffix::Long)
    } else {
        None
    }
}

fn suffix_of_two(a: u8, b: u8) -> Option<Suffix>
    ensures { result ≡ suffix_of_two a b }
{
    if (unsigned_letter(a) && long_letter(b)) || (long_letter(a) && unsigned_letter(b)) {
        Some(Suffix::UnsignedLong)
    } else if long_letter(a) && a == b {
        Some(Suffix::LongLong)
    } else {
        None
    }
}

fn suffix_of_three(a: u8, b: u8, c: u8) -> Option<Suffix>
    ensures { result ≡ suffix_of_three a b c }
{
    if (unsigned_letter(a) && long_letter(b) && b == c)
        || (long_letter(a) && a == b && unsigned_letter(c))
    {
        Some(Suffix::LongLong)
    } else {
        None
    }
}

/// The suffix that a text is.
fn suffix_of(text: &[u8]) -> Option<Suffix>
    ensures { result ≡ suffix_at text.now }
{
    match text {
        [] => Some(Suffix::Plain),
        [a] => suffix_of_one(*a),
        [a, b] => suffix_of_two(*a, *b),
        [a, b, c] => suffix_of_three(*a, *b, *c),
        _ => None,
    }
}

/// The first of the types of a constant that holds its value.
fn type_of(radix: Radix, value: u64, suffix: Suffix) -> Option<IntKind>
    ensures { result ≡ first_holding value (kinds radix suffix) }
{
    let is_int = value <= 2_147_483_647;
    let is_unsigned = value <= 4_294_967_295;
    match (suffix, radix) {
        (Suffix::Plain, _) if is_int => Some(IntKind::Int),
        (Suffix::Plain, Radix::Octal | Radix::Hexadecimal) if is_unsigned => Some(IntKind::UInt),
        (Suffix::Unsigned, _) if is_unsigned => Some(IntKind::UInt),
        (Suffix::Long, _) if is_int => Some(IntKind::Long),
        (Suffix::Long, Radix::Octal | Radix::Hexadecimal) if is_unsigned => Some(IntKind::ULong),
        (Suffix::UnsignedLong, _) if is_unsigned => Some(IntKind::ULong),
        _ => None,
    }
}

/// The number with those digits and that suffix.
fn number_after(radix: Radix, text: &[u8]) -> Result<TokenKind, FaultKind>
    ensures { result ≡ number_after radix text.now }
{
    let (digits, tail) = text.split_at(digit_run(radix, text));
    let value = value_of(base_of(radix), digits);
    let Some(suffix) = suffix_of(tail) else {
        return Err(FaultKind::BadLiteral);
    };
    match type_of(radix, value, suffix) {
        Some(kind) => Ok(TokenKind::Number(value as u32, kind)),
        None => Err(FaultKind::TooWide),
    }
}

/// The token that a preprocessing number is.
#[tactic(auto, unfolding(crate::specs::NumberScan::number_of))]
pub fn number_of(word: &[u8]) -> Result<TokenKind, FaultKind>
    ensures { result ≡ number_of word.now }
{
    match radix_of(word) {
        Some((radix, front)) => number_after(radix, &word[front..]),
        None => Err(FaultKind::BadLiteral),
    }
}
