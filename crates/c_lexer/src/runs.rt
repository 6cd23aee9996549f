//! How far bytes of one class go.

ghost use Rattle.std.specs.Prelude.{◌≡◌, ◌≤◌, length, take, true, min};
ghost use Rattle.std.specs.List.{prefix_len, list_all};
ghost use Rattle.c_tokens.specs.Characters.{is_blank, is_digit, is_octal, is_hexadecimal, goes_on_in_name};
ghost use Rattle.c_lexer.specs.Scanning.{line_length};

use crate::characters::{blank, decimal, hexadecimal, name_byte, octal};

/// How many bytes of a name stand at the front.
pub fn name_run(bytes: &[u8]) -> usize
    ensures is { result ≡ prefix_len goes_on_in_name bytes.now }
    ensures within { result ≤ length bytes.now }
{
    bytes.iter().take_while(|b| name_byte(**b)).count()
}

/// How many blanks stand at the front.
pub fn blank_run(bytes: &[u8]) -> usize
    ensures is { result ≡ prefix_len is_blank bytes.now }
    ensures within { result ≤ length bytes.now }
{
    bytes.iter().take_while(|b| blank(**b)).count()
}

/// How many decimal digits stand at the front.
pub fn decimal_run(bytes: &[u8]) -> usize
    ensures is { result ≡ prefix_len is_digit bytes.now }
    ensures within { result ≤ length bytes.now }
{
    bytes.iter().take_while(|b| decimal(**b)).count()
}

/// How many octal digits stand at the front.
pub fn octal_run(bytes: &[u8]) -> usize
    ensures is { result ≡ prefix_len is_octal bytes.now }
    ensures within { result ≤ length bytes.now }
{
    bytes.iter().take_while(|b| octal(**b)).count()
}

/// How many digits an octal escape has: at most three.
#[tactic(auto, using(crate::proofs::Digits::octal_front_passes))]
pub fn octal_front(bytes: &[u8]) -> usize
    ensures is { result ≡ min (prefix_len is_octal bytes.now) 3 }
    ensures within { result ≤ length bytes.now }
    ensures each { list_all is_hexadecimal (take result bytes.now) ≡ true }
{
    octal_run(bytes).min(3)
}

/// How many hexadecimal digits stand at the front.
pub fn hexadecimal_run(bytes: &[u8]) -> usize
    ensures is { result ≡ prefix_len is_hexadecimal bytes.now }
    ensures within { result ≤ length bytes.now }
{
    bytes.iter().take_while(|b| hexadecimal(**b)).count()
}

/// How many bytes stand before the end of the line.
pub fn line_run(bytes: &[u8]) -> usize
    ensures is { result ≡ line_length bytes.now }
    ensures within { result ≤ length bytes.now }
{
    bytes.iter().take_while(|b| **b != b'\n').count()
}
