//! Character constants and string literals.

ghost use Rattle.std.specs.Prelude.{◌≡◌, ◌≤◌, ◌<◌, length, IfSome, true, false, take, ◌||◌};
ghost use Rattle.std.specs.List.{list_all};
ghost use Rattle.c_tokens.specs.Characters.{is_octal, is_hexadecimal};
ghost use Rattle.c_tokens.specs.Quoted.{simple_value};
ghost use Rattle.c_tokens.specs.QuotedScan.{quoted_length, capped_character, digits_at, escape_at, item_at, is_too_great, body_of, character_of, string_of};

use crate::characters::{digit, octal};
use crate::runs::{hexadecimal_run, octal_front};
use c_tokens::{FaultKind, TokenKind};

/// What no value of a character passes: the first that is too great.
const CAP: u64 = 256;

/// How many bytes go up to the closing quote, and with it, from after the opening one.
pub fn quoted_run(quote: u8, bytes: &[u8]) -> Option<usize>
    ensures is { result ≡ quoted_length quote false bytes.now }
    ensures within { IfSome result (λ n. (0 < n) × (n ≤ length bytes.now)) }
{
    let mut escaped = false;
    for (i, b) in bytes.iter().enumerate() {
        if *b == b'\n' {
            return None;
        }
        if escaped {
            escaped = false;
        } else if *b == quote {
            return Some(i + 1);
        } else {
            escaped = *b == b'\\';
        }
    }
    None
}

/// The value of a simple escape: `\` and this byte (C99 6.4.4.4).
fn simple_escape(b: u8) -> Option<u32>
    ensures is { result ≡ simple_value b }
{
    match b {
        b'\'' | b'"' | b'?' | b'\\' => Some(b as u32),
        b'a' => Some(7),
        b'b' => Some(8),
        b'f' => Some(12),
        b'n' => Some(10),
        b'r' => Some(13),
        b't' => Some(9),
        b'v' => Some(11),
        _ => None,
    }
}

/// The value of digits, or 256 where it is greater.
fn character_value(base: u64, digits: &[u8]) -> u32
    requires few { base ≤ 16 }
    requires each { list_all is_hexadecimal digits.now ≡ true }
    ensures is { result ≡ capped_character base digits.now }
    ensures capped { result ≤ 256 }
{
    let mut value = 0;
    for b in digits {
        value = (base * value + digit(*b)).min(CAP);
    }
    value as u32
}

/// The value of the first `count` digits, with their number, where there are any.
fn digits_at(base: u64, count: usize, bytes: &[u8]) -> Option<(u32, usize)>
    requires few { base ≤ 16 }
    requires within { count ≤ length bytes.now }
    requires each { list_all is_hexadecimal (take count bytes.now) ≡ true }
    ensures { result ≡ digits_at base count bytes.now }
{
    if count == 0 {
        return None;
    }
    Some((character_value(base, &bytes[..count]), count))
}

/// After a backslash: the value of the escape, and how many bytes it has.
#[tactic(auto, using(crate::proofs::Digits::hexadecimal_run_passes))]
fn escape_at(bytes: &[u8]) -> Option<(u32, usize)>
    ensures is { result ≡ escape_at bytes.now }
    ensures within { IfSome result (λ it. it.1 ≤ length bytes.now) }
{
    match bytes {
        [] => None,
        [b, ..] if octal(*b) => digits_at(8, octal_front(bytes), bytes),
        [b'x', rest @ ..] => {
            let (value, count) = digits_at(16, hexadecimal_run(rest), rest)?;
            Some((value, count + 1))
        }
        [b, ..] => Some((simple_escape(*b)?, 1)),
    }
}

/// The value of the first character, and how many bytes it has.
pub fn item_at(body: &[u8]) -> Option<(u32, usize)>
    ensures is { result ≡ item_at body.now }
    ensures within { IfSome result (λ it. (0 < it.1) × (it.1 ≤ length body.now)) }
{
    match body {
        [] => None,
        [b'\\', rest @ ..] => {
            let (value, count) = escape_at(rest)?;
            Some((value, count + 1))
        }
        [b, ..] => Some((*b as u32, 1)),
    }
}

/// What stands between the quotes of a word.
pub fn body_of(word: &[u8]) -> &[u8]
    ensures { result.now ≡ body_of word.now }
{
    match word {
        [_, body @ .., _] => body,
        _ => &[],
    }
}

/// The character constant that a word between single quotes is.
#[tactic(auto, unfolding(c_tokens::specs::QuotedScan::character_of))]
pub fn character_of(word: &[u8]) -> Result<TokenKind, FaultKind>
    ensures { result ≡ character_of word.now }
{
    let body = body_of(word);
    match item_at(body) {
        Some((value, count)) if count == body.len() => {
            if value > 255 {
                Err(FaultKind::TooWide)
            } else {
                Ok(TokenKind::Character(value))
            }
        }
        _ => Err(FaultKind::BadLiteral),
    }
}

/// Whether a character has been too great, this one included.
fn too_great_yet(before: bool, value: u32) -> bool
    ensures { result ≡ (before || is_too_great value) }
{
    before || value > 255
}

/// The string literal that a word between double quotes is.
#[tactic(auto, using(crate::proofs::Strings::text_stops, crate::proofs::Strings::text_begins), unfolding(c_tokens::specs::QuotedScan::string_of))]
pub fn string_of(word: &[u8]) -> Result<TokenKind, FaultKind>
    ensures { result ≡ string_of word.now }
{
    let mut rest = body_of(word);
    let mut wide = false;
    while !rest.is_empty() {
        let Some((value, count)) = item_at(rest) else {
            return Err(FaultKind::BadLiteral);
        };
        wide = too_great_yet(wide, value);
        (_, rest) = rest.split_at(count);
    }
    if wide {
        Err(FaultKind::TooWide)
    } else {
        Ok(TokenKind::Text)
    }
}
