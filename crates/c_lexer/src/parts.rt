//! The parts of a text: white space, comments, directives and words.

ghost use Rattle.std.specs.Prelude.{◌≡◌, ◌≤◌, ◌<◌, ◌+◌, Bool, fold, length, take, IfOk, IfSome, Ok, false};
ghost use Rattle.c_tokens.specs.declared.part.PartKind.TheVariants as P;
ghost use Rattle.c_tokens.specs.declared.part.Shape.TheVariants as S;
ghost use Rattle.c_tokens.specs.declared.presumed.Lines.{Lines};
ghost use Rattle.c_tokens.specs.Presuming.{after_byte};
ghost use Rattle.c_tokens.specs.QuotedScan.{quoted_length};
ghost use Rattle.c_lexer.specs.Scanning.{closed, comment_length, word_part, directive_part, slash_part, part_at, begins_line_after_kind, word_at};

use crate::characters::white;
use crate::directives::directive_in;
use crate::quoted::quoted_run;
use crate::runs::line_run;
use crate::words::word_at;
use c_tokens::{FaultKind, PartKind, Punctuator, Shape};

/// How many bytes go up to `*/`, and with it.
fn comment_run(bytes: &[u8]) -> Option<usize>
    ensures is { result ≡ comment_length false bytes.now }
    ensures within { IfSome result (λ n. n ≤ length bytes.now) }
{
    let mut starred = false;
    for (i, b) in bytes.iter().enumerate() {
        if starred && *b == b'/' {
            return Some(i + 1);
        }
        starred = *b == b'*';
    }
    None
}

fn word_part(bytes: &[u8]) -> Result<(PartKind, usize), FaultKind>
    ensures is { result ≡ word_part (word_at bytes.now) }
    ensures within { IfOk result (λ part. (0 < part.1) × (part.1 ≤ length bytes.now)) }
{
    match word_at(bytes) {
        Some((shape, size)) => Ok((PartKind::Word(shape), size)),
        None => Err(FaultKind::BadByte),
    }
}

fn directive_part(begins_line: bool, bytes: &[u8]) -> Result<(PartKind, usize), FaultKind>
    requires { length bytes.now ≤ 4194304 }
    ensures is { result ≡ directive_part begins_line bytes.now }
    ensures within { IfOk result (λ part. (0 < part.1) × (part.1 ≤ length bytes.now + 1)) }
{
    if !begins_line {
        return Err(FaultKind::BadByte);
    }
    let size = line_run(bytes);
    match directive_in(&bytes[..size]) {
        Some(_) => Ok((PartKind::Directive, size + 1)),
        None => Err(FaultKind::BadByte),
    }
}

fn slash_part(bytes: &[u8]) -> Result<(PartKind, usize), FaultKind>
    requires { 0 < length bytes.now }
    ensures is { result ≡ slash_part bytes.now }
    ensures within { IfOk result (λ part. (0 < part.1) × (part.1 ≤ length bytes.now)) }
{
    match bytes {
        [_, b'*', rest @ ..] => match comment_run(rest) {
            Some(size) => Ok((PartKind::Comment, size + 2)),
            None => Err(FaultKind::Unclosed),
        },
        [_, b'/', rest @ ..] => Ok((PartKind::LineComment, line_run(rest) + 2)),
        _ => word_part(bytes),
    }
}

fn quoted_part(shape: Shape, quote: u8, rest: &[u8]) -> Result<(PartKind, usize), FaultKind>
    ensures is { result ≡ closed (P.Word shape) 1 (quoted_length quote false rest.now) }
    ensures within { IfOk result (λ part. (0 < part.1) × (part.1 ≤ length rest.now + 1)) }
{
    match quoted_run(quote, rest) {
        Some(size) => Ok((PartKind::Word(shape), size + 1)),
        None => Err(FaultKind::Unclosed),
    }
}

/// The punctuator that the first byte is, whatever follows it. No line ends with it.
#[tactic(auto, unfolding(crate::specs::Scanning::part_at))]
pub fn punctuator_alone(bytes: &[u8]) -> Option<Punctuator>
    ensures is { (begins_line : Bool) → IfSome result (λ punctuator. part_at begins_line bytes.now ≡ Ok (P.Word (S.Punctuator punctuator), 1)) }
    ensures plain { (lines : Lines) → IfSome result (λ punctuator. fold after_byte lines (take 1 bytes.now) ≡ lines) }
    ensures within { IfSome result (λ punctuator. 0 < length bytes.now) }
{
    match bytes {
        [b'(', ..] => Some(Punctuator::Open),
        [b')', ..] => Some(Punctuator::Close),
        [b',', ..] => Some(Punctuator::Comma),
        [b';', ..] => Some(Punctuator::Semicolon),
        [b'[', ..] => Some(Punctuator::OpenSquare),
        [b']', ..] => Some(Punctuator::CloseSquare),
        [b'{', ..] => Some(Punctuator::OpenBrace),
        [b'}', ..] => Some(Punctuator::CloseBrace),
        _ => None,
    }
}

/// Where a byte of white space is at the front, whether only white space stands after it on its line.
#[tactic(auto, unfolding(crate::specs::Scanning::part_at))]
pub fn after_white(begins_line: bool, bytes: &[u8]) -> Option<bool>
    ensures is { IfSome result (λ after. part_at begins_line bytes.now ≡ Ok (P.White, 1)) }
    ensures line { IfSome result (λ after. begins_line_after_kind begins_line P.White (take 1 bytes.now) ≡ after) }
    ensures within { IfSome result (λ after. 0 < length bytes.now) }
{
    let [first, ..] = bytes else {
        return None;
    };
    if white(*first) {
        Some(begins_line || *first == b'\n')
    } else {
        None
    }
}

/// The kind and the length of the part at the front.
#[tactic(auto, unfolding(crate::specs::Scanning::part_at))]
pub fn part_at(begins_line: bool, bytes: &[u8]) -> Result<(PartKind, usize), FaultKind>
    requires { length bytes.now ≤ 4194304 }
    ensures is { result ≡ part_at begins_line bytes.now }
    ensures within { IfOk result (λ part. (0 < part.1) × (part.1 ≤ length bytes.now)) }
{
    let [first, rest @ ..] = bytes else {
        return Err(FaultKind::BadByte);
    };
    if white(*first) {
        return Ok((PartKind::White, 1));
    }
    match *first {
        b'/' => slash_part(bytes),
        b'#' => directive_part(begins_line, rest),
        b'\'' => quoted_part(Shape::Character, b'\'', rest),
        b'"' => quoted_part(Shape::Text, b'"', rest),
        _ => word_part(bytes),
    }
}

/// Whether only white space stands after the part on its line.
pub fn begins_line_after_part(begins_line: bool, kind: PartKind, text: &[u8]) -> bool
    ensures { result ≡ begins_line_after_kind begins_line kind text.now }
{
    match kind {
        PartKind::White => begins_line || matches!(text, [b'\n', ..]),
        _ => false,
    }
}
