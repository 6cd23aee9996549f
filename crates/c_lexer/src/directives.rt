//! Lines that begin with `#`.

ghost use Rattle.std.specs.Prelude.{◌≡◌, ◌≤◌, ◌+◌, ◌<◌, ◌^◌, length, IfSome, true, false};
ghost use Rattle.std.specs.List.{list_all};
ghost use Rattle.c_tokens.specs.Characters.{is_blank};
ghost use Rattle.c_tokens.specs.Directives.{is_layout_word, may_change_layout};
ghost use Rattle.c_lexer.specs.DirectiveScan.{are_flags, is_marker_end, named, marker_after, marker_at, line_at, silent_unless, directive_after, directive_in};
ghost use Rattle.c_tokens.specs.QuotedScan.{quoted_length};

use crate::characters::{blank, decimal};
use crate::numbers::value_of;
use crate::quoted::quoted_run;
use crate::runs::{blank_run, decimal_run, name_run};
use c_tokens::{Directive, NameRange};

/// The first number that no line may have.
const NUMBER_LIMIT: u64 = 2_147_483_648;

fn is_blank_alone(rest: &[u8]) -> bool
    ensures { result ≡ list_all is_blank rest.now }
{
    rest.iter().all(|b| blank(*b))
}

/// Whether only flags stand there, each after a blank.
fn are_flags(rest: &[u8]) -> bool
    ensures { result ≡ are_flags false rest.now }
{
    let mut digit_may_come = false;
    for b in rest {
        if blank(*b) {
            digit_may_come = true;
        } else if !digit_may_come || !decimal(*b) {
            return false;
        }
    }
    true
}

fn is_marker_end(worded: bool, rest: &[u8]) -> bool
    ensures { result ≡ is_marker_end worded rest.now }
{
    if worded {
        is_blank_alone(rest)
    } else {
        are_flags(rest)
    }
}

/// A marker whose name begins at byte `at` after the `#`, from that name on.
fn named(worded: bool, number: u32, at: u32, text: &[u8]) -> Option<Directive>
    requires { at + length text.now ≤ 4194304 }
    ensures { result ≡ named worded number at text.now (quoted_length 34 false text.now) }
{
    let size = quoted_run(b'"', text)?;
    if !is_marker_end(worded, &text[size..]) {
        return None;
    }
    let name = NameRange {
        from: at,
        to: at + size as u32 - 1,
    };
    Some(Directive::Renumbers(number, Some(name)))
}

/// A marker from after its number on.
fn marker_after(worded: bool, number: u32, at: u32, text: &[u8]) -> Option<Directive>
    requires { at + length text.now ≤ 4194304 }
    ensures { result ≡ marker_after worded number at text.now }
{
    let blanks = blank_run(text);
    match &text[blanks..] {
        [b'"', rest @ ..] => named(worded, number, at + blanks as u32 + 1, rest),
        _ if is_marker_end(worded, text) => Some(Directive::Renumbers(number, None)),
        _ => None,
    }
}

/// A marker from its number on.
#[tactic(auto, using(crate::proofs::Digits::decimal_run_passes))]
fn marker_at(worded: bool, at: u32, text: &[u8]) -> Option<Directive>
    requires { at + length text.now ≤ 4194304 }
    ensures { result ≡ marker_at worded at text.now }
{
    let count = decimal_run(text);
    if count == 0 {
        return None;
    }
    let (digits, rest) = text.split_at(count);
    let number = value_of(10, digits);
    if number >= NUMBER_LIMIT {
        return None;
    }
    marker_after(worded, number as u32, at + count as u32, rest)
}

/// From after the word `line` on.
fn line_at(at: u32, text: &[u8]) -> Option<Directive>
    requires { at + length text.now ≤ 4194304 }
    ensures { result ≡ line_at at text.now }
{
    let blanks = blank_run(text);
    if blanks == 0 {
        return None;
    }
    marker_at(true, at + blanks as u32, &text[blanks..])
}

/// Whether it is a first word of pragmas by which GCC lays structures out in another way.
fn is_layout_word(word: &[u8]) -> bool
    ensures { result ≡ is_layout_word word.now }
{
    word == b"pack".as_slice()
        || word == b"ms_struct".as_slice()
        || word == b"scalar_storage_order".as_slice()
}

/// Whether what stands after `#pragma` may change the layout of structures.
fn may_change_layout(text: &[u8]) -> bool
    ensures { result ≡ may_change_layout text.now }
{
    let blanks = blank_run(text);
    let rest = &text[blanks..];
    if let [b'/', ..] = rest {
        return true;
    }
    let count = name_run(rest);
    is_layout_word(&rest[..count])
}

/// A pragma from after the word `pragma` on.
fn pragma_at(text: &[u8]) -> Option<Directive>
    ensures { result ≡ silent_unless (may_change_layout text.now) }
{
    if may_change_layout(text) {
        None
    } else {
        Some(Directive::Silent)
    }
}

/// From after the blanks that follow the `#`.
fn directive_after(at: u32, text: &[u8]) -> Option<Directive>
    requires { at + length text.now ≤ 4194304 }
    ensures { result ≡ directive_after at text.now }
{
    if let [] = text {
        return Some(Directive::Silent);
    }
    if let [b'0'..=b'9', ..] = text {
        return marker_at(false, at, text);
    }
    let count = name_run(text);
    let (word, rest) = text.split_at(count);
    if word == b"pragma".as_slice() {
        pragma_at(rest)
    } else if word == b"line".as_slice() {
        line_at(at + count as u32, rest)
    } else {
        None
    }
}

/// The directive that the bytes after a `#` are, up to the end of the line.
#[tactic(auto, unfolding(crate::specs::DirectiveScan::directive_in))]
pub fn directive_in(content: &[u8]) -> Option<Directive>
    requires { length content.now ≤ 4194304 }
    ensures { result ≡ directive_in content.now }
{
    let blanks = blank_run(content);
    directive_after(blanks as u32, &content[blanks..])
}
