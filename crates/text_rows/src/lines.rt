//! Presumed lines as text.

ghost use Rattle.std.specs.Prelude.{◌≡◌, ◌≤◌, All, length};
ghost use Rattle.c_tokens.specs.TokenPlaces.{IsPlaceIn};

use c_lexer::{PresumedLines, lex, presumed_at};
use c_tokens::Token;
use row_lines::Writer;
use std::alloc::Global;

/// The line of a place that comes after those that were asked. Where another is found from the start of the text, that
/// one stands after it.
fn put_line(out: &mut Writer, lines: &mut PresumedLines, text: &[u8], at: u32)
    requires short { length text.now ≤ 4194304 }
    requires of { lines.old.0 ≡ text.now }
    requires order { lines.old.1 ≤ at }
    requires place { IsPlaceIn text.now at }
    ensures { lines.new ≡ (text.now, at) }
{
    let found = lines.presumed_at(at);
    out.number(u64::from(found.line));
    let alone = presumed_at(text, at);
    if found != alone {
        out.value(&alone);
    }
}

/// The lines of tokens of a text, and of its end.
pub fn put_lines(out: &mut Writer, text: &[u8], tokens: &[Token])
    requires short { length text.now ≤ 4194304 }
    requires places { All (λ token. IsPlaceIn text.now token.from) tokens.now }
    requires end { IsPlaceIn text.now (length text.now) }
{
    let mut lines = PresumedLines::new(text);
    let mut asked = 0;
    for token in tokens {
        if token.from < asked {
            return out.word("out of order");
        }
        put_line(out, &mut lines, text, token.from);
        asked = token.from;
    }
    put_line(out, &mut lines, text, text.len() as u32);
}

/// The number before the first space of a text.
fn number_before(text: &str) -> Option<u32> {
    let (digits, _) = text.split_once(' ')?;
    digits.parse().ok()
}

/// What is presumed of the byte whose number begins a name, where the bytes before it are tokens.
pub fn put_presumed(out: &mut Writer, alloc: Global, name: &str, text: &[u8])
    requires { length text.now ≤ 4194304 }
{
    let at = number_before(name).unwrap_or(u32::MAX);
    if at as usize > text.len() {
        return out.word("no such byte");
    }
    match lex(alloc, &text[..at as usize], 0) {
        Ok(_) => out.value(&presumed_at(text, at)),
        Err(fault) => out.value(&fault),
    }
}
