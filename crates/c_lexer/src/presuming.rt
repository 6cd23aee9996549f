//! What is presumed of a place.

ghost use Rattle.std.specs.Prelude.{◌≡◌, ◌≤◌, ◌<◌, ◌+◌, fold, length, take, IfSome};
ghost use Rattle.c_lexer.specs.DirectiveScan.{directive_in};
ghost use Rattle.c_tokens.specs.Presuming.{first_lines, after_byte, AreTokensBefore, IsPresumed};
ghost use Rattle.c_lexer.specs.PresumingScan.{with_directive, after_part, IsRead};

use crate::directives::directive_in;
use crate::parts::{after_white, begins_line_after_part, part_at, punctuator_alone};
use c_tokens::{Directive, Lines, PartKind, Presumed};

/// The first two lines, under the file's own name.
fn first_lines() -> Lines
    ensures { result ≡ first_lines }
{
    Lines {
        here: Presumed {
            from: 0,
            to: 0,
            line: 1,
        },
        next: Presumed {
            from: 0,
            to: 0,
            line: 2,
        },
    }
}

/// A line feed begins the next line.
fn after_byte(lines: Lines, byte: u8) -> Lines
    requires { lines.next.line < 4294967295 }
    ensures { result ≡ after_byte lines byte }
{
    if byte != b'\n' {
        return lines;
    }
    Lines {
        here: lines.next,
        next: Presumed {
            line: lines.next.line + 1,
            ..lines.next
        },
    }
}

fn after_bytes(lines: Lines, text: &[u8]) -> Lines
    requires { lines.next.line + length text.now ≤ 4294967295 }
    ensures { result ≡ fold after_byte lines text.now }
{
    let mut after = lines;
    for byte in text {
        after = after_byte(after, *byte);
    }
    after
}

/// After a directive whose `#` stands at byte `at`.
#[tactic(auto, using(crate::proofs::LinesOfParts::name_within))]
fn after_directive(at: u32, content: &[u8], lines: Lines) -> Lines
    requires { at + 1 + length content.now ≤ 4194304 }
    ensures { result ≡ with_directive at (directive_in content.now) lines }
{
    match directive_in(content) {
        Some(Directive::Renumbers(line, None)) => Lines {
            next: Presumed { line, ..lines.here },
            ..lines
        },
        Some(Directive::Renumbers(line, Some(name))) => Lines {
            next: Presumed {
                from: at + 1 + name.from,
                to: at + 1 + name.to,
                line,
            },
            ..lines
        },
        _ => lines,
    }
}

/// After a part that begins at byte `at`.
fn after_part(at: u32, kind: PartKind, text: &[u8], lines: Lines) -> Lines
    requires short { at + length text.now ≤ 4194304 }
    requires small { lines.next.line ≤ 2147483647 + at }
    ensures { result ≡ after_part at kind text.now lines }
{
    match (kind, text) {
        (PartKind::Directive, [_, content @ ..]) => after_directive(at, content, lines),
        (PartKind::Directive, []) => lines,
        _ => after_bytes(lines, text),
    }
}

/// How far a text was read from its start: up to byte `from`, before which only white space stands
/// on its line or not.
#[derive(Clone, Copy)]
pub struct Reached {
    pub from: u32,
    pub begins_line: bool,
    pub lines: Lines,
}

/// At the start of a text.
pub fn at_start(bytes: &[u8]) -> Reached
    ensures read { IsRead bytes.now result }
    ensures start { result.from ≡ 0 }
{
    Reached {
        from: 0,
        begins_line: true,
        lines: first_lines(),
    }
}

/// After one more part, where it ends at byte `at` or before it.
fn after_next(bytes: &[u8], at: u32, reached: Reached) -> Option<Reached>
    requires short { length bytes.now ≤ 4194304 }
    requires within { at ≤ length bytes.now }
    requires before { reached.from ≤ at }
    requires tokens { AreTokensBefore at bytes.now }
    requires read { IsRead bytes.now reached }
    ensures read { IfSome result (λ next. IsRead bytes.now next) }
    ensures within { IfSome result (λ next. (reached.from < next.from) × (next.from ≤ at)) }
{
    let (_, rest) = bytes.split_at(reached.from as usize);
    if let Some(begins_line) = after_white(reached.begins_line, rest) {
        if reached.from >= at {
            return None;
        }
        let (byte, _) = rest.split_at(1);
        return Some(Reached {
            from: reached.from + 1,
            begins_line,
            lines: after_bytes(reached.lines, byte),
        });
    }
    if let Some(_punctuator) = punctuator_alone(rest) {
        if reached.from >= at {
            return None;
        }
        return Some(Reached {
            from: reached.from + 1,
            begins_line: false,
            lines: reached.lines,
        });
    }
    let Ok((kind, size)) = part_at(reached.begins_line, rest) else {
        return None;
    };
    if size > (at - reached.from) as usize {
        return None;
    }
    let (part, _) = rest.split_at(size);
    Some(Reached {
        from: reached.from + size as u32,
        begins_line: begins_line_after_part(reached.begins_line, kind, part),
        lines: after_part(reached.from, kind, part, reached.lines),
    })
}

/// After all parts that end at byte `at` or before it.
pub fn after_parts(bytes: &[u8], at: u32, start: Reached) -> Reached
    requires short { length bytes.now ≤ 4194304 }
    requires within { at ≤ length bytes.now }
    requires before { start.from ≤ at }
    requires tokens { AreTokensBefore at bytes.now }
    requires read { IsRead bytes.now start }
    ensures read { IsRead bytes.now result }
    ensures within { result.from ≤ at }
{
    let mut reached = start;
    while let Some(next) = after_next(bytes, at, reached) {
        reached = next;
    }
    reached
}

/// What is presumed of the place at byte `at`, from a place before it on. A part may begin between
/// the two that ends after `at`: its bytes before `at` are parts too.
pub fn presumed_after(bytes: &[u8], at: u32, start: Reached) -> Presumed
    requires short { length bytes.now ≤ 4194304 }
    requires within { at ≤ length bytes.now }
    requires before { start.from ≤ at }
    requires tokens { AreTokensBefore at bytes.now }
    requires read { IsRead bytes.now start }
    ensures { IsPresumed (take at bytes.now) result }
{
    let mut reached = start;
    let (front, _) = bytes.split_at(at as usize);
    let (_, mut rest) = front.split_at(start.from as usize);
    while !rest.is_empty() {
        // The bytes are tokens, so a part is always found.
        let Ok((kind, size)) = part_at(reached.begins_line, rest) else {
            return reached.lines.here;
        };
        let (part, after) = rest.split_at(size);
        reached = Reached {
            from: reached.from + size as u32,
            begins_line: begins_line_after_part(reached.begins_line, kind, part),
            lines: after_part(reached.from, kind, part, reached.lines),
        };
        rest = after;
    }
    reached.lines.here
}
