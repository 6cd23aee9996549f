//! Presumed lines of places that come in order.

ghost use Rattle.std.specs.Prelude.{◌≡◌, ◌≤◌, length, take};
ghost use Rattle.c_tokens.specs.Presuming.{AreTokensBefore, IsPresumed};
ghost use Rattle.c_lexer.specs.PresumingScan.{IsRead};

use crate::presuming::{Reached, after_parts, at_start, presumed_after};
use c_tokens::Presumed;
use std::marker::Model;

/// What is presumed of places of a text, each at or after the one before it. The text is read once
/// for all of them, where they are places of its tokens.
#[derive(Drop)]
pub struct PresumedLines<'a> {
    bytes: &'a [u8],
    // The last place that was asked for.
    asked: u32,
    reached: Reached,
    ghost short: { length bytes.now ≤ 4194304 },
    ghost before: { reached.from ≤ asked },
    ghost read: { IsRead bytes.now reached },
}

/// Contracts see the text, and the last place that was asked for.
impl<'a> Model for PresumedLines<'a> {
    ghost use Rattle.std.specs.Prelude.{ℕ, List as Sequence};

    ghost Value = { Sequence ℕ × ℕ };

    ghost view = { λ it. (it.bytes.now, it.asked) };
}

impl<'a> PresumedLines<'a> {
    /// Before the first place of a text.
    pub fn new(bytes: &'a [u8]) -> PresumedLines<'a>
        requires { length bytes.now ≤ 4194304 }
        ensures of { result.0 ≡ bytes.entry.now }
        ensures start { result.1 ≡ 0 }
    {
        PresumedLines {
            bytes,
            asked: 0,
            reached: at_start(bytes),
        }
    }

    /// What is presumed of the place at byte `at`, of a text whose bytes before it are tokens (C99
    /// 6.10.4).
    pub fn presumed_at(&mut self, at: u32) -> Presumed
        requires order { self.old.1 ≤ at }
        requires within { at ≤ length self.old.0 }
        requires tokens { AreTokensBefore at self.old.0 }
        ensures is { IsPresumed (take at self.old.0) result }
        ensures of { self.new.0 ≡ self.old.0 }
        ensures asked { self.new.1 ≡ at }
    {
        let reached = after_parts(self.bytes, at, self.reached);
        self.asked = at;
        self.reached = reached;
        presumed_after(self.bytes, at, reached)
    }
}

/// What is presumed of the place at byte `at`, of a text whose bytes before it are tokens (C99 6.10.4).
pub fn presumed_at(bytes: &[u8], at: u32) -> Presumed
    requires short { length bytes.now ≤ 4194304 }
    requires within { at ≤ length bytes.now }
    requires tokens { AreTokensBefore at bytes.now }
    ensures { IsPresumed (take at bytes.now) result }
{
    let mut lines = PresumedLines::new(bytes);
    lines.presumed_at(at)
}
