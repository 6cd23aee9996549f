//! Tokens as trees keep them.

ghost use Rattle.std.specs.Prelude.{◌≡◌, ◌≤◌, length, IfOk, IsOk};

use lay_base::{NoMemory, short_copy};
use smallvec::SmallVec;
use std::alloc::Global;
use std::marker::Model;

/// The byte of the file at which a keyword or a punctuator stands. Its kind is that of the node
/// that keeps it, so its text and its end are known.
pub type At = u32;

/// The bytes of a token. Names of up to sixteen bytes, which most are, take no memory of their own.
#[derive(Drop)]
pub struct Text {
    bytes: SmallVec<u8, 16>,
}

impl Model for Text {
    ghost use Rattle.std.specs.Prelude.{ℕ, List as Sequence};

    ghost Value = { Sequence ℕ };

    ghost view = { λ text. text.bytes.items };
}

impl Text {
    /// A copy of these bytes.
    pub fn copy_of(alloc: Global, bytes: &[u8]) -> Result<Text, NoMemory>
        ensures ok { IfOk result (λ text. text ≡ bytes.now) }
        ensures short { length bytes.now ≤ 16 → IsOk result }
    {
        let bytes = short_copy(alloc, bytes)?;
        Ok(Text { bytes })
    }

    /// The bytes, lent.
    pub fn as_slice(&self) -> &[u8]
        ensures { result.now ≡ self.now }
    {
        self.bytes.as_slice()
    }
}

/// A name, or a literal: the bytes from `from` up to `to` of the file, and what they are.
#[derive(Drop)]
pub struct Spelling {
    pub from: u32,
    pub to: u32,
    pub text: Text,
}
