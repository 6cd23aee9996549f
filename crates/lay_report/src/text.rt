//! A text as it grows.

ghost use Rattle.std.specs.Prelude.{◌≡◌, [], map};
ghost use Rattle.std.specs.List.{concat};
ghost use Rattle.lay_report.specs.Texts.{line};
ghost use Rattle.lay_report.specs.Writes.{Writes};

use lay_base::{NoMemory, append};
use std::alloc::Global;

/// A text, and the want of memory as it grew.
#[derive(Drop)]
pub struct Text {
    pub bytes: Vec<u8>,
    pub want: Option<NoMemory>,
}

impl Text {
    pub fn new(alloc: Global) -> Text
        ensures { result.bytes.items ≡ [] }
    {
        Text {
            bytes: Vec::new(alloc),
            want: None,
        }
    }
}

pub fn put(text: &mut Text, piece: &[u8])
    ensures { Writes text.old text.new piece.now }
{
    if text.want.is_some() {
        return;
    }
    if let Err(want) = append(&mut text.bytes, piece) {
        text.want = Some(want);
    }
}

pub fn put_all(text: &mut Text, pieces: &[&[u8]])
    ensures { Writes text.old text.new (concat (map (λ piece. piece.now) pieces.now)) }
{
    for &piece in pieces {
        put(text, piece);
    }
}

/// Adds the pieces of a line.
pub fn put_line(text: &mut Text, pieces: &[&[u8]])
    ensures { Writes text.old text.new (line (map (λ piece. piece.now) pieces.now)) }
{
    put_all(text, pieces);
    put(text, b"\n");
}
