//! Words that stand in no table, for cells, and cells of words.

ghost use Rattle.std.specs.Prelude.{◌≡◌, ◌≢◌, ◌<◌, ◌≤◌, ℕ, false, MatchOption};
ghost use Rattle.memory_words.specs.declared.cell_words.cell.Cell.TheVariants.{Byte};
ghost use Rattle.memory_words.specs.declared.cell_words.word.Word.TheVariants as W;
ghost use Rattle.memory_words.specs.CellWords.Words.{ContentGives, NumberIn, PutGives, WordGives, byte_of, cell_by, cell_in, cell_of, four_bytes, four_pointer};
ghost use Rattle.memory_words.specs.CellWords.Words.{gap_of, is_tabled, whole, with_cell_in};

use crate::cell_words::cell::Cell;
use crate::cell_words::fragments::are_fragments;
use crate::cell_words::pointer::Ptr;
use crate::cell_words::word::{Content, Four, Word};

/// The cell of a content.
pub fn cell_of(content: Content) -> Cell
    ensures { result ≡ cell_of content }
{
    match content {
        Content::Empty => Cell::Empty,
        Content::Byte(x) => Cell::Byte(x),
    }
}

fn content_of(cell: Cell) -> Option<Content>
    ensures { ContentGives cell result }
{
    match cell {
        Cell::Empty => Some(Content::Empty),
        Cell::Byte(x) => Some(Content::Byte(x)),
        Cell::Fragment(_, _, _) => None,
    }
}

/// The fragments of a pointer.
pub fn four_pointer(type_number: usize, p: Ptr) -> Four
    ensures { result ≡ four_pointer type_number p }
{
    Four {
        a: Cell::Fragment(type_number, p, 0),
        b: Cell::Fragment(type_number, p, 1),
        c: Cell::Fragment(type_number, p, 2),
        d: Cell::Fragment(type_number, p, 3),
    }
}

/// One byte of a number.
#[inline(always)]
pub(crate) fn byte_in(v: u32, k: u32) -> Cell
    requires { k < 4 }
    ensures { result ≡ cell_in (whole (W.Number v)) k }
{
    match k {
        0 => Cell::Byte((v % 256) as u8),
        1 => Cell::Byte((v / 256 % 256) as u8),
        2 => Cell::Byte((v / 256 / 256 % 256) as u8),
        _ => Cell::Byte((v / 256 / 256 / 256 % 256) as u8),
    }
}

/// What a cell holds, in a word that says which of them hold nothing.
#[inline(always)]
fn content_by(gap: u8, x: u8) -> Content
    ensures { cell_of result ≡ cell_by gap x }
{
    match gap {
        0 => Content::Byte(x),
        _ => Content::Empty,
    }
}

/// The cells of a word that stands in no table.
pub(crate) fn whole(word: Word) -> Four
    requires { is_tabled word ≡ false }
    ensures { result ≡ whole word }
{
    match word {
        Word::Number(v) => Four {
            a: byte_in(v, 0),
            b: byte_in(v, 1),
            c: byte_in(v, 2),
            d: byte_in(v, 3),
        },
        Word::Bytes(gaps, a, b, c, d) => Four {
            a: cell_of(content_by(gaps % 2, a)),
            b: cell_of(content_by(gaps / 2 % 2, b)),
            c: cell_of(content_by(gaps / 4 % 2, c)),
            d: cell_of(content_by(gaps / 8 % 2, d)),
        },
        Word::Null(t) => four_pointer(t as usize, Ptr::Null),
        Word::Pointer(_) => unreachable!(),
        Word::Group(_) => unreachable!(),
    }
}

/// The number of four bytes.
fn number_of(a: u8, b: u8, c: u8, d: u8) -> u32
    ensures { four_bytes result ≡ record { a = Byte a; b = Byte b; c = Byte c; d = Byte d } }
{
    u32::from(a) + 256 * (u32::from(b) + 256 * (u32::from(c) + 256 * u32::from(d)))
}

/// The byte that a cell holds, if it holds one.
fn byte_in_cell(cell: Cell) -> Option<u8>
    ensures { MatchOption result ((x : ℕ) → cell ≢ Byte x) (λ x. cell ≡ Byte x) }
{
    match cell {
        Cell::Empty => None,
        Cell::Byte(x) => Some(x),
        Cell::Fragment(_, _, _) => None,
    }
}

/// The number that four cells hold as their bytes, if there is one.
pub(crate) fn number_in(four: Four) -> Option<u32>
    ensures { NumberIn four result }
{
    let a = byte_in_cell(four.a)?;
    let b = byte_in_cell(four.b)?;
    let c = byte_in_cell(four.c)?;
    let d = byte_in_cell(four.d)?;
    Some(number_of(a, b, c, d))
}

/// A word of four bytes.
fn number_word(a: u8, b: u8, c: u8, d: u8) -> Word
    ensures plain { is_tabled result ≡ false }
    ensures is { whole result ≡ record { a = Byte a; b = Byte b; c = Byte c; d = Byte d } }
{
    Word::Number(number_of(a, b, c, d))
}

fn gap_of(content: Content) -> u8
    ensures is { result ≡ gap_of content }
    ensures small { result ≤ 1 }
{
    match content {
        Content::Empty => 1,
        Content::Byte(_) => 0,
    }
}

fn byte_of(content: Content) -> u8
    ensures { result ≡ byte_of content }
{
    match content {
        Content::Empty => 0,
        Content::Byte(x) => x,
    }
}

/// A word of cells that hold no part of a pointer.
#[tactic(auto, using(crate::proofs::CellWords::Contents::whole_gaps))]
pub fn content_word(a: Content, b: Content, c: Content, d: Content) -> Word
    ensures plain { is_tabled result ≡ false }
    ensures is { whole result ≡ record { a = cell_of a; b = cell_of b; c = cell_of c; d = cell_of d } }
{
    match (a, b, c, d) {
        (Content::Byte(x), Content::Byte(y), Content::Byte(z), Content::Byte(w)) => {
            number_word(x, y, z, w)
        }
        _ => {
            let gaps = gap_of(a) + 2 * gap_of(b) + 4 * gap_of(c) + 8 * gap_of(d);
            Word::Bytes(gaps, byte_of(a), byte_of(b), byte_of(c), byte_of(d))
        }
    }
}

/// A word for cells that hold no part of a pointer.
pub(crate) fn plain_word(four: Four) -> Option<Word>
    ensures { WordGives four result }
{
    let a = content_of(four.a)?;
    let b = content_of(four.b)?;
    let c = content_of(four.c)?;
    let d = content_of(four.d)?;
    Some(content_word(a, b, c, d))
}

/// The type and the pointer of which four cells are the fragments.
#[tactic(auto, using(crate::proofs::CellWords::Contents::fragments_are))]
pub(crate) fn fragments_in(four: Four) -> Option<(usize, Ptr)>
    ensures { MatchOption result (Unit {0}) (λ found. four_pointer found.0 found.1 ≡ four) }
{
    match four.a {
        Cell::Empty => None,
        Cell::Byte(_) => None,
        Cell::Fragment(t, p, _) => {
            if are_fragments(four, t, p) {
                Some((t, p))
            } else {
                None
            }
        }
    }
}

/// One of four cells.
pub(crate) fn cell_in(four: Four, k: u32) -> Cell
    requires { k < 4 }
    ensures { result ≡ cell_in four k }
{
    match k {
        0 => four.a,
        1 => four.b,
        2 => four.c,
        _ => four.d,
    }
}

/// Four cells with another one in place of one.
pub(crate) fn with_cell_in(four: Four, k: u32, cell: Cell) -> Four
    requires { k < 4 }
    ensures { result ≡ with_cell_in four k cell }
{
    let Four { a, b, c, d } = four;
    match k {
        0 => Four { a: cell, b, c, d },
        1 => Four { a, b: cell, c, d },
        2 => Four { a, b, c: cell, d },
        _ => Four { a, b, c, d: cell },
    }
}

/// One cell of a word that stands in no table.
#[inline(always)]
pub(crate) fn cell_in_whole(word: Word, k: u32) -> Cell
    requires known { k < 4 }
    requires plain { is_tabled word ≡ false }
    ensures { result ≡ cell_in (whole word) k }
{
    match word {
        Word::Number(v) => byte_in(v, k),
        Word::Bytes(gaps, a, b, c, d) => match k {
            0 => cell_of(content_by(gaps % 2, a)),
            1 => cell_of(content_by(gaps / 2 % 2, b)),
            2 => cell_of(content_by(gaps / 4 % 2, c)),
            _ => cell_of(content_by(gaps / 8 % 2, d)),
        },
        _ => cell_in(whole(word), k),
    }
}

/// Four bytes with another one in place of one.
fn number_with(v: u32, k: u32, x: u8) -> Word
    requires { k < 4 }
    ensures plain { is_tabled result ≡ false }
    ensures is { whole result ≡ with_cell_in (whole (W.Number v)) k (Byte x) }
{
    let a = (v % 256) as u8;
    let b = (v / 256 % 256) as u8;
    let c = (v / 256 / 256 % 256) as u8;
    let d = (v / 256 / 256 / 256 % 256) as u8;
    match k {
        0 => number_word(x, b, c, d),
        1 => number_word(a, x, c, d),
        2 => number_word(a, b, x, d),
        _ => number_word(a, b, c, x),
    }
}

/// A word of cells that hold no part of a pointer, with another one in place of one.
fn content_with(a: Content, b: Content, c: Content, d: Content, k: u32, content: Content) -> Word
    requires { k < 4 }
    ensures plain { is_tabled result ≡ false }
    ensures is { whole result ≡ with_cell_in (record { a = cell_of a; b = cell_of b; c = cell_of c; d = cell_of d }) k (cell_of content) }
{
    match k {
        0 => content_word(content, b, c, d),
        1 => content_word(a, content, c, d),
        2 => content_word(a, b, content, d),
        _ => content_word(a, b, c, content),
    }
}

/// A word with another cell in place of one, where neither holds a part of a pointer.
pub(crate) fn with_cell(word: Word, k: u32, cell: Cell) -> Option<Word>
    requires { k < 4 }
    ensures { PutGives word k cell result }
{
    match word {
        Word::Number(v) => match cell {
            Cell::Byte(x) => Some(number_with(v, k, x)),
            _ => None,
        },
        Word::Bytes(gaps, a, b, c, d) => {
            let content = content_of(cell)?;
            let a = content_by(gaps % 2, a);
            let b = content_by(gaps / 2 % 2, b);
            let c = content_by(gaps / 4 % 2, c);
            let d = content_by(gaps / 8 % 2, d);
            Some(content_with(a, b, c, d, k, content))
        }
        _ => None,
    }
}
