//! The cells of all blocks, behind one another.

ghost use Rattle.std.specs.Prelude.{◌≡◌, ◌<◌, ◌≤◌, ◌+◌, ◌*◌, ◌^◌, ◌%◌, false, [], ◌∷◌, ◌++◌, length, map, replicate, MatchResult};
ghost use Rattle.c_types.specs.IntKinds.{width};
ghost use Rattle.block_memory.specs.Cells.{IsShifted, cell_at, over, range};
ghost use Rattle.block_memory.specs.Digits.{number_at, pointer_at};
ghost use Rattle.block_memory.specs.Held.{bytes_of, fragments_of};
ghost use Rattle.block_memory.specs.Ranges.{first_difference};
ghost use Rattle.memory_words.specs.CellWords.Words.{cell_of, cells_of, is_tabled, whole};
ghost use Rattle.memory_words.specs.declared.cell_words.cell.Cell.TheVariants.{Byte, Empty};

use crate::comparing::{compared, is_zero};
use crate::holding::pointer_of;
use crate::numbers::{in_four, in_one, in_two, valued};
use c_types::{IntKind, width};
use lay_base::{NoMemory, UndefinedKind};
use memory_words::{Cell, Content, Four, Ptr, Word, Words, cell_of, content_word, four_pointer};
use std::alloc::Global;
use std::marker::Model;

/// All cells. They lie in words of four.
#[derive(Drop)]
pub(crate) struct Arena {
    words: Words,
}

impl Model for Arena {
    ghost use Rattle.std.specs.Prelude.{List};
    ghost use Rattle.memory_words.specs.declared.cell_words.cell.Cell.{Cell};
    ghost use Rattle.block_memory.specs.Cells.{flat};

    ghost Value = { List Cell };

    ghost view = { λ arena. flat arena.words };
}

impl Arena {
    /// No cell.
    pub(crate) fn new(alloc: Global) -> Arena
        ensures { result ≡ [] }
    {
        Arena {
            words: Words::new(alloc),
        }
    }

    /// How many words there are.
    #[tactic(auto, using(crate::proofs::Flat::length_flat))]
    pub(crate) fn words(&self) -> usize
        ensures { 4 * result ≡ length self.now }
    {
        self.words.len()
    }

    /// So many words more, of cells that hold nothing.
    #[tactic(auto, using(crate::proofs::Flat::grown, crate::proofs::Flat::length_flat))]
    pub(crate) fn grow(&mut self, count: usize) -> Result<(), NoMemory>
        requires { length self.old + 4 * count < 2 ^ 34 }
        ensures { MatchResult result (λ _. self.new ≡ self.old ++ replicate (4 * count) Empty) (λ refused. self.new ≡ self.old) }
    {
        self.words.grow(count)
    }

    /// The cell at an offset.
    #[tactic(auto, using(crate::proofs::Flat::read, crate::proofs::Flat::within))]
    pub(crate) fn cell(&self, at: usize) -> Cell
        requires { at < length self.now }
        ensures { result ≡ cell_at self.now at }
    {
        self.words.cell(at / 4, (at % 4) as u32)
    }

    /// Puts a cell at an offset.
    #[tactic(auto, using(crate::proofs::Flat::put, crate::proofs::Flat::within))]
    pub(crate) fn put(&mut self, at: usize, cell: Cell)
        requires { at < length self.old }
        ensures { self.new ≡ over self.old at (cell ∷ []) }
    {
        self.words.put_cell(at / 4, (at % 4) as u32, cell);
    }

    /// Puts a word that stands in no table at a multiple of four.
    #[tactic(auto, using(crate::proofs::Flat::four_put, crate::proofs::Flat::within))]
    fn put_word(&mut self, at: usize, word: Word)
        requires within { at + 4 ≤ length self.old }
        requires aligned { at % 4 ≡ 0 }
        requires plain { is_tabled word ≡ false }
        ensures { self.new ≡ over self.old at (cells_of (whole word)) }
    {
        self.words.put_whole(at / 4, word);
    }

    /// The number of a type from an offset on, cell by cell.
    fn number_by_cells(&self, at: usize, kind: IntKind) -> Result<u32, UndefinedKind>
        requires within { at + width kind ≤ length self.now }
        requires small { at < 2 ^ 34 }
        ensures { result ≡ number_at self.now at kind }
    {
        let width = width(kind);
        if width == 1 {
            return valued(kind, in_one(self.cell(at)));
        }
        if width == 2 {
            return valued(kind, in_two(self.cell(at), self.cell(at + 1)));
        }
        let a = self.cell(at);
        let b = self.cell(at + 1);
        let c = self.cell(at + 2);
        let d = self.cell(at + 3);
        valued(kind, in_four(a, b, c, d))
    }

    /// The number of a type from an offset on.
    pub(crate) fn number(&self, at: usize, kind: IntKind) -> Result<u32, UndefinedKind>
        requires within { at + width kind ≤ length self.now }
        requires small { at < 2 ^ 34 }
        ensures { result ≡ number_at self.now at kind }
    {
        if width(kind) == 4 && at % 4 == 0 {
            match self.words.number(at / 4) {
                Some(v) => Ok(v),
                None => self.number_by_cells(at, kind),
            }
        } else {
            self.number_by_cells(at, kind)
        }
    }

    /// The pointer of a type from an offset on, cell by cell.
    #[tactic(auto, using(crate::proofs::CellsHold::pointer_of_four))]
    fn pointer_by_cells(&self, at: usize, type_number: usize) -> Result<Ptr, UndefinedKind>
        requires within { at + 4 ≤ length self.now }
        requires small { at < 2 ^ 34 }
        ensures { result ≡ pointer_at self.now at type_number }
    {
        let a = self.cell(at);
        let b = self.cell(at + 1);
        let c = self.cell(at + 2);
        let d = self.cell(at + 3);
        pointer_of(a, b, c, d, type_number)
    }

    /// The pointer of a type from an offset on.
    pub(crate) fn pointer(&self, at: usize, type_number: usize) -> Result<Ptr, UndefinedKind>
        requires within { at + 4 ≤ length self.now }
        requires small { at < 2 ^ 34 }
        ensures { result ≡ pointer_at self.now at type_number }
    {
        if at % 4 == 0 {
            match self.words.pointer(at / 4, type_number) {
                Some(p) => Ok(p),
                None => self.pointer_by_cells(at, type_number),
            }
        } else {
            self.pointer_by_cells(at, type_number)
        }
    }

    /// Puts cells from an offset on.
    fn put_cells(&mut self, at: usize, cells: &[Cell])
        requires within { at + length cells.now ≤ length self.old }
        requires small { at < 2 ^ 34 }
        ensures { self.new ≡ over self.old at cells.now }
    {
        for i in 0..cells.len() {
            self.put(at + i, cells[i]);
        }
    }

    /// Puts the bytes of a number from an offset on, the least first.
    pub(crate) fn put_number(&mut self, at: usize, kind: IntKind, v: u32)
        requires within { at + width kind ≤ length self.old }
        requires small { at < 2 ^ 34 }
        ensures { self.new ≡ over self.old at (bytes_of (width kind) v) }
    {
        let width = width(kind);
        if width == 4 && at % 4 == 0 {
            self.put_word(at, Word::Number(v));
            return;
        }
        let a = Cell::Byte((v % 256) as u8);
        let b = Cell::Byte((v / 256 % 256) as u8);
        if width == 1 {
            self.put(at, a);
        } else if width == 2 {
            self.put_cells(at, [a, b].as_slice());
        } else {
            let c = Cell::Byte((v / 256 / 256 % 256) as u8);
            let d = Cell::Byte((v / 256 / 256 / 256 % 256) as u8);
            self.put_cells(at, [a, b, c, d].as_slice());
        }
    }

    /// Puts the fragments of a pointer from an offset on.
    #[tactic(auto, using(crate::proofs::Flat::four_put, crate::proofs::Flat::within))]
    pub(crate) fn put_pointer(&mut self, at: usize, type_number: usize, p: Ptr)
        requires within { at + 4 ≤ length self.old }
        requires small { at < 2 ^ 34 }
        ensures { self.new ≡ over self.old at (fragments_of type_number p) }
    {
        if at % 4 == 0 {
            self.words.put_pointer(at / 4, type_number, p);
        } else {
            let Four { a, b, c, d } = four_pointer(type_number, p);
            self.put_cells(at, [a, b, c, d].as_slice());
        }
    }

    /// Puts one cell into so many places from an offset on.
    fn put_each(&mut self, at: usize, cell: Cell, count: u32)
        requires within { at + count ≤ length self.old }
        requires small { at < 2 ^ 35 }
        ensures is { self.new ≡ over self.old at (replicate count cell) }
        ensures long { length self.new ≡ length self.old }
    {
        for i in 0..count as usize {
            self.put(at + i, cell);
        }
    }

    /// Puts so many words of one content from a multiple of four on.
    fn put_words(&mut self, at: usize, content: Content, count: u32)
        requires within { at + 4 * count ≤ length self.old }
        requires small { at < 2 ^ 35 }
        requires aligned { at % 4 ≡ 0 }
        ensures is { self.new ≡ over self.old at (replicate (4 * count) (cell_of content)) }
        ensures long { length self.new ≡ length self.old }
    {
        let word = content_word(content, content, content, content);
        for i in 0..count as usize {
            self.put_word(at + 4 * i, word);
        }
    }

    /// Puts one content into so many cells from an offset on: word by word, where whole words lie there.
    pub(crate) fn fill(&mut self, at: usize, content: Content, count: u32)
        requires within { at + count ≤ length self.old }
        requires small { at < 2 ^ 34 }
        ensures { self.new ≡ over self.old at (replicate count (cell_of content)) }
    {
        let cell = cell_of(content);
        let front = ((4 - at % 4) % 4) as u32;
        if count <= front {
            self.put_each(at, cell, count);
        } else {
            let many = (count - front) / 4;
            let start = at + front as usize;
            let rest = count - front - 4 * many;
            self.put_each(at, cell, front);
            self.put_words(start, content, many);
            self.put_each(start + 4 * many as usize, cell, rest);
        }
    }

    /// Puts bytes into cells from an offset on.
    pub(crate) fn put_bytes(&mut self, at: usize, bytes: &[u8])
        requires within { at + length bytes.now ≤ length self.old }
        requires small { at < 2 ^ 34 }
        ensures { self.new ≡ over self.old at (map Byte bytes.now) }
    {
        for i in 0..bytes.len() {
            self.put(at + i, Cell::Byte(bytes[i]));
        }
    }

    /// Copies cells one by one, from the first one on, to before where they are.
    fn copy_cells_down(&mut self, to: usize, from: usize, count: u32)
        requires to { to + count ≤ length self.old }
        requires from { from + count ≤ length self.old }
        requires small { from < 2 ^ 35 }
        requires down { to ≤ from }
        ensures { self.new ≡ over self.old to (range self.old from count) }
    {
        for i in 0..count as usize {
            let cell = self.cell(from + i);
            self.put(to + i, cell);
        }
    }

    /// Copies cells one by one, from the last one back, to behind where they are.
    fn copy_cells_up(&mut self, to: usize, from: usize, count: u32)
        requires to { to + count ≤ length self.old }
        requires from { from + count ≤ length self.old }
        requires small { to < 2 ^ 35 }
        requires up { from ≤ to }
        ensures { self.new ≡ over self.old to (range self.old from count) }
    {
        let mut i = count as usize;
        while i > 0 {
            i -= 1;
            let cell = self.cell(from + i);
            self.put(to + i, cell);
        }
    }

    /// Copies so many words, from the first one on, to before where they are.
    fn copy_words_down(&mut self, to: usize, from: usize, count: u32)
        requires to { 4 * (to + count) ≤ length self.old }
        requires from { 4 * (from + count) ≤ length self.old }
        requires small { from < 2 ^ 33 }
        requires down { to ≤ from }
        ensures { self.new ≡ over self.old (4 * to) (range self.old (4 * from) (4 * count)) }
    {
        for i in 0..count as usize {
            self.words.copy(to + i, from + i);
        }
    }

    /// Copies so many words, from the last one back, to behind where they are.
    fn copy_words_up(&mut self, to: usize, from: usize, count: u32)
        requires to { 4 * (to + count) ≤ length self.old }
        requires from { 4 * (from + count) ≤ length self.old }
        requires small { to < 2 ^ 33 }
        requires up { from ≤ to }
        ensures { self.new ≡ over self.old (4 * to) (range self.old (4 * from) (4 * count)) }
    {
        let mut i = count as usize;
        while i > 0 {
            i -= 1;
            self.words.copy(to + i, from + i);
        }
    }

    /// Copies cells to before where they are: word by word, where both are at multiples of four.
    fn copy_down(&mut self, to: usize, from: usize, count: u32)
        requires to { to + count ≤ length self.old }
        requires from { from + count ≤ length self.old }
        requires small { from < 2 ^ 34 }
        requires down { to ≤ from }
        ensures { self.new ≡ over self.old to (range self.old from count) }
    {
        if to % 4 == 0 && from % 4 == 0 {
            let front = count / 4 * 4;
            self.copy_words_down(to / 4, from / 4, count / 4);
            self.copy_cells_down(to + front as usize, from + front as usize, count - front);
        } else {
            self.copy_cells_down(to, from, count);
        }
    }

    /// Copies cells to behind where they are: word by word, where both are at multiples of four.
    fn copy_up(&mut self, to: usize, from: usize, count: u32)
        requires to { to + count ≤ length self.old }
        requires from { from + count ≤ length self.old }
        requires small { to < 2 ^ 34 }
        requires up { from ≤ to }
        ensures { self.new ≡ over self.old to (range self.old from count) }
    {
        if to % 4 == 0 && from % 4 == 0 {
            let front = count / 4 * 4;
            self.copy_cells_up(to + front as usize, from + front as usize, count - front);
            self.copy_words_up(to / 4, from / 4, count / 4);
        } else {
            self.copy_cells_up(to, from, count);
        }
    }

    /// Copies cells as they are.
    pub(crate) fn copy(&mut self, to: usize, from: usize, count: u32)
        requires to { to + count ≤ length self.old }
        requires from { from + count ≤ length self.old }
        requires small_to { to < 2 ^ 34 }
        requires small_from { from < 2 ^ 34 }
        ensures { self.new ≡ over self.old to (range self.old from count) }
    {
        if to <= from {
            self.copy_down(to, from, count);
        } else {
            self.copy_up(to, from, count);
        }
    }

    /// Moves so many words down.
    pub(crate) fn shift(&mut self, from: usize, to: usize, count: usize)
        requires within { 4 * (from + count) ≤ length self.old }
        requires down { to < from }
        requires small { from + count < 2 ^ 32 }
        ensures { IsShifted self.old self.new from to count }
    {
        for i in 0..count {
            self.words.shift(from + i, to + i);
        }
    }

    /// Compares so many cells as bytes.
    #[tactic(auto, using(crate::proofs::Differences::compared_more, crate::proofs::Differences::compared_here, crate::proofs::Differences::compared_all))]
    pub(crate) fn compare(&self, at: usize, other: usize, count: u32) -> Result<i32, UndefinedKind>
        requires within { at + count ≤ length self.now }
        requires other_within { other + count ≤ length self.now }
        requires small { at < 2 ^ 34 }
        requires other_small { other < 2 ^ 34 }
        ensures { result ≡ first_difference (range self.now at count) (range self.now other count) }
    {
        for i in 0..count as usize {
            let a = self.cell(at + i);
            let b = self.cell(other + i);
            let difference = compared(a, b);
            if !is_zero(difference) {
                return difference;
            }
        }
        Ok(0)
    }
}
