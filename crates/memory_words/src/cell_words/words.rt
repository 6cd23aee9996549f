//! Groups of four cells.

ghost use Rattle.std.specs.Prelude.{◌≡◌, ◌<◌, ◌+◌, ◌++◌, ◌^◌, [], false, length, replicate, slice_set, MatchResult};
ghost use Rattle.memory_words.specs.CellWords.Words.{NumberIn, PointerIn, cell_in, four_at, four_pointer, is_tabled, nothing, whole, with_cell_in};

use crate::cell_words::cell::Cell;
use crate::cell_words::fragments::pointer_in_four;
use crate::cell_words::packed::{EMPTY, Packed, is_tabled};
use crate::cell_words::plain::{
    cell_in, cell_in_whole, four_pointer, fragments_in, number_in, plain_word, with_cell,
    with_cell_in,
};
use crate::cell_words::pointer::Ptr;
use crate::cell_words::tabled::{pointer_in, pointer_of};
use crate::cell_words::word::{Four, Word};
use lay_base::NoMemory;
use std::alloc::Global;
use std::marker::Model;

/// Groups of four cells, which contracts see as a list of them.
#[derive(Drop)]
pub struct Words {
    packed: Packed,
}

impl Model for Words {
    ghost use Rattle.std.specs.Prelude.{List};
    ghost use Rattle.memory_words.specs.declared.cell_words.word.Four.{Four};
    ghost use Rattle.memory_words.specs.CellWords.Tables.{IsPacked, fours_in};

    ghost Value = { List Four };

    ghost view = { λ words. fours_in words.packed };

    ghost invariant = { λ words. IsPacked words.packed };
}

impl Words {
    /// No group.
    pub fn new(alloc: Global) -> Words
        ensures { result ≡ [] }
    {
        Words {
            packed: Packed::new(alloc),
        }
    }

    /// How many groups there are.
    #[inline(always)]
    pub fn len(&self) -> usize
        ensures { result ≡ length self.now }
    {
        self.packed.words.len()
    }

    /// So many groups more that hold nothing.
    pub fn grow(&mut self, count: usize) -> Result<(), NoMemory>
        requires { length self.old + count < 2 ^ 32 }
        ensures { MatchResult result (λ _. self.new ≡ self.old ++ replicate count nothing) (λ refused. self.new ≡ self.old) }
    {
        let many = self.packed.words.len() + count;
        self.packed.reserve(many)?;
        self.packed.words.add(count, EMPTY)
    }

    /// One cell.
    #[inline(always)]
    pub fn cell(&self, i: usize, k: u32) -> Cell
        requires known { i < length self.now }
        requires small { k < 4 }
        ensures { result ≡ cell_in (four_at self.now i) k }
    {
        let word = self.packed.words.get(i);
        if is_tabled(word) {
            cell_in(self.packed.four(i), k)
        } else {
            cell_in_whole(word, k)
        }
    }

    /// The number that a group holds as its four bytes, if it holds one.
    #[inline(always)]
    pub fn number(&self, i: usize) -> Option<u32>
        requires { i < length self.now }
        ensures { NumberIn (four_at self.now i) result }
    {
        match self.packed.words.get(i) {
            Word::Number(v) => Some(v),
            _ => number_in(self.packed.four(i)),
        }
    }

    /// The whole pointer of a type that a group holds, if it holds one.
    #[inline(always)]
    pub fn pointer(&self, i: usize, type_number: usize) -> Option<Ptr>
        requires { i < length self.now }
        ensures { PointerIn type_number (four_at self.now i) result }
    {
        match self.packed.words.get(i) {
            Word::Null(t) if t as usize == type_number => Some(Ptr::Null),
            Word::Pointer(e) => {
                pointer_in(self.packed.pointers.values.get(e as usize), type_number)
            }
            Word::Number(_) => None,
            _ => pointer_in_four(self.packed.four(i), type_number),
        }
    }

    /// Puts the cells of a word that stands in no table.
    #[inline(always)]
    pub fn put_whole(&mut self, i: usize, word: Word)
        requires known { i < length self.old }
        requires plain { is_tabled word ≡ false }
        ensures { self.new ≡ slice_set self.old i (whole word) }
    {
        if is_tabled(self.packed.words.get(i)) {
            self.packed.replace(i, word);
        } else {
            self.packed.words.set(i, word);
        }
    }

    /// Puts a whole pointer.
    pub fn put_pointer(&mut self, i: usize, type_number: usize, p: Ptr)
        requires { i < length self.old }
        ensures { self.new ≡ slice_set self.old i (four_pointer type_number p) }
    {
        match p {
            Ptr::Null if type_number < 4_294_967_296 => {
                self.put_whole(i, Word::Null(type_number as u32));
            }
            _ => match pointer_of(type_number, p) {
                Some(pointer) => self.packed.put_pointer(i, pointer),
                None => self.packed.put_group(i, four_pointer(type_number, p)),
            },
        }
    }

    /// Puts four cells.
    pub fn put_four(&mut self, i: usize, four: Four)
        requires { i < length self.old }
        ensures { self.new ≡ slice_set self.old i four }
    {
        match plain_word(four) {
            Some(word) => self.put_whole(i, word),
            None => match fragments_in(four) {
                Some((type_number, p)) => self.put_pointer(i, type_number, p),
                None => self.packed.put_group(i, four),
            },
        }
    }

    /// Puts one cell.
    pub fn put_cell(&mut self, i: usize, k: u32, cell: Cell)
        requires known { i < length self.old }
        requires small { k < 4 }
        ensures { self.new ≡ slice_set self.old i (with_cell_in (four_at self.old i) k cell) }
    {
        match with_cell(self.packed.words.get(i), k, cell) {
            Some(word) => self.put_whole(i, word),
            None => {
                let four = with_cell_in(self.packed.four(i), k, cell);
                self.put_four(i, four);
            }
        }
    }

    /// Puts the cells of one group in place of those of another.
    pub fn copy(&mut self, to: usize, from: usize)
        requires to { to < length self.old }
        requires from { from < length self.old }
        ensures { self.new ≡ slice_set self.old to (four_at self.old from) }
    {
        match self.packed.words.get(from) {
            Word::Pointer(e) => {
                let pointer = self.packed.pointers.values.get(e as usize);
                self.packed.put_pointer(to, pointer);
            }
            Word::Group(_) => {
                let four = self.packed.four(from);
                self.packed.put_group(to, four);
            }
            word => self.put_whole(to, word),
        }
    }

    /// Moves a group in place of another one before it, and leaves nothing.
    pub fn shift(&mut self, from: usize, to: usize)
        requires known { from < length self.old }
        requires before { to < from }
        ensures { self.new ≡ slice_set (slice_set self.old to (four_at self.old from)) from nothing }
    {
        self.packed.release(to);
        self.packed.carry(from, to);
    }
}
