//! Words with the tables of what does not fit them.
//!
//! The tables have room for as many places as there are words, so that no store takes memory.

ghost use Rattle.std.specs.Prelude.{◌≡◌, ◌<◌, ◌≤◌, ◌^◌, [], false, length, OnOk};
ghost use Rattle.memory_words.specs.CellWords.Tables.{HasRoom, IsCarried, IsPacked, IsPut, IsReleased, fours_in};
ghost use Rattle.memory_words.specs.CellWords.Words.{four_at, four_of_pointer, is_tabled, whole, word_at};
ghost use Rattle.memory_words.specs.declared.cell_words.word.Word.TheVariants as W;

use crate::cell_words::plain::whole;
use crate::cell_words::table::Table;
use crate::cell_words::tabled::{four_of_group, four_of_pointer, group_of};
use crate::cell_words::word::{Four, Group, Pointer, Word};
use crate::list_pages::PagedList;
use lay_base::NoMemory;
use std::alloc::Global;

pub(crate) const EMPTY: Word = Word::Bytes(15, 0, 0, 0, 0);

/// Words, and the tables of those that are pointers and of those that are any four cells.
#[derive(Drop)]
pub(crate) struct Packed {
    pub(crate) words: PagedList<Word>,
    pub(crate) pointers: Table<Pointer>,
    pub(crate) groups: Table<Group>,
}

#[inline(always)]
pub(crate) fn is_tabled(word: Word) -> bool
    ensures { result ≡ is_tabled word }
{
    match word {
        Word::Number(_) => false,
        Word::Bytes(_, _, _, _, _) => false,
        Word::Null(_) => false,
        Word::Pointer(_) => true,
        Word::Group(_) => true,
    }
}

impl Packed {
    /// No word.
    pub(crate) fn new(alloc: Global) -> Packed
        ensures packed { IsPacked result }
        ensures none { result.words.items ≡ [] }
    {
        Packed {
            words: PagedList::new(alloc),
            pointers: Table::new(alloc),
            groups: Table::new(alloc),
        }
    }

    /// Makes room in the tables for so many words.
    pub(crate) fn reserve(&mut self, many: usize) -> Result<(), NoMemory>
        requires packed { IsPacked self.old }
        requires within { length self.old.words.items ≤ many }
        requires small { many < 2 ^ 32 }
        ensures packed { IsPacked self.new }
        ensures words { self.new.words.items ≡ self.old.words.items }
        ensures pointers { self.new.pointers.values.items ≡ self.old.pointers.values.items }
        ensures groups { self.new.groups.values.items ≡ self.old.groups.values.items }
        ensures room { OnOk result (HasRoom many self.new.pointers × HasRoom many self.new.groups) }
    {
        self.pointers.reserve(many)?;
        self.groups.reserve(many)
    }

    /// The cells of a word.
    pub(crate) fn four(&self, i: usize) -> Four
        requires known { i < length self.now.words.items }
        requires packed { IsPacked self.now }
        ensures { result ≡ four_at (fours_in self.now) i }
    {
        match self.words.get(i) {
            Word::Pointer(e) => four_of_pointer(self.pointers.values.get(e as usize)),
            Word::Group(e) => four_of_group(self.groups.values.get(e as usize)),
            word => whole(word),
        }
    }

    /// Takes its place in the table of pointers from a word, which then holds nothing.
    fn give_up_pointer(&mut self, i: usize, e: u32)
        requires known { i < length self.old.words.items }
        requires packed { IsPacked self.old }
        requires tabled { word_at self.old.words.items i ≡ W.Pointer e }
        ensures { IsReleased i self.old self.new }
    {
        let owner = self.pointers.remove(e as usize);
        self.words.set(owner as usize, Word::Pointer(e));
        self.words.set(i, EMPTY);
    }

    /// Takes its place in the table of groups from a word, which then holds nothing.
    fn give_up_group(&mut self, i: usize, e: u32)
        requires known { i < length self.old.words.items }
        requires packed { IsPacked self.old }
        requires tabled { word_at self.old.words.items i ≡ W.Group e }
        ensures { IsReleased i self.old self.new }
    {
        let owner = self.groups.remove(e as usize);
        self.words.set(owner as usize, Word::Group(e));
        self.words.set(i, EMPTY);
    }

    /// Takes its place from a word that stands in a table.
    pub(crate) fn release(&mut self, i: usize)
        requires known { i < length self.old.words.items }
        requires packed { IsPacked self.old }
        ensures { IsReleased i self.old self.new }
    {
        match self.words.get(i) {
            Word::Pointer(e) => self.give_up_pointer(i, e),
            Word::Group(e) => self.give_up_group(i, e),
            _ => {}
        }
    }

    /// Puts a word that stands in no table in place of one that does.
    pub(crate) fn replace(&mut self, i: usize, word: Word)
        requires known { i < length self.old.words.items }
        requires packed { IsPacked self.old }
        requires plain { is_tabled word ≡ false }
        ensures { IsPut i (whole word) self.old self.new }
    {
        self.release(i);
        self.words.set(i, word);
    }

    /// Gives a word a place in the table of pointers.
    fn push_pointer(&mut self, i: usize, pointer: Pointer)
        requires known { i < length self.old.words.items }
        requires packed { IsPacked self.old }
        ensures { IsPut i (four_of_pointer pointer) self.old self.new }
    {
        self.release(i);
        let e = self.pointers.push(pointer, i as u32);
        self.words.set(i, Word::Pointer(e as u32));
    }

    /// Puts a pointer that fits the table of pointers in place of a word.
    pub(crate) fn put_pointer(&mut self, i: usize, pointer: Pointer)
        requires known { i < length self.old.words.items }
        requires packed { IsPacked self.old }
        ensures { IsPut i (four_of_pointer pointer) self.old self.new }
    {
        match self.words.get(i) {
            Word::Pointer(e) => self.pointers.values.set(e as usize, pointer),
            _ => self.push_pointer(i, pointer),
        }
    }

    /// Gives a word a place in the table of groups.
    fn push_group(&mut self, i: usize, four: Four)
        requires known { i < length self.old.words.items }
        requires packed { IsPacked self.old }
        ensures { IsPut i four self.old self.new }
    {
        self.release(i);
        let e = self.groups.push(group_of(four), i as u32);
        self.words.set(i, Word::Group(e as u32));
    }

    /// Puts any four cells in place of a word.
    pub(crate) fn put_group(&mut self, i: usize, four: Four)
        requires known { i < length self.old.words.items }
        requires packed { IsPacked self.old }
        ensures { IsPut i four self.old self.new }
    {
        match self.words.get(i) {
            Word::Group(e) => self.groups.values.set(e as usize, group_of(four)),
            _ => self.push_group(i, four),
        }
    }

    /// Moves a word to one that stands in no table, and leaves nothing.
    pub(crate) fn carry(&mut self, from: usize, to: usize)
        requires known { from < length self.old.words.items }
        requires before { to < from }
        requires packed { IsPacked self.old }
        requires plain { is_tabled (word_at self.old.words.items to) ≡ false }
        ensures { IsCarried from to self.old self.new }
    {
        let word = self.words.get(from);
        match word {
            Word::Pointer(e) => self.pointers.owners.set(e as usize, to as u32),
            Word::Group(e) => self.groups.owners.set(e as usize, to as u32),
            _ => {}
        }
        self.words.set(to, word);
        self.words.set(from, EMPTY);
    }
}
