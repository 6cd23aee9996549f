//! `PagedList`: a list whose items lie in pages of equal size.

ghost use Rattle.std.specs.Prelude.{◌≡◌, ◌<◌, ◌≤◌, ◌+◌, ◌*◌, ◌^◌, ◌++◌, [], ◌∷◌, length, replicate, slice_index_or, slice_set, MatchOption, MatchResult, IsOk};
ghost use Rattle.std.specs.Prelude.{OnOk};
ghost use Rattle.memory_words.specs.ListPages.Pages.{page_size};

use lay_base::{NoMemory, reserve, with_capacity};
use std::alloc::Global;
use std::marker::Model;

/// How many items a page has. As a power of two it lets a place be found by a shift and a mask.
const PAGE: usize = 32_768;

/// A list that grows page by page, so that no item is ever moved.
#[derive(Drop)]
pub struct PagedList<T> {
    // Each has room for PAGE items. Those in front are full, and those behind the last item are empty.
    pages: Vec<Vec<T>>,
    len: usize,
}

impl<T> Model for PagedList<T> {
    ghost use Rattle.std.specs.Prelude.{◌*◌, ◌≤◌, ◌^◌, length};
    ghost use Rattle.memory_words.specs.ListPages.Pages.{Paged, paged_code, page_size, items_in, IsPaged};

    ghost Value = { Paged T };

    ghost coded = { paged_code T.code };

    ghost view = { λ list. record { items = items_in list.pages.items; room = page_size * length list.pages.items } };

    ghost invariant = { λ list. (length list.pages.items ≤ 2 ^ 29) × IsPaged list.len list.pages.items };
}

impl<T: Copy> PagedList<T> {
    /// No items. It takes no memory.
    pub fn new(alloc: Global) -> PagedList<T>
        ensures items { result.items ≡ [] }
        ensures room { result.room ≡ 0 }
    {
        PagedList {
            pages: Vec::new(alloc),
            len: 0,
        }
    }

    /// How many items there are.
    #[inline(always)]
    pub fn len(&self) -> usize
        ensures is { result ≡ length self.now.items }
        ensures within { result ≤ self.now.room }
        ensures small { self.now.room ≤ 2 ^ 44 }
    {
        self.len
    }

    /// The item at an index.
    #[inline(always)]
    pub fn get(&self, i: usize) -> T
        requires { i < length self.now.items }
        ensures { (d : T) → result ≡ slice_index_or self.now.items i d }
    {
        self.pages[i / PAGE][i % PAGE]
    }

    /// Puts an item in place of another one.
    #[inline(always)]
    pub fn set(&mut self, i: usize, value: T)
        requires { i < length self.old.items }
        ensures items { self.new.items ≡ slice_set self.old.items i value }
        ensures room { self.new.room ≡ self.old.room }
    {
        self.pages[i / PAGE][i % PAGE] = value;
    }

    /// How many pages there are.
    fn page_count(&self) -> usize
        ensures { self.now.room ≡ page_size * result }
    {
        self.pages.len()
    }

    /// One page more.
    fn add_page(&mut self) -> Result<(), NoMemory>
        requires { self.old.room < 2 ^ 44 }
        ensures items { self.new.items ≡ self.old.items }
        ensures room { MatchResult result (λ _. self.new.room ≡ self.old.room + page_size) (λ _. self.new.room ≡ self.old.room) }
    {
        reserve(&mut self.pages, 1)?;
        let page = with_capacity(*self.pages.allocator(), PAGE)?;
        self.pages.push_reserved(page);
        Ok(())
    }

    /// Takes the memory for so many items more. Where it is refused, some of the pages may have been added.
    pub fn reserve(&mut self, more: usize) -> Result<(), NoMemory>
        requires { length self.old.items + more ≤ 2 ^ 44 }
        ensures items { self.new.items ≡ self.old.items }
        ensures kept { self.old.room ≤ self.new.room }
        ensures room { OnOk result (length self.new.items + more ≤ self.new.room) }
        ensures succeeds { length self.old.items + more ≤ self.old.room → IsOk result }
    {
        let pages = (self.len() + more).div_ceil(PAGE);
        while self.page_count() < pages {
            self.add_page()?;
        }
        Ok(())
    }

    /// Adds an item behind the last one, where room was reserved. It takes no memory.
    pub fn push_reserved(&mut self, value: T)
        requires { length self.old.items < self.old.room }
        ensures items { self.new.items ≡ self.old.items ++ value ∷ [] }
        ensures room { self.new.room ≡ self.old.room }
    {
        self.pages[self.len / PAGE].push_reserved(value);
        self.len += 1;
    }

    /// Takes the last item off. Its page is kept.
    pub fn pop(&mut self) -> Option<T>
        ensures { MatchOption result ((self.old.items ≡ []) × (self.new ≡ self.old)) (λ last. (self.old.items ≡ self.new.items ++ last ∷ []) × (self.new.room ≡ self.old.room)) }
    {
        if self.len == 0 {
            return None;
        }
        self.len -= 1;
        self.pages[self.len / PAGE].pop()
    }

    /// Adds so many copies of an item behind the last one.
    pub fn add(&mut self, count: usize, value: T) -> Result<(), NoMemory>
        requires { length self.old.items + count ≤ 2 ^ 44 }
        ensures items { MatchResult result (λ _. self.new.items ≡ self.old.items ++ replicate count value) (λ _. self.new.items ≡ self.old.items) }
        ensures room { self.old.room ≤ self.new.room }
        ensures succeeds { length self.old.items + count ≤ self.old.room → IsOk result }
    {
        self.reserve(count)?;
        for _ in 0..count {
            self.push_reserved(value);
        }
        Ok(())
    }
}
