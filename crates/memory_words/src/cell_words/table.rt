//! Dense tables of what does not fit a word.

ghost use Rattle.std.specs.Prelude.{◌≡◌, ◌<◌, ◌≤◌, ◌+◌, ◌-◌, ◌^◌, ◌++◌, [], ◌∷◌, ℕ, length, slice_index_or, OnOk};
ghost use Rattle.std.specs.List.{swap_remove};
ghost use Rattle.memory_words.specs.CellWords.Tables.{HasRoom};

use crate::list_pages::PagedList;
use lay_base::NoMemory;
use std::alloc::Global;

/// Values, each with the number of the word that owns its place.
#[derive(Drop)]
pub(crate) struct Table<T> {
    pub(crate) values: PagedList<T>,
    pub(crate) owners: PagedList<u32>,
}

impl<T: Copy> Table<T> {
    pub(crate) fn new(alloc: Global) -> Table<T>
        ensures values { result.values.items ≡ [] }
        ensures owners { result.owners.items ≡ [] }
        ensures room { HasRoom 0 result }
    {
        Table {
            values: PagedList::new(alloc),
            owners: PagedList::new(alloc),
        }
    }

    /// Makes room for so many places in all.
    pub(crate) fn reserve(&mut self, many: usize) -> Result<(), NoMemory>
        requires within { length self.old.owners.items ≤ many }
        requires small { many < 2 ^ 32 }
        requires even { length self.old.values.items ≡ length self.old.owners.items }
        ensures values { self.new.values.items ≡ self.old.values.items }
        ensures owners { self.new.owners.items ≡ self.old.owners.items }
        ensures keeps { (n : ℕ) → HasRoom n self.old → HasRoom n self.new }
        ensures room { OnOk result (HasRoom many self.new) }
    {
        let more = many - self.owners.len();
        self.values.reserve(more)?;
        self.owners.reserve(more)
    }

    /// A new place, behind the others.
    pub(crate) fn push(&mut self, value: T, owner: u32) -> usize
        requires { HasRoom (length self.old.owners.items + 1) self.old }
        ensures place { result ≡ length self.old.owners.items }
        ensures values { self.new.values.items ≡ self.old.values.items ++ value ∷ [] }
        ensures owners { self.new.owners.items ≡ self.old.owners.items ++ owner ∷ [] }
        ensures keeps { (n : ℕ) → HasRoom n self.old → HasRoom n self.new }
    {
        let place = self.owners.len();
        self.values.push_reserved(value);
        self.owners.push_reserved(owner);
        place
    }

    /// Takes a place away: the last one moves into it. The owner of the one that moved.
    pub(crate) fn remove(&mut self, place: usize) -> u32
        requires known { place < length self.old.owners.items }
        requires even { length self.old.values.items ≡ length self.old.owners.items }
        ensures owner { result ≡ slice_index_or self.old.owners.items (length self.old.owners.items - 1) 0 }
        ensures values { (d : T) → self.new.values.items ≡ swap_remove self.old.values.items place d }
        ensures owners { self.new.owners.items ≡ swap_remove self.old.owners.items place 0 }
        ensures keeps { (n : ℕ) → HasRoom n self.old → HasRoom n self.new }
    {
        let last = self.owners.len() - 1;
        let value = self.values.get(last);
        let owner = self.owners.get(last);
        self.values.set(place, value);
        self.owners.set(place, owner);
        let _ = self.values.pop();
        let _ = self.owners.pop();
        owner
    }
}
