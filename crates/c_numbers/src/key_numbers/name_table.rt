//! `NameTable`: names, each once, in the order in which they came.

ghost use Rattle.std.specs.Prelude.{◌≡◌, [], IfOk, OnErr, OnOk, get_or};
ghost use Rattle.c_numbers.specs.KeyNumbers.Keys.{position, with_key};

use indexmap::IndexSet;
use lay_base::{Name, NoMemory, copied, put_key};
use std::alloc::Global;
use std::marker::Model;

/// Names, each once, in the order in which they came, of which one is found in constant time.
#[derive(Drop)]
pub struct NameTable {
    names: IndexSet<Vec<u8>>,
}

impl Model for NameTable {
    ghost use Rattle.std.specs.Prelude.{ℕ, List, map};

    ghost Value = { List (List ℕ) };

    ghost view = { λ it. map (λ name. name.items) it.names.keys };
}

impl NameTable {
    /// No names yet.
    pub fn new(alloc: Global) -> NameTable
        ensures { result ≡ [] }
    {
        NameTable {
            names: IndexSet::new(alloc),
        }
    }

    /// The number of a name, which is that of all names where it is not among them.
    pub fn number(&self, name: &[u8]) -> usize
        ensures { result ≡ position self.now name.now }
    {
        self.names.get_index_of(name).unwrap_or(self.names.len())
    }

    /// Adds a copy of a name after the others, where it is not among them.
    pub fn add(&mut self, alloc: Global, name: &Name) -> Result<(), NoMemory>
        ensures added { OnOk result (self.new ≡ with_key self.old name.now) }
        ensures unchanged { OnErr result (self.new ≡ self.old) }
    {
        let copy = copied(alloc, name.as_slice())?;
        put_key(&mut self.names, copy)?;
        Ok(())
    }

    /// A copy of the name with a number, which is empty past the last.
    pub fn name(&self, alloc: Global, number: usize) -> Result<Name, NoMemory>
        ensures { IfOk result (λ name. name ≡ get_or self.now number []) }
    {
        match self.names.get_index(number) {
            Some(name) => Ok(Name::of(copied(alloc, name)?)),
            None => Ok(Name::of(Vec::new(alloc))),
        }
    }
}
