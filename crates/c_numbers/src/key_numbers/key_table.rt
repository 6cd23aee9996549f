//! `KeyTable`: keys, each once, in the order in which they came.

ghost use Rattle.std.specs.Prelude.{◌≡◌, [], length, OnErr, OnOk};
ghost use Rattle.c_numbers.specs.KeyNumbers.Keys.{position, with_key};

use indexmap::IndexSet;
use lay_base::{NoMemory, put_key};
use std::alloc::Global;
use std::marker::Model;

/// Keys, each once, in the order in which they came, of which one is found in constant time.
#[derive(Drop)]
pub struct KeyTable {
    keys: IndexSet<Vec<u64>>,
}

impl Model for KeyTable {
    ghost use Rattle.std.specs.Prelude.{ℕ, List, map};

    ghost Value = { List (List ℕ) };

    ghost view = { λ it. map (λ key. key.items) it.keys.keys };
}

impl KeyTable {
    /// No keys yet.
    pub fn new(alloc: Global) -> KeyTable
        ensures { result ≡ [] }
    {
        KeyTable {
            keys: IndexSet::new(alloc),
        }
    }

    /// How many keys there are.
    pub fn len(&self) -> usize
        ensures { result ≡ length self.now }
    {
        self.keys.len()
    }

    /// The number of a key, which is that of all keys where it is not among them.
    pub fn number(&self, key: &[u64]) -> usize
        ensures { result ≡ position self.now key.now }
    {
        self.keys.get_index_of(key).unwrap_or(self.keys.len())
    }

    /// Adds a key after the others, where it is not among them.
    pub fn add(&mut self, key: Vec<u64>) -> Result<(), NoMemory>
        ensures added { OnOk result (self.new ≡ with_key self.old key.items) }
        ensures unchanged { OnErr result (self.new ≡ self.old) }
    {
        put_key(&mut self.keys, key)?;
        Ok(())
    }
}
