//! `NumberSet`: numbers, each once, in the order in which they came.

ghost use Rattle.std.specs.Prelude.{◌≡◌, ◌==◌, [], OnErr, OnOk};
ghost use Rattle.std.specs.List.{list_any};
ghost use Rattle.c_numbers.specs.KeyNumbers.Numbers.{with_number};

use indexmap::IndexSet;
use lay_base::{NoMemory, put_key};
use std::alloc::Global;
use std::marker::Model;

/// Numbers, each once, in the order in which they came, of which one is found in constant time.
#[derive(Drop)]
pub struct NumberSet {
    numbers: IndexSet<usize>,
}

impl Model for NumberSet {
    ghost use Rattle.std.specs.Prelude.{ℕ, List};

    ghost Value = { List ℕ };

    ghost view = { λ it. it.numbers.keys };
}

impl NumberSet {
    /// No numbers yet.
    pub fn new(alloc: Global) -> NumberSet
        ensures { result ≡ [] }
    {
        NumberSet {
            numbers: IndexSet::new(alloc),
        }
    }

    /// Whether a number is there.
    #[tactic(auto, using(crate::proofs::KeyNumbers::Numbers::either_way))]
    pub fn contains(&self, number: usize) -> bool
        ensures { result ≡ list_any (λ n. n == number) self.now }
    {
        self.numbers.contains(&number)
    }

    /// Adds a number after the others, where it is not among them.
    #[tactic(auto, using(crate::proofs::KeyNumbers::Numbers::added_is))]
    pub fn add(&mut self, number: usize) -> Result<(), NoMemory>
        ensures added { OnOk result (self.new ≡ with_number self.old number) }
        ensures unchanged { OnErr result (self.new ≡ self.old) }
    {
        put_key(&mut self.numbers, number)
    }
}
