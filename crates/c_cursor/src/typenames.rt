//! The names that the typedefs of a file have declared so far.

ghost use Rattle.std.specs.Prelude.{◌≡◌, ◌++◌, ◌∷◌, [], OnErr, OnOk};
ghost use Rattle.c_ast.specs.WellFormed.{is_typename};

use indexmap::IndexSet;
use lay_base::{Name, NoMemory, copied, put_key, reserve};
use std::alloc::Global;
use std::marker::Model;

/// Names in the order of their declarations, of which one is found in constant time.
#[derive(Drop)]
pub struct Typenames {
    // The list that contracts speak of. A set forgets what is declared twice.
    names: Vec<Name>,
    table: IndexSet<Vec<u8>>,
}

impl Model for Typenames {
    ghost use Rattle.std.specs.Prelude.{◌≡◌, ℕ, List};
    ghost use Rattle.std.specs.List.{list_any};
    ghost use Rattle.std.specs.Str.{bytes_eq};
    ghost use Rattle.c_ast.specs.WellFormed.{is_typename};

    ghost Value = { List (List ℕ) };

    ghost view = { λ it. it.names.items };

    ghost invariant = { λ it. (x : List ℕ) → list_any (λ key. bytes_eq x key.items) it.table.keys ≡ is_typename it.names.items x };
}

impl Typenames {
    /// No names yet.
    pub fn new(alloc: Global) -> Typenames
        ensures { result ≡ [] }
    {
        Typenames {
            names: Vec::new(alloc),
            table: IndexSet::new(alloc),
        }
    }

    /// Whether a name is among them.
    pub fn contains(&self, name: &[u8]) -> bool
        ensures { result ≡ is_typename self.now name.now }
    {
        self.table.contains(name)
    }

    /// Adds a name after the others, which may have it already.
    pub fn add(&mut self, alloc: Global, name: &[u8]) -> Result<(), NoMemory>
        ensures added { OnOk result (self.new ≡ self.old ++ name.now ∷ []) }
        ensures unchanged { OnErr result (self.new ≡ self.old) }
    {
        let key = copied(alloc, name)?;
        let copy = copied(alloc, name)?;
        reserve(&mut self.names, 1)?;
        put_key(&mut self.table, key)?;
        self.names.push_reserved(Name::of(copy));
        Ok(())
    }
}
