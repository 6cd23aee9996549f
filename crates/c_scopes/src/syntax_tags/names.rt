//! Names by their first places.

ghost use Rattle.std.specs.Prelude.{◌≡◌, ℕ, List, ◌++◌, ◌∷◌, [], Some, None, if◌then◌else◌, OnErr, OnOk, length};
ghost use Rattle.std.specs.Str.{bytes_eq};
ghost use Rattle.c_erasure.specs.Scopes.{or_else};
ghost use Rattle.c_scopes.specs.SyntaxTags.Names.{number_in, with_new};
ghost use Rattle.c_scopes.specs.SyntaxTags.Keys.{found_at};

use indexmap::IndexMap;
use lay_base::{Name, NoMemory, copied, put, reserve};
use std::alloc::Global;
use std::marker::Model;

/// A list of names, in which the first place of one is found in constant time.
#[derive(Drop)]
pub struct Names {
    // The list that contracts speak of. The table has each name once.
    names: Vec<Name>,
    places: IndexMap<Vec<u8>, usize>,
}

impl Model for Names {
    ghost use Rattle.std.specs.Prelude.{◌≡◌, ℕ, List};
    ghost use Rattle.c_scopes.specs.SyntaxTags.Names.{number_in};
    ghost use Rattle.c_scopes.specs.SyntaxTags.Keys.{found_at};

    ghost Value = { List (List ℕ) };

    ghost view = { λ it. it.names.items };

    ghost invariant = { λ it. (x : List ℕ) → found_at it.places.entries x ≡ number_in it.names.items x };
}

/// Notes the place of a name that has none yet.
fn note(
    places: &mut IndexMap<Vec<u8>, usize>,
    alloc: Global,
    name: &[u8],
    place: usize,
) -> Result<(), NoMemory>
    ensures noted { OnOk result ((x : List ℕ) →
        found_at places.new.entries x ≡ or_else (found_at places.old.entries x) (if bytes_eq x name.now then Some place else None)) }
    ensures unchanged { OnErr result (places.new.entries ≡ places.old.entries) }
{
    let None = places.get(name) else {
        return Ok(());
    };
    let key = copied(alloc, name)?;
    put(places, key, place)?;
    Ok(())
}

impl Names {
    /// No names yet.
    pub fn new(alloc: Global) -> Names
        ensures { result ≡ [] }
    {
        Names {
            names: Vec::new(alloc),
            places: IndexMap::new(alloc),
        }
    }

    /// How many names there are.
    pub fn len(&self) -> usize
        ensures { result ≡ length self.now }
    {
        self.names.len()
    }

    /// The names, in order, with no memory taken.
    pub fn into_vec(self) -> Vec<Name>
        ensures { result.items ≡ self }
    {
        let Names { names, .. } = self;
        names
    }

    /// The first place of a name.
    pub fn number_of(&self, name: &[u8]) -> Option<usize>
        ensures { result ≡ number_in self.now name.now }
    {
        self.places.get(name).copied()
    }

    /// Adds a name after the others, which may have it already.
    pub fn add(&mut self, alloc: Global, name: &[u8]) -> Result<(), NoMemory>
        ensures added { OnOk result (self.new ≡ self.old ++ name.now ∷ []) }
        ensures unchanged { OnErr result (self.new ≡ self.old) }
    {
        let copy = copied(alloc, name)?;
        let place = self.names.len();
        reserve(&mut self.names, 1)?;
        note(&mut self.places, alloc, name, place)?;
        self.names.push_reserved(Name::of(copy));
        Ok(())
    }

    /// Adds a name that is not among them.
    pub fn add_new(&mut self, alloc: Global, name: &[u8]) -> Result<(), NoMemory>
        ensures added { OnOk result (self.new ≡ with_new self.old name.now) }
        ensures unchanged { OnErr result (self.new ≡ self.old) }
    {
        match self.number_of(name) {
            Some(_) => Ok(()),
            None => self.add(alloc, name),
        }
    }
}
