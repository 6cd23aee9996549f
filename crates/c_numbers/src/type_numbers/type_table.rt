//! `TypeTable`: types, each once, in the order in which they came.

ghost use Rattle.std.specs.Prelude.{◌≡◌, [], IfOk, IfSome, OnErr, OnOk, map};
ghost use Rattle.c_erasure.specs.Units.{number_in};
ghost use Rattle.c_numbers.specs.TypeNumbers.Adding.{with_type};
ghost use Rattle.c_types.specs.Views.{type_of};

use crate::key_numbers::KeyTable;
use crate::type_numbers::type_keys::{hint, type_key};
use c_types::{Ty, copy, same};
use lay_base::{List, NoMemory, reserve};
use std::alloc::Global;
use std::marker::Model;

/// How many hints there are.
const HINTS: usize = 4096;

/// Types, each once, in the order in which they came, of which one is found in constant time.
#[derive(Drop)]
pub struct TypeTable {
    keys: KeyTable,
    types: Vec<Ty>,
    // Where a type may be, by its hint. One that is not there is looked up by its key, which takes memory.
    hints: [usize; HINTS],
}

impl Model for TypeTable {
    ghost use Rattle.std.specs.Prelude.{◌≡◌, List, map};
    ghost use Rattle.c_types.specs.declared.ty.Ty.{Ty};
    ghost use Rattle.c_types.specs.Views.{type_of};
    ghost use Rattle.std.specs.Coded.{codes};
    ghost use Rattle.c_types.specs.contracts.ty.Ty as ty;
    ghost use Rattle.c_numbers.specs.TypeNumbers.Adding.{AreOnce};
    ghost use Rattle.c_numbers.specs.TypeNumbers.TypeKeys.{type_key};

    ghost Value = { List Ty };

    ghost coded = { Prim.hlevel (codes, ty.the_row.coded) };

    ghost view = { λ it. it.types.items };

    ghost invariant = { λ it. record { keys : it.keys ≡ map type_key (map type_of it.types.items); once : AreOnce (map type_of it.types.items) } };
}

/// Notes the number of a type with that hint, where none before it has the hint.
fn note(hints: &mut [usize; HINTS], hint: u64, number: usize) {
    let at = hint as usize % HINTS;
    if hints[at] == usize::MAX {
        hints[at] = number;
    }
}

impl TypeTable {
    /// No types yet.
    pub fn new(alloc: Global) -> TypeTable
        ensures { result ≡ [] }
    {
        TypeTable {
            keys: KeyTable::new(alloc),
            types: Vec::new(alloc),
            hints: [usize::MAX; HINTS],
        }
    }

    /// The number of a type, where it is at its hint.
    fn hinted(&self, t: &Ty) -> Option<usize>
        ensures is { IfSome result (λ n. n ≡ number_in (map type_of self.now) (type_of t.now)) }
        ensures there { IfSome result (λ _. map type_of self.now ≡ with_type (map type_of self.now) (type_of t.now)) }
    {
        let n = self.hints[hint(t) as usize % HINTS];
        match self.types.get(n) {
            Some(found) if same(found, t) => Some(n),
            _ => None,
        }
    }

    /// The number of a type, which is that of all types where it is not among them.
    pub fn number(&self, alloc: Global, t: &Ty) -> Result<usize, NoMemory>
        ensures { IfOk result (λ n. n ≡ number_in (map type_of self.now) (type_of t.now)) }
    {
        if let Some(n) = self.hinted(t) {
            return Ok(n);
        }
        let key = type_key(alloc, t)?;
        Ok(self.keys.number(&key))
    }

    /// Adds a type after the others, where it is not among them.
    pub fn add(&mut self, alloc: Global, t: Ty) -> Result<(), NoMemory>
        ensures added { OnOk result (map type_of self.new ≡ with_type (map type_of self.old) (type_of t)) }
        ensures unchanged { OnErr result (self.new ≡ self.old) }
    {
        let key = type_key(alloc, &t)?;
        let n = self.keys.len();
        if self.keys.number(&key) < n {
            return Ok(());
        }
        reserve(&mut self.types, 1)?;
        self.keys.add(key)?;
        note(&mut self.hints, hint(&t), n);
        self.types.push_reserved(t);
        Ok(())
    }

    /// Adds a copy of a type after the others, where it is not among them.
    pub fn add_copy(&mut self, alloc: Global, t: &Ty) -> Result<(), NoMemory>
        ensures added { OnOk result (map type_of self.new ≡ with_type (map type_of self.old) (type_of t.now)) }
        ensures unchanged { OnErr result (self.new ≡ self.old) }
    {
        if let Some(_) = self.hinted(t) {
            return Ok(());
        }
        let t = copy(alloc, t)?;
        self.add(alloc, t)
    }

    /// The types, in order.
    pub fn into_list(self) -> List<Ty>
        ensures { result ≡ self }
    {
        let TypeTable { types, .. } = self;
        List::of(types)
    }
}
