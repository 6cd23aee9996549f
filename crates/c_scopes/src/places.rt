//! `Places`: where a name stands in a list of declarations.

ghost use Rattle.std.specs.Prelude.{◌≡◌, ℕ, List, Some, None, if◌then◌else◌, OnErr, OnOk};
ghost use Rattle.std.specs.Str.{bytes_eq};
ghost use Rattle.c_erasure.specs.Scopes.{or_else};
ghost use Rattle.c_scopes.specs.SyntaxTags.Keys.{found_at};
ghost use Rattle.c_scopes.specs.Places.{declared_at, defined_at};

use indexmap::IndexMap;
use lay_base::{NoMemory, copied, put};
use std::alloc::Global;

/// The places of the first declaration of a name, and of its first definition if it has one.
#[derive(Clone, Copy)]
pub struct Places {
    pub declared: usize,
    pub defined: Option<usize>,
}

/// Where a name is declared first.
pub fn declared_at(places: &IndexMap<Vec<u8>, Places>, x: &[u8]) -> Option<usize>
    ensures { result ≡ declared_at places.now.entries x.now }
{
    match places.get(x) {
        Some(known) => Some(known.declared),
        None => None,
    }
}

/// Where a name is defined first.
pub fn defined_at(places: &IndexMap<Vec<u8>, Places>, x: &[u8]) -> Option<usize>
    ensures { result ≡ defined_at places.now.entries x.now }
{
    match places.get(x) {
        Some(known) => known.defined,
        None => None,
    }
}

/// Notes a declaration of a name at a place after all others. It is one that defines the name where that place is given twice.
pub fn note(
    places: &mut IndexMap<Vec<u8>, Places>,
    alloc: Global,
    name: &[u8],
    place: usize,
    definition: Option<usize>,
) -> Result<(), NoMemory>
    ensures declared { OnOk result ((x : List ℕ) →
        declared_at places.new.entries x ≡ or_else (declared_at places.old.entries x) (if bytes_eq name.now x then Some place else None)) }
    ensures defined { OnOk result ((x : List ℕ) →
        defined_at places.new.entries x ≡ or_else (defined_at places.old.entries x) (if bytes_eq name.now x then definition else None)) }
    ensures unchanged { OnErr result (places.new.entries ≡ places.old.entries) }
{
    let known = Places {
        declared: declared_at(places, name).unwrap_or(place),
        defined: defined_at(places, name).or(definition),
    };
    let key = copied(alloc, name)?;
    put(places, key, known)?;
    Ok(())
}
