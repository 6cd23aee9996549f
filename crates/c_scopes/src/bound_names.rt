//! `BoundNames`: what names stand for, in the order of their declarations.

ghost use Rattle.std.specs.Prelude.{◌≡◌, ◌<◌, ◌++◌, ◌∷◌, [], Some, None, if◌then◌else◌, OnErr, OnOk, length, map, slice_get, vec_capacity, vec_len};
ghost use Rattle.std.specs.Option.{option_copied, option_map};
ghost use Rattle.c_erasure.specs.Scopes.{visible};
ghost use Rattle.c_erasure.specs.Checking.Declaring.{declared_among};
ghost use Rattle.c_erasure.specs.Checking.Files.{defined_among};
ghost use Rattle.c_annotated.specs.FileViews.{bound_of, entity_of};
ghost use Rattle.c_scopes.specs.Places.{HasPlaces, is_defining};

use crate::places::{Places, declared_at, defined_at, note};
use c_annotated::{Bound, Entity, How};
use indexmap::IndexMap;
use lay_base::{NoMemory, reserve};
use std::alloc::Global;
use std::marker::Model;

/// Names with what they stand for, in the order of their declarations. The first of a name, and the first that defines it, are found in
/// constant time.
#[derive(Drop)]
pub struct BoundNames {
    // The list that contracts speak of. The table has each name once.
    bounds: Vec<Bound>,
    places: IndexMap<Vec<u8>, Places>,
}

impl Model for BoundNames {
    ghost use Rattle.std.specs.Prelude.{List};
    ghost use Rattle.c_annotated.specs.declared.names.Bound.{Bound};
    ghost use Rattle.std.specs.Coded.{codes};
    ghost use Rattle.c_annotated.specs.contracts.names.Bound as bound;
    ghost use Rattle.c_scopes.specs.Places.{HasPlaces};

    ghost Value = { List Bound };

    ghost coded = { Prim.hlevel (codes, bound.the_row.coded) };

    ghost view = { λ it. it.bounds.items };

    ghost invariant = { λ it. HasPlaces it.places.entries it.bounds.items };
}

/// Up to so many names are searched in their order, which takes less time than a look-up in their table.
const FEW: usize = 8;

/// The first declaration of a name among some.
fn first_among<'a>(bounds: &'a [Bound], x: &[u8]) -> Option<&'a Bound>
    ensures { option_map bound_of (option_copied result) ≡ declared_among (map bound_of bounds.now) x.now }
{
    for b in bounds {
        if b.name.as_slice() == x {
            return Some(b);
        }
    }
    None
}

/// The first name among some whose scope began by a byte.
fn visible_among<'a>(bounds: &'a [Bound], x: &[u8], at: u32) -> Option<&'a Entity>
    ensures { option_map entity_of (option_copied result) ≡ visible (map bound_of bounds.now) x.now at }
{
    for (number, b) in bounds.iter().enumerate() {
        if b.name.as_slice() == x && b.from <= at {
            return Some(&b.entity);
        }
    }
    None
}

fn bound_at(bounds: &[Bound], place: usize) -> Option<&Bound>
    ensures { option_copied result ≡ slice_get bounds.now place }
{
    bounds.get(place)
}

/// The place of a declaration, if it defines its name.
fn definition_at(how: How, place: usize) -> Option<usize>
    ensures { result ≡ if is_defining how then Some place else None }
{
    if how == How::Defines {
        Some(place)
    } else {
        None
    }
}

/// Makes room for a declaration after the others, and notes its place in the table. The declaration is lent, so that its owner makes
/// one call that may fail.
fn make_room(
    bounds: &mut Vec<Bound>,
    places: &mut IndexMap<Vec<u8>, Places>,
    alloc: Global,
    b: &Bound,
) -> Result<(), NoMemory>
    ensures noted { OnOk result (HasPlaces places.old.entries bounds.old.items → HasPlaces places.new.entries (bounds.old.items ++ b.now ∷ [])) }
    ensures same { bounds.new.items ≡ bounds.old.items }
    ensures room { OnOk result (vec_len bounds.new < vec_capacity bounds.new) }
    ensures unchanged { OnErr result (places.new.entries ≡ places.old.entries) }
{
    let place = bounds.len();
    reserve(bounds, 1)?;
    let definition = definition_at(b.how, place);
    note(places, alloc, b.name.as_slice(), place, definition)?;
    Ok(())
}

impl BoundNames {
    /// No names yet.
    pub fn new(alloc: Global) -> BoundNames
        ensures { result ≡ [] }
    {
        BoundNames {
            bounds: Vec::new(alloc),
            places: IndexMap::new(alloc),
        }
    }

    /// How many names there are.
    pub fn len(&self) -> usize
        ensures { result ≡ length self.now }
    {
        self.bounds.len()
    }

    /// All names, in the order of their declarations.
    pub fn as_slice(&self) -> &[Bound]
        ensures { result.now ≡ self.now }
    {
        self.bounds.as_slice()
    }

    /// The first declaration of a name.
    #[tactic(auto, using(crate::proofs::FirstBounds::declared_there, crate::proofs::FirstBounds::declared_nowhere))]
    pub fn first(&self, x: &[u8]) -> Option<&Bound>
        ensures { option_map bound_of (option_copied result) ≡ declared_among (map bound_of self.now) x.now }
    {
        if self.bounds.len() <= FEW {
            return first_among(&self.bounds, x);
        }
        match declared_at(&self.places, x) {
            Some(place) => bound_at(&self.bounds, place),
            None => None,
        }
    }

    /// The first declaration that defines a name.
    #[tactic(auto, using(crate::proofs::FirstBounds::defined_there, crate::proofs::FirstBounds::defined_nowhere))]
    pub fn first_definition(&self, x: &[u8]) -> Option<&Bound>
        ensures { option_map bound_of (option_copied result) ≡ defined_among (map bound_of self.now) x.now }
    {
        match defined_at(&self.places, x) {
            Some(place) => bound_at(&self.bounds, place),
            None => None,
        }
    }

    /// What a name stands for whose scope began by a byte.
    #[tactic(auto, using(crate::proofs::FirstBounds::seen, crate::proofs::FirstBounds::unseen))]
    pub fn visible(&self, x: &[u8], at: u32) -> Option<&Entity>
        ensures { option_map entity_of (option_copied result) ≡ visible (map bound_of self.now) x.now at }
    {
        match self.first(x) {
            Some(b) => {
                if b.from <= at {
                    Some(&b.entity)
                } else {
                    // Scopes begin in the order of their names, so this is not reached for the tree of a file.
                    visible_among(&self.bounds, x, at)
                }
            }
            None => None,
        }
    }

    /// Adds a name after the others, which may have it already.
    pub fn add(&mut self, alloc: Global, b: Bound) -> Result<(), NoMemory>
        ensures added { OnOk result (self.new ≡ self.old ++ b ∷ []) }
        ensures unchanged { OnErr result (self.new ≡ self.old) }
    {
        make_room(&mut self.bounds, &mut self.places, alloc, &b)?;
        self.bounds.push_reserved(b);
        Ok(())
    }
}
