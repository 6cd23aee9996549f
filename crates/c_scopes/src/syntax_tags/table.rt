//! Tags, each where it stands first.

ghost use Rattle.std.specs.Prelude.{◌≡◌, [], OnErr, OnOk, length};
ghost use Rattle.c_erasure.specs.Scopes.{tag_at};
ghost use Rattle.c_scopes.specs.SyntaxTags.Keys.{found_at};
ghost use Rattle.c_scopes.specs.SyntaxTags.Tables.{place_of_tag, tag_of, with_first};

use indexmap::IndexMap;
use lay_base::{NoMemory, copied, put};
use std::alloc::Global;
use std::marker::Model;

/// A tag, the byte at which it stands, and the one from which on it is known.
#[derive(Clone, Copy)]
pub struct TagMark<'a> {
    pub name: &'a [u8],
    pub place: u32,
    pub from: u32,
    pub is_enumeration: bool,
}

/// Where a tag stands first, from which byte on it is known, and what it is a tag of.
#[derive(Clone, Copy)]
pub struct Known {
    pub place: u32,
    pub from: u32,
    pub is_enumeration: bool,
}

/// The tags of a file in the order of their first places.
#[derive(Drop)]
pub struct TagTable {
    known: IndexMap<Vec<u8>, Known>,
}

impl Model for TagTable {
    ghost use Rattle.std.specs.Prelude.{◌≡◌, ℕ, List};
    ghost use Rattle.c_erasure.specs.Scopes.{Tag};
    ghost use Rattle.c_scopes.specs.SyntaxTags.Tables.{tags_of_entries, AreApart};

    ghost Value = { List Tag };

    ghost view = { λ it. tags_of_entries it.known.entries };

    ghost invariant = { λ it. AreApart it.known.entries };
}

/// What is known of the tag with that name.
fn known_of(known: &IndexMap<Vec<u8>, Known>, name: &[u8]) -> Option<Known>
    ensures { result ≡ found_at known.now.entries name.now }
{
    known.get(name).copied()
}

impl TagTable {
    /// No tags yet.
    pub fn new(alloc: Global) -> TagTable
        ensures { result ≡ [] }
    {
        TagTable {
            known: IndexMap::new(alloc),
        }
    }

    /// How many tags there are.
    pub fn len(&self) -> usize
        ensures { result ≡ length self.now }
    {
        self.known.len()
    }

    /// Whether a tag that was declared before a byte is one of an enumeration.
    pub fn tag_at(&self, name: &[u8], at: u32) -> Option<bool>
        ensures { result ≡ tag_at self.now name.now at }
    {
        match known_of(&self.known, name) {
            Some(known) => {
                if known.from < at {
                    Some(known.is_enumeration)
                } else {
                    None
                }
            }
            None => None,
        }
    }

    /// Where a tag stands first.
    pub fn place_of(&self, name: &[u8]) -> Option<u32>
        ensures { result ≡ place_of_tag self.now name.now }
    {
        match known_of(&self.known, name) {
            Some(known) => Some(known.place),
            None => None,
        }
    }

    /// Adds a tag that does not stand before.
    pub fn add(&mut self, alloc: Global, tag: &TagMark) -> Result<(), NoMemory>
        ensures added { OnOk result (self.new ≡ with_first self.old (tag_of tag.now)) }
        ensures unchanged { OnErr result (self.new ≡ self.old) }
    {
        let None = known_of(&self.known, tag.name) else {
            return Ok(());
        };
        let key = copied(alloc, tag.name)?;
        let known = Known {
            place: tag.place,
            from: tag.from,
            is_enumeration: tag.is_enumeration,
        };
        put(&mut self.known, key, known)?;
        Ok(())
    }
}
