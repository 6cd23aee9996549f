//! The tags of a file.

ghost use Rattle.std.specs.Prelude.{◌≡◌, length};
ghost use Rattle.c_erasure.specs.Files.{AreAscending};
ghost use Rattle.c_erasure.specs.Scopes.{ended, tag_at};
ghost use Rattle.c_scopes.specs.SyntaxTags.Names.{number_in};
ghost use Rattle.c_scopes.specs.SyntaxTags.Tables.{place_of_tag};
ghost use Rattle.c_scopes.specs.SyntaxTags.Untagged.{untagged_by};

use crate::syntax_tags::names::Names;
use crate::syntax_tags::search::ended;
use crate::syntax_tags::table::TagTable;
use crate::syntax_tags::untagged::Untagged;
use lay_base::Name;
use std::marker::Model;

/// What the syntax of a file tells of its tags and structures, with look-ups in constant time, and by a binary search of the ends.
#[derive(Drop)]
pub struct Tags {
    untagged: Untagged,
    tags: TagTable,
    ends: Vec<u32>,
    numbered: Names,
}

impl Model for Tags {
    ghost use Rattle.c_erasure.specs.Files.{AreAscending};
    ghost use Rattle.c_scopes.specs.SyntaxTags.TagLists.{TagLists};

    ghost Value = { TagLists };

    ghost view = { λ it. record { tags = it.tags; ends = it.ends.items; numbered = it.numbered; untagged = it.untagged } };

    ghost invariant = { λ it. AreAscending it.ends.items };
}

impl Tags {
    /// The tags with these parts.
    pub fn of(untagged: Untagged, tags: TagTable, ends: Vec<u32>, numbered: Names) -> Tags
        requires order { AreAscending ends.items }
        ensures { result ≡ record { tags = tags; ends = ends.items; numbered = numbered; untagged = untagged } }
    {
        Tags {
            untagged,
            tags,
            ends,
            numbered,
        }
    }

    /// Whether a tag that was declared before byte `at` is one of an enumeration; `None` where none was (C99 6.2.1, 6.7.2.3).
    pub fn tag_at(&self, name: &[u8], at: u32) -> Option<bool>
        ensures { result ≡ tag_at self.now.tags name.now at }
    {
        self.tags.tag_at(name, at)
    }

    /// Where a tag stands first.
    pub fn place_of_tag(&self, name: &[u8]) -> Option<u32>
        ensures { result ≡ place_of_tag self.now.tags name.now }
    {
        self.tags.place_of(name)
    }

    /// The number of a structure, by its tag.
    pub fn number_of(&self, tag: &[u8]) -> Option<usize>
        ensures { result ≡ number_in self.now.numbered tag.now }
    {
        self.numbered.number_of(tag)
    }

    /// How many definitions of structures ended before byte `at`.
    pub fn ended(&self, at: u32) -> usize
        ensures { result ≡ ended self.now.ends at }
    {
        ended(&self.ends, at)
    }

    /// The tag of a structure without one, by the byte of its `struct`. It begins with `@`, as no name does.
    pub fn untagged(&self, at: u32) -> &[u8]
        ensures { result.now ≡ untagged_by self.now.untagged at }
    {
        self.untagged.tag_at(at)
    }

    /// How many tags there are.
    pub fn tags(&self) -> usize
        ensures { result ≡ length self.now.tags }
    {
        self.tags.len()
    }

    /// How many definitions of structures there are.
    pub fn definitions(&self) -> usize
        ensures { result ≡ length self.now.ends }
    {
        self.ends.len()
    }

    /// How many structures have a number.
    pub fn structures(&self) -> usize
        ensures { result ≡ length self.now.numbered }
    {
        self.numbered.len()
    }

    /// The tags of the structures by their numbers, with no memory taken.
    pub fn into_structures(self) -> Vec<Name>
        ensures { result.items ≡ self.numbered }
    {
        let Tags { numbered, .. } = self;
        numbered.into_vec()
    }
}
