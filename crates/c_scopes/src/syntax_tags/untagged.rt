//! The tags of structures that have none.

ghost use Rattle.std.specs.Prelude.{◌≡◌};
ghost use Rattle.c_scopes.specs.SyntaxTags.Untagged.{untagged_by};

use indexmap::IndexMap;
use lay_base::Name;
use std::marker::Model;

/// For the byte of each `struct` of a file the tag that it has where none is written. No two of a file are alike, and none is a name.
#[derive(Drop)]
pub struct Untagged {
    tags: IndexMap<u32, Name>,
}

/// Contracts see each byte with its tag.
impl Model for Untagged {
    ghost use Rattle.std.specs.Prelude.{ℕ, ◌≡◌, List as Sequence};

    ghost Value = { Sequence (ℕ × Sequence ℕ) };

    ghost view = { λ it. it.tags.entries };
}

impl Untagged {
    /// The tags of a table that has each `struct`, by its byte.
    pub fn of(tags: IndexMap<u32, Name>) -> Untagged
        ensures { result ≡ tags.entries }
    {
        Untagged { tags }
    }

    /// The tag of a structure without one, by the byte of its `struct`; `@` where there is no `struct`.
    pub fn tag_at(&self, at: u32) -> &[u8]
        ensures { result.now ≡ untagged_by self.now at }
    {
        match self.tags.get(&at) {
            Some(tag) => tag.as_slice(),
            None => b"@".as_slice(),
        }
    }
}
