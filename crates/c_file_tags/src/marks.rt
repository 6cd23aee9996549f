//! The marks of a tree as they are collected.

ghost use Rattle.std.specs.Prelude.{◌≡◌, [], ◌∷◌, ◌++◌, OnOk};
ghost use Rattle.c_erasure.specs.Marks.{a_tag, an_end, a_name};
ghost use Rattle.c_file_tags.specs.Marks.{marks_in};
ghost use Rattle.c_scopes.specs.SyntaxTags.Tables.{tag_of};

use c_scopes::TagMark;
use lay_base::{NoMemory, push};
use std::alloc::Global;

/// What a file declares inside its specifiers.
#[derive(Clone, Copy)]
pub enum Mark<'a> {
    Tag(TagMark<'a>),
    /// The definition of the structure with that tag ends there.
    End(&'a [u8], u32),
    /// A name is in scope from there on.
    Name(u32),
}

/// Marks in the order of the text.
#[derive(Drop)]
pub struct Marks<'a> {
    pub list: Vec<Mark<'a>>,
}

impl<'a> Marks<'a> {
    #[tactic(auto, unfolding(crate::specs::Marks::marks_in))]
    pub fn new(alloc: Global) -> Marks<'a>
        ensures { marks_in result ≡ [] }
    {
        Marks {
            list: Vec::new(alloc),
        }
    }

    pub fn add_tag(&mut self, tag: TagMark<'a>) -> Result<(), NoMemory>
        ensures { OnOk result (marks_in self.new ≡ marks_in self.old ++ a_tag (tag_of tag.entry) ∷ []) }
    {
        push(&mut self.list, Mark::Tag(tag))?;
        Ok(())
    }

    pub fn add_end(&mut self, tag: &'a [u8], right: u32) -> Result<(), NoMemory>
        ensures { OnOk result (marks_in self.new ≡ marks_in self.old ++ an_end tag.entry.now right ∷ []) }
    {
        push(&mut self.list, Mark::End(tag, right))?;
        Ok(())
    }

    pub fn add_name(&mut self, from: u32) -> Result<(), NoMemory>
        ensures { OnOk result (marks_in self.new ≡ marks_in self.old ++ a_name from ∷ []) }
    {
        push(&mut self.list, Mark::Name(from))?;
        Ok(())
    }
}
