//! The lists that the marks of a file tell.

ghost use Rattle.std.specs.Prelude.{◌≡◌, ◌++◌, [], ◌∷◌, IfOk, OnOk};
ghost use Rattle.c_ast.specs.Views.{items_of};
ghost use Rattle.c_erasure.specs.Marks.{defined_in, ends_in, firsts, marks_of_file, tags_in, undefined_in};
ghost use Rattle.c_scopes.specs.SyntaxTags.Untagged.{untagged_by};
ghost use Rattle.c_file_tags.specs.Marks.{mark_of, marks_in};
ghost use Rattle.c_scopes.specs.SyntaxTags.Tables.{after_structure, after_tag};

use crate::marks::{Mark, Marks};
use crate::walk::file_marks;
use c_ast::Tree;
use c_scopes::{Names, TagTable, Untagged};
use lay_base::{NoMemory, push};
use std::alloc::Global;

/// The tags of a file, the ends of its structure definitions, and the tags of its structures by their numbers.
#[derive(Drop)]
pub struct Tables {
    pub tags: TagTable,
    pub ends: Vec<u32>,
    pub numbered: Names,
}

fn note_tag(tags: &mut TagTable, alloc: Global, mark: &Mark) -> Result<(), NoMemory>
    ensures { OnOk result (tags.new ≡ after_tag tags.old (mark_of mark.now)) }
{
    match mark {
        Mark::Tag(tag) => tags.add(alloc, tag),
        Mark::End(_, _) | Mark::Name(_) => Ok(()),
    }
}

fn note_structure(names: &mut Names, alloc: Global, mark: &Mark) -> Result<(), NoMemory>
    ensures { OnOk result (names.new ≡ after_structure names.old (mark_of mark.now)) }
{
    match mark {
        Mark::Tag(tag) => {
            if tag.is_enumeration {
                Ok(())
            } else {
                names.add_new(alloc, tag.name)
            }
        }
        Mark::End(_, _) | Mark::Name(_) => Ok(()),
    }
}

fn note_definition(names: &mut Names, alloc: Global, mark: &Mark) -> Result<(), NoMemory>
    ensures { OnOk result (names.new ≡ names.old ++ defined_in (mark_of mark.now ∷ [])) }
{
    match mark {
        Mark::End(tag, _) => names.add(alloc, tag),
        Mark::Tag(_) | Mark::Name(_) => Ok(()),
    }
}

fn note_end(ends: &mut Vec<u32>, mark: &Mark) -> Result<(), NoMemory>
    ensures { OnOk result (ends.new.items ≡ ends.old.items ++ ends_in (mark_of mark.now ∷ [])) }
{
    match mark {
        Mark::End(_, right) => push(ends, *right),
        Mark::Tag(_) | Mark::Name(_) => Ok(()),
    }
}

fn tag_table(alloc: Global, marks: &Marks) -> Result<TagTable, NoMemory>
    ensures { IfOk result (λ tags. tags ≡ firsts [] (tags_in (marks_in marks.now))) }
{
    let mut tags = TagTable::new(alloc);
    for mark in &marks.list {
        note_tag(&mut tags, alloc, mark)?;
    }
    Ok(tags)
}

#[tactic(auto, unfolding(crate::specs::Marks::marks_in))]
fn ends_of(alloc: Global, marks: &Marks) -> Result<Vec<u32>, NoMemory>
    ensures { IfOk result (λ ends. ends.items ≡ ends_in (marks_in marks.now)) }
{
    let mut ends = Vec::new(alloc);
    for mark in &marks.list {
        note_end(&mut ends, mark)?;
    }
    Ok(ends)
}

#[tactic(auto, unfolding(crate::specs::Marks::marks_in))]
fn defined_tags(alloc: Global, marks: &Marks) -> Result<Names, NoMemory>
    ensures { IfOk result (λ names. names ≡ defined_in (marks_in marks.now)) }
{
    let mut names = Names::new(alloc);
    for mark in &marks.list {
        note_definition(&mut names, alloc, mark)?;
    }
    Ok(names)
}

/// The tags of all structures: of those that are defined in the order in which their definitions end, then of the others.
fn numbered_tags(alloc: Global, marks: &Marks) -> Result<Names, NoMemory>
    ensures { IfOk result (λ names. names ≡ defined_in (marks_in marks.now) ++ undefined_in (marks_in marks.now)) }
{
    let mut names = defined_tags(alloc, marks)?;
    for mark in &marks.list {
        note_structure(&mut names, alloc, mark)?;
    }
    Ok(names)
}

/// What the marks of a tree tell.
pub fn tables_of(alloc: Global, untagged: &Untagged, tree: &Tree) -> Result<Tables, NoMemory>
    ensures tags { IfOk result (λ t. t.tags ≡ firsts [] (tags_in (marks_of_file (untagged_by untagged.now) (items_of tree.now)))) }
    ensures ends { IfOk result (λ t. t.ends.items ≡ ends_in (marks_of_file (untagged_by untagged.now) (items_of tree.now))) }
    ensures numbered { IfOk result (λ t. t.numbered ≡ defined_in (marks_of_file (untagged_by untagged.now) (items_of tree.now))
        ++ undefined_in (marks_of_file (untagged_by untagged.now) (items_of tree.now))) }
{
    let marks = file_marks(alloc, untagged, tree.items.as_slice())?;
    let tags = tag_table(alloc, &marks)?;
    let ends = ends_of(alloc, &marks)?;
    let numbered = numbered_tags(alloc, &marks)?;
    Ok(Tables {
        tags,
        ends,
        numbered,
    })
}
