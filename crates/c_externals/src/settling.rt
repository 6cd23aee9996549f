//! What is left open at the end of a file: objects that are declared tentatively are zero (C99 6.9.2).

ghost use Rattle.std.specs.Prelude.{◌≡◌, [], IfOk, map, slice_get};
ghost use Rattle.c_annotated.specs.FileViews.{bound_of, object_of};
ghost use Rattle.c_erasure.specs.Checking.Files.{closed_file};
ghost use Rattle.c_externals.specs.Settling.{is_marked as is_marked_in, marked, marks_from, settled_by, settled_each};
ghost use Rattle.c_scopes.specs.Scoping.{file_of};

use c_annotated::{Bound, Entity, How, Initializer, Object};
use c_scopes::FileScope;
use lay_base::{List, NoMemory, add, push};
use std::alloc::Global;
use std::mem::replace;

/// Marks the object that a tentative definition declares.
fn mark(marks: &mut Vec<bool>, b: &Bound)
    ensures { marks.new.items ≡ marked (bound_of b.now) marks.old.items }
{
    if b.how != How::Tentative {
        return;
    }
    if let Entity::Object(n, _) = &b.entity {
        let n = *n;
        if n < marks.len() {
            marks[n] = true;
        }
    }
}

/// So many objects without a mark.
#[tactic(auto, using(crate::proofs::Marks::one_more_unmarked))]
fn no_marks(alloc: Global, count: usize) -> Result<Vec<bool>, NoMemory>
    ensures { IfOk result (λ marks. marks.items ≡ marks_from [] 0 count) }
{
    let mut marks = Vec::new(alloc);
    for n in 0..count {
        push(&mut marks, false)?;
    }
    Ok(marks)
}

/// Of each of so many objects, whether a definition of it is tentative.
#[tactic(auto, using(crate::proofs::Marks::one_more_declared))]
fn marks_of(alloc: Global, names: &[Bound], count: usize) -> Result<Vec<bool>, NoMemory>
    ensures { IfOk result (λ marks. marks.items ≡ marks_from (map bound_of names.now) 0 count) }
{
    let mut marks = no_marks(alloc, count)?;
    for b in names {
        mark(&mut marks, b);
    }
    Ok(marks)
}

/// An object that is zero where a definition of it is tentative and none is another.
fn settled(alloc: Global, o: Object, is_tentative: bool) -> Object
    ensures { object_of result ≡ settled_by is_tentative (object_of o) }
{
    let mut o = o;
    if o.initial.is_none() && is_tentative {
        o.initial = Some(Initializer::Parts(List::new(alloc)));
    }
    o
}

fn is_marked(marks: &[bool], n: usize) -> bool
    ensures { result ≡ is_marked_in (slice_get marks.now n) }
{
    match marks.get(n) {
        Some(mark) => *mark,
        None => false,
    }
}

/// The objects of a file, with the marks of each.
#[tactic(auto, using(crate::proofs::Marks::settled_last))]
fn all_settled(
    alloc: Global,
    objects: List<Object>,
    marks: &[bool],
) -> Result<List<Object>, NoMemory>
    ensures { IfOk result (λ all. map object_of all ≡ settled_each marks.now (map object_of objects)) }
{
    let mut all = List::new(alloc);
    for o in objects.into_vec() {
        let n = all.len();
        add(&mut all, settled(alloc, o, is_marked(marks, n)))?;
    }
    Ok(all)
}

/// A file at its end.
#[tactic(auto, using(crate::proofs::Marks::all_settled_by_marks))]
pub fn closed(mut file: FileScope) -> Result<FileScope, NoMemory>
    ensures { IfOk result (λ f. file_of f ≡ closed_file (file_of file)) }
{
    let marks = marks_of(file.alloc, file.names.as_slice(), file.objects.len())?;
    let objects = replace(&mut file.objects, List::new(file.alloc));
    file.objects = all_settled(file.alloc, objects, marks.as_slice())?;
    Ok(file)
}
