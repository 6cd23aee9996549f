//! Types of which the file speaks outside of its expressions.

ghost use Rattle.std.specs.Prelude.{◌≡◌, ◌++◌, ◌∷◌, OnOk, drop, take};
ghost use Rattle.c_types.specs.Views.{type_of};
ghost use Rattle.c_erasure.specs.Checking.Declaring.{mentions_in, with_mention};
ghost use Rattle.c_annotated.specs.FileViews.{mention_of};
ghost use Rattle.c_scopes.specs.Scoping.{file_of, scope_of};
ghost use Rattle.c_declaring.specs.Adding.{mentioned};

use c_annotated::Mention;
use c_scopes::{FileScope, Purpose, Scope};
use c_typed::MentionKind;
use c_types::{Ty, copy};
use lay_base::{List, NoMemory, insert_at};
use std::alloc::Global;
use std::mem;

/// How many types are listed.
pub fn mentions_in(file: &FileScope) -> usize
    ensures { result ≡ mentions_in (file_of file.now) }
{
    file.mentions.len()
}

/// Puts one before those that stand from a place of the list on.
fn insert(
    alloc: Global,
    all: &mut List<Mention>,
    before: usize,
    one: Mention,
) -> Result<(), NoMemory>
    ensures { OnOk result (all.new ≡ take before all.old ++ one ∷ drop before all.old) }
{
    let mut items = mem::replace(all, List::new(alloc)).into_vec();
    let place = before.min(items.len());
    insert_at(&mut items, place, one)?;
    *all = List::of(items);
    Ok(())
}

/// Lists one before those that are listed from a place of the list on.
#[tactic(auto, using(crate::proofs::Inserted::as_seen))]
fn add_mention(file: &mut FileScope, before: usize, one: Mention) -> Result<(), NoMemory>
    ensures { OnOk result (file_of file.new ≡ mentioned before (mention_of one) (file_of file.old)) }
{
    insert(file.alloc, &mut file.mentions, before, one)
}

/// Lists a type before those that are listed from that place of the list on; in the operand of a `sizeof` none is listed.
pub fn mention(
    file: &mut FileScope,
    scope: Scope,
    before: usize,
    kind: MentionKind,
    t: &Ty,
    at: u32,
) -> Result<(), NoMemory>
    ensures { OnOk result
        (file_of file.new ≡ with_mention (scope_of file.old scope.entry) before kind (type_of t.now) at (file_of file.old)) }
{
    match scope.purpose {
        Purpose::TypeAlone => Ok(()),
        _ => {
            let ty = copy(file.alloc, t)?;
            add_mention(file, before, Mention { kind, ty, at })
        }
    }
}
