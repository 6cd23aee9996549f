//! The program of units, or their first gap.

ghost use Rattle.std.specs.Prelude.{◌≡◌, ◌↔◌, All, IsTrue, map};
ghost use Rattle.c_link.specs.Joining.{all_tags};
ghost use Rattle.c_link.specs.Counting.{AreMeasured, IsCountable};
ghost use Rattle.c_link.specs.Gaps.{Agree, HasMain};
ghost use Rattle.c_link.specs.Linking.{AgreeGives, CompleteGives, LinkGives, WithinGives};
ghost use Rattle.c_typed.specs.Programs.{program_data, unit_data};
ghost use Rattle.c_types.specs.Limits.{AreSmall};

use crate::clashes::tag_clash;
use crate::gap::Gap;
use crate::limits::limit_past;
use crate::linked::linked_in;
use crate::missing::missing_name;
use crate::names::{Asked, name_trouble, names_of};
use crate::program::join;
use crate::structures::least_open;
use crate::tags::all_tags;
use c_numbers::NameTable;
use c_typed::{Typed, Unit};
use c_types::records_are_complete;
use lay_base::List;
use std::alloc::Global;

/// Whether the units agree on tags, on types of names, and on what is defined.
fn agree(alloc: Global, tags: &NameTable, units: &[Unit]) -> Result<(), Gap>
    requires { tags.now ≡ all_tags (map unit_data units.now) }
    ensures { AgreeGives (map unit_data units.now) result }
{
    if let Some(t) = tag_clash(alloc, tags, units)? {
        return Err(Gap::TagClash(t));
    }
    let linked = linked_in(alloc, tags, units)?;
    let all = linked.as_slice();
    let names = names_of(alloc, all)?;
    if let Some(t) = name_trouble(alloc, Asked::OneType, units, &names, all)? {
        return Err(Gap::NameClash(t));
    }
    match name_trouble(alloc, Asked::OneDefinition, units, &names, all)? {
        Some(t) => Err(Gap::Twice(t)),
        None => Ok(()),
    }
}

/// Whether the function `main` is there and has a body (C99 5.1.2.2.1).
fn has_main(p: &Typed) -> bool
    ensures { IsTrue result ↔ HasMain (program_data p.now) }
{
    match p.functions.get(p.main) {
        Some(f) => f.body.is_some(),
        None => false,
    }
}

/// Whether all that a program uses is there. Its structures have these tags.
fn complete(alloc: Global, tags: &NameTable, p: &Typed) -> Result<(), Gap>
    ensures { CompleteGives tags.now (program_data p.now) result }
{
    if let Some(t) = missing_name(alloc, p)? {
        return Err(Gap::Missing(t.name));
    }
    if let Some(number) = least_open(alloc, p)? {
        return Err(Gap::Missing(tags.name(alloc, number)?));
    }
    if has_main(p) {
        Ok(())
    } else {
        Err(Gap::NoMain)
    }
}

/// A program whose limits are not passed.
fn within_limits(alloc: Global, p: Typed) -> Result<Typed, Gap>
    requires { AreMeasured (program_data p) }
    ensures { WithinGives (program_data p) result }
{
    match limit_past(alloc, &p)? {
        Some(it) => Err(Gap::Limit(it)),
        None => Ok(p),
    }
}

/// The records of a unit are small: the types of a unit say so. Nothing is done.
fn records_are_small(units: &[Unit])
    ensures { All (λ u. AreSmall u.records) (map unit_data units.now) }
{
    for u in units {
        records_are_complete(&u.records);
    }
}

/// The program of units that agree, or what it lacks.
#[tactic(auto, using(crate::proofs::Lacks::lack_is_gap, crate::proofs::Lacks::within_is_program))]
fn whole_program(alloc: Global, tags: &NameTable, units: List<Unit>) -> Result<Typed, Gap>
    requires tags { tags.now ≡ all_tags (map unit_data units) }
    requires agree { Agree (map unit_data units) }
    requires countable { All IsCountable (map unit_data units) }
    ensures { LinkGives (map unit_data units) result }
{
    records_are_small(units.as_slice());
    let p = join(alloc, tags, units)?;
    match complete(alloc, tags, &p) {
        Err(gap) => Err(gap),
        Ok(()) => within_limits(alloc, p),
    }
}

/// The program of units, or their first gap.
pub fn link(alloc: Global, units: List<Unit>) -> Result<Typed, Gap>
    requires { All IsCountable (map unit_data units) }
    ensures { LinkGives (map unit_data units) result }
{
    let tags = all_tags(alloc, units.as_slice())?;
    match agree(alloc, &tags, units.as_slice()) {
        Err(gap) => Err(gap),
        Ok(()) => whole_program(alloc, &tags, units),
    }
}
