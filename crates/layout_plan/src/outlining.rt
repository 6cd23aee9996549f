//! What becomes of a record that violates no test.

ghost use Rattle.std.specs.Prelude.{◌≡◌, ◌&&◌, ◌++◌, false, ◌∷◌, [], IfOk, OnOk, filter, fold, length, map, max, nat_le, nat_lt};
ghost use Rattle.c_types.specs.Layouts.{size_of};
ghost use Rattle.c_types.specs.Limits.{size_if_small};
ghost use Rattle.c_types.specs.Views.{records_of, types_of_fields};
ghost use Rattle.c_typed.specs.RunCounts.Counting.{numbers_below};
ghost use Rattle.c_typed.specs.TypeNumbers.{type_at};
ghost use Rattle.affinity.specs.FieldWeights.{hotness_in, is_read_in};
ghost use Rattle.layout_plan.specs.declared.plans.Decision.TheVariants.{Reordered, Split};
ghost use Rattle.layout_plan.specs.Order.{placed};
ghost use Rattle.layout_plan.specs.Outlines.{live, outline, planned};
ghost use Rattle.layout_plan.specs.PartSizes.{AreFieldsOf};
ghost use Rattle.layout_plan.specs.Sides.{cold_below, decision_of, side, sizes};

use crate::order::{groups, placed};
use crate::outline::Outline;
use crate::plans::Decision;
use affinity::FieldWeights;
use c_types::{Field, Records, checked_size_of, records_are_complete};
use lay_base::{List, NoMemory, add, copied};
use std::alloc::Global;

/// The fields whose value is loaded somewhere.
fn read(alloc: Global, w: &FieldWeights, count: usize) -> Result<List<usize>, NoMemory>
    ensures { IfOk result (λ r. r ≡ filter (is_read_in w.now) (numbers_below count)) }
{
    let mut all = List::new(alloc);
    for f in 0..count {
        if w.is_read(f) {
            add(&mut all, f)?;
        }
    }
    Ok(all)
}

/// The fields that stay of a record with so many.
#[tactic(auto, using(crate::proofs::Lived::some, crate::proofs::Lived::first))]
pub fn live(alloc: Global, w: &FieldWeights, count: usize) -> Result<List<usize>, NoMemory>
    ensures { IfOk result (λ r. r ≡ live w.now count) }
{
    let mut stay = read(alloc, w, count)?;
    if !stay.is_empty() || count == 0 {
        return Ok(stay);
    }
    add(&mut stay, 0)?;
    Ok(stay)
}

fn add_placed(
    alloc: Global,
    w: &FieldWeights,
    parts: &mut List<List<usize>>,
    fields: List<usize>,
) -> Result<(), NoMemory>
    ensures { OnOk result (parts.new ≡ parts.old ++ placed w.now fields ∷ []) }
{
    let part = placed(alloc, w, fields)?;
    add(parts, part)
}

fn decision_of(groups: &[List<usize>]) -> Decision
    ensures { result ≡ decision_of groups.now }
{
    match groups {
        [_, _, ..] => Decision::Peeled,
        _ => Decision::Reordered,
    }
}

/// Of a record that may be peeled, by its groups.
fn peeled(alloc: Global, w: &FieldWeights, groups: List<List<usize>>) -> Result<Outline, NoMemory>
    ensures { IfOk result (λ o. o ≡ outline (decision_of groups) (map (placed w.now) groups)) }
{
    let decision = decision_of(groups.as_slice());
    let mut parts = List::new(alloc);
    for fields in groups.into_vec() {
        add_placed(alloc, w, &mut parts, fields)?;
    }
    Ok(Outline { decision, parts })
}

fn greatest_hotness(w: &FieldWeights, fields: &[usize]) -> u128
    ensures { result ≡ fold (λ h f. max h (hotness_in w.now f)) 0 fields.now }
{
    let mut greatest: u128 = 0;
    for f in fields {
        greatest = greatest.max(w.hotness(*f));
    }
    greatest
}

/// The least hotness of a field that is not cold.
fn cold_below(by_profile: bool, greatest: u128) -> u128
    ensures { result ≡ cold_below by_profile greatest }
{
    // No product of the whole, which could pass the greatest number.
    let thousands = greatest / 1000;
    let rest = greatest % 1000;
    if by_profile {
        30 * thousands + (30 * rest + 999) / 1000
    } else {
        75 * thousands + (75 * rest + 999) / 1000
    }
}

/// The fields on one side of a bound on hotness.
fn side(
    alloc: Global,
    w: &FieldWeights,
    below: u128,
    is_cold: bool,
    fields: &[usize],
) -> Result<List<usize>, NoMemory>
    ensures { IfOk result (λ r. r ≡ side w.now below is_cold fields.now) }
{
    let mut all = List::new(alloc);
    for f in fields {
        if (w.hotness(*f) < below) == is_cold {
            add(&mut all, *f)?;
        }
    }
    Ok(all)
}

/// The size of a field, where it does not pass the greatest of a type.
fn size_at(records: &Records, own: &[Field], f: usize) -> Option<u32>
    requires { AreFieldsOf records.now own.now }
    ensures { result ≡ size_if_small (size_of (records_of records.now) (type_at (types_of_fields own.now) f)) }
{
    records_are_complete(records);
    match own.get(f) {
        Some(field) => checked_size_of(records, &field.ty),
        None => Some(0),
    }
}

/// Whether fields take more than a link does, which has 4 bytes.
fn is_larger_than_link(records: &Records, own: &[Field], fields: &[usize]) -> bool
    requires { AreFieldsOf records.now own.now }
    ensures { result ≡ nat_lt 4 (sizes (records_of records.now) (types_of_fields own.now) 0 fields.now) }
{
    let mut sum: u32 = 0;
    for f in fields {
        match size_at(records, own, *f) {
            None => return true,
            Some(size) => sum += size,
        }
        if sum > 4 {
            return true;
        }
    }
    false
}

fn is_worth(records: &Records, own: &[Field], apart: &[usize]) -> bool
    requires { AreFieldsOf records.now own.now }
    ensures { result ≡ (nat_le 2 (length apart.now) && nat_lt 4 (sizes (records_of records.now) (types_of_fields own.now) 0 apart.now)) }
{
    apart.len() >= 2 && is_larger_than_link(records, own, apart)
}

fn in_one(alloc: Global, w: &FieldWeights, fields: &[usize]) -> Result<Outline, NoMemory>
    ensures { IfOk result (λ o. o ≡ outline Reordered (placed w.now fields.now ∷ [])) }
{
    let all = copied(alloc, fields)?;
    let mut parts = List::new(alloc);
    add_placed(alloc, w, &mut parts, List::of(all))?;
    Ok(Outline {
        decision: Decision::Reordered,
        parts,
    })
}

fn in_two(
    alloc: Global,
    w: &FieldWeights,
    below: u128,
    fields: &[usize],
    apart: List<usize>,
) -> Result<Outline, NoMemory>
    ensures { IfOk result (λ o. o ≡ outline Split (placed w.now (side w.now below false fields.now) ∷ placed w.now apart ∷ [])) }
{
    let mut parts = List::new(alloc);
    let warm = side(alloc, w, below, false, fields)?;
    add_placed(alloc, w, &mut parts, warm)?;
    add_placed(alloc, w, &mut parts, apart)?;
    Ok(Outline {
        decision: Decision::Split,
        parts,
    })
}

/// Of a record that may not be peeled.
fn split(
    alloc: Global,
    records: &Records,
    own: &[Field],
    w: &FieldWeights,
    by_profile: bool,
    fields: &[usize],
) -> Result<Outline, NoMemory>
    requires { AreFieldsOf records.now own.now }
    ensures { IfOk result (λ o. o ≡ planned (records_of records.now) (types_of_fields own.now) w.now by_profile false fields.now) }
{
    let below = cold_below(by_profile, greatest_hotness(w, fields));
    let apart = side(alloc, w, below, true, fields)?;
    if is_worth(records, own, apart.as_slice()) {
        in_two(alloc, w, below, fields, apart)
    } else {
        in_one(alloc, w, fields)
    }
}

/// What becomes of a record that violates no test, by its own fields, those of them that stay, and whether it may be peeled; no part is looked at for its
/// size.
pub fn planned(
    alloc: Global,
    records: &Records,
    own: &[Field],
    w: &FieldWeights,
    by_profile: bool,
    is_peelable: bool,
    live: &[usize],
) -> Result<Outline, NoMemory>
    requires { AreFieldsOf records.now own.now }
    ensures { IfOk result (λ o. o ≡ planned (records_of records.now) (types_of_fields own.now) w.now by_profile is_peelable live.now) }
{
    if is_peelable {
        peeled(alloc, w, groups(alloc, w, live)?)
    } else {
        split(alloc, records, own, w, by_profile, live)
    }
}
