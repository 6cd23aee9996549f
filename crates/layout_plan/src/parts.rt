//! Parts of records: where their fields lie, and how large they are.

ghost use Rattle.std.specs.Prelude.{◌≡◌, ◌<◌, ◌-◌, ◌^◌, [], fold, flat_map, map, max, min};
ghost use Rattle.std.specs.Int.{next_multiple_of};
ghost use Rattle.c_types.specs.Layouts.{align_of, begin_after, end_after, greatest_alignment, layouts, size_of};
ghost use Rattle.c_types.specs.Views.{records_of, types_of_fields};
ghost use Rattle.c_typed.specs.TypeNumbers.{type_at};
ghost use Rattle.layout_plan.specs.Parts.{is_too_big, link, part_layout};
ghost use Rattle.layout_plan.specs.PartSizes.{AreFieldsOf, AreSmallObjects, OutlinesAreSmall, front_of};

use crate::plans::{Decision, PartField};
use c_types::{
    Field, Records, added_records_have_their_size, align_of, fields_lie_apart, layouts_stay,
    records_are_complete, size_of, sizes_are_multiples,
};
use lay_base::List;

/// The greatest size of a record, in bytes.
const GREATEST_SIZE: u64 = 16_777_216;

/// A field that lies in a part, by its number in the record.
#[derive(Clone, Copy)]
pub struct Placed {
    pub field: usize,
    pub at: PartField,
}

/// What some fields of a part take up: where they end, or `u64::MAX` past it, and their greatest alignment.
#[derive(Clone, Copy)]
pub struct Extent {
    pub end: u64,
    pub alignment: u32,
}

/// Where an object begins and ends that follows other bytes. A number is `u64::MAX` where it passes that.
#[derive(Clone, Copy)]
pub struct Span {
    pub begin: u64,
    pub end: u64,
}

/// The fields of a record are objects, and none is larger than a type may be. This does nothing, as every law.
pub fn fields_are_small(records: &Records, own: &[Field])
    requires { AreFieldsOf records.now own.now }
    ensures { AreSmallObjects records.now own.now }
{
    records_are_complete(records);
    fields_lie_apart(records);
    let _ = own;
}

/// The size of the field with that number, and of none 0.
#[tactic(auto, using(crate::proofs::Fields::type_found, crate::proofs::Fields::type_missing))]
fn size_at(records: &Records, own: &[Field], number: usize) -> u32
    requires { AreSmallObjects records.now own.now }
    ensures { result ≡ size_of (records_of records.now) (type_at (types_of_fields own.now) number) }
{
    match own.get(number) {
        Some(field) => size_of(records, &field.ty),
        None => 0,
    }
}

/// The alignment of the field with that number, and of none 1.
#[tactic(auto, using(crate::proofs::Fields::type_found, crate::proofs::Fields::type_missing))]
fn alignment_at(records: &Records, own: &[Field], number: usize) -> u32
    requires { AreSmallObjects records.now own.now }
    ensures value { result ≡ align_of (records_of records.now) (type_at (types_of_fields own.now) number) }
    ensures positive { 0 < result }
{
    sizes_are_multiples();
    match own.get(number) {
        Some(field) => align_of(records, &field.ty),
        None => 1,
    }
}

/// The least multiple of a unit from a number on, or `u64::MAX` where it passes that.
fn next_multiple(n: u64, unit: u32) -> u64
    requires { 0 < unit }
    ensures { result ≡ min (next_multiple_of n unit) (2 ^ 64 - 1) }
{
    let unit = u64::from(unit);
    n.saturating_add((unit - n % unit) % unit)
}

/// Where the field with that number lies that follows so many bytes.
pub fn span_after(records: &Records, own: &[Field], before: u64, number: usize) -> Span
    requires { AreSmallObjects records.now own.now }
    ensures begin { result.begin ≡ min (begin_after (layouts (records_of records.now)) before (type_at (types_of_fields own.now) number)) (2 ^ 64 - 1) }
    ensures end { result.end ≡ min (end_after (layouts (records_of records.now)) before (type_at (types_of_fields own.now) number)) (2 ^ 64 - 1) }
{
    let begin = next_multiple(before, alignment_at(records, own, number));
    Span {
        begin,
        end: begin.saturating_add(u64::from(size_at(records, own, number))),
    }
}

/// What more fields take up, after those before them.
pub fn extent_after(records: &Records, own: &[Field], before: Extent, fields: &[usize]) -> Extent
    requires objects { AreSmallObjects records.now own.now }
    requires positive { 0 < before.alignment }
    ensures end { result.end
        ≡ min (fold (end_after (layouts (records_of records.now))) before.end (map (type_at (types_of_fields own.now)) fields.now)) (2 ^ 64 - 1) }
    ensures alignment { result.alignment
        ≡ max before.alignment (greatest_alignment (layouts (records_of records.now)) (map (type_at (types_of_fields own.now)) fields.now)) }
{
    let mut end = before.end;
    let mut alignment = before.alignment;
    for field in fields {
        end = span_after(records, own, end, *field).end;
        alignment = alignment.max(alignment_at(records, own, *field));
    }
    Extent { end, alignment }
}

/// What stands in front of the fields of a part: the link, or nothing.
pub fn front(decision: Decision, part: usize) -> Extent
    ensures { result ≡ front_of (link decision part) }
{
    match decision {
        Decision::Split if part == 0 => Extent {
            end: 4,
            alignment: 4,
        },
        _ => Extent {
            end: 0,
            alignment: 1,
        },
    }
}

/// The size of a part with these fields, or `u64::MAX` where it passes that.
pub fn part_size(
    records: &Records,
    own: &[Field],
    decision: Decision,
    part: usize,
    fields: &[usize],
) -> u64
    requires { AreSmallObjects records.now own.now }
    ensures { result ≡ min (part_layout (records_of records.now) (types_of_fields own.now) (link decision part) fields.now).size (2 ^ 64 - 1) }
{
    let extent = extent_after(records, own, front(decision, part), fields);
    next_multiple(extent.end, extent.alignment)
}

/// The size of one record with the fields of all parts, or `u64::MAX` where it passes that.
fn whole_size(records: &Records, own: &[Field], parts: &[List<usize>]) -> u64
    requires { AreSmallObjects records.now own.now }
    ensures { result
        ≡ min (part_layout (records_of records.now) (types_of_fields own.now) [] (flat_map (λ fields. fields) parts.now)).size (2 ^ 64 - 1) }
{
    let mut extent = Extent {
        end: 0,
        alignment: 1,
    };
    for fields in parts {
        extent = extent_after(records, own, extent, fields.as_slice());
    }
    next_multiple(extent.end, extent.alignment)
}

/// Whether a part, or one record with the fields of all parts, is larger than a record may be.
pub fn is_too_big(
    records: &Records,
    own: &[Field],
    decision: Decision,
    parts: &[List<usize>],
) -> bool
    requires { AreFieldsOf records.now own.now }
    ensures { result ≡ is_too_big (records_of records.now) (types_of_fields own.now) decision parts.now }
{
    fields_are_small(records, own);
    if whole_size(records, own, parts) > GREATEST_SIZE {
        return true;
    }
    for part in 0..parts.len() {
        if part_size(records, own, decision, part, parts[part].as_slice()) > GREATEST_SIZE {
            return true;
        }
    }
    false
}

/// No outline of a record has a part larger than a record may be. This does nothing, as every law.
pub fn outlines_are_small(records: &Records, own: &[Field])
    requires { AreFieldsOf records.now own.now }
    ensures { OutlinesAreSmall (records_of records.now) (types_of_fields own.now) }
{
    records_are_complete(records);
    layouts_stay();
    added_records_have_their_size();
    sizes_are_multiples();
    let _ = own;
}
