//! Where the fields of a record lie by its outline.

ghost use Rattle.std.specs.Prelude.{◌≡◌, ◌≤◌, ◌++◌, IfOk, OnOk, fold, map};
ghost use Rattle.c_types.specs.Layouts.{end_after, layouts, offsets_after};
ghost use Rattle.c_types.specs.Limits.{greatest_size};
ghost use Rattle.c_types.specs.Views.{records_of, types_of_fields};
ghost use Rattle.c_typed.specs.RunCounts.Counting.{numbers_below};
ghost use Rattle.c_typed.specs.TypeNumbers.{type_at};
ghost use Rattle.layout_plan.specs.Parts.{place_in, with_offsets};
ghost use Rattle.layout_plan.specs.Plans.{record_plan};
ghost use Rattle.layout_plan.specs.PartSizes.{AreFieldsOf, AreSmallObjects, IsSmall};

use crate::outline::Outline;
use crate::parts::{Placed, fields_are_small, front, part_size, span_after};
use crate::plans::{PartField, RecordPlan};
use c_types::{Field, Records};
use lay_base::{List, NoMemory, add};
use std::alloc::Global;

/// Adds the fields of a part, behind so many bytes.
fn place_part(
    placed: &mut List<Placed>,
    records: &Records,
    own: &[Field],
    before: u64,
    part: u8,
    fields: &[usize],
) -> Result<(), NoMemory>
    requires objects { AreSmallObjects records.now own.now }
    requires small { fold (end_after (layouts (records_of records.now))) before (map (type_at (types_of_fields own.now)) fields.now) ≤ greatest_size }
    ensures { OnOk result (placed.new ≡ placed.old ++ with_offsets (records_of records.now) (types_of_fields own.now) part fields.now
        (offsets_after (layouts (records_of records.now)) before (map (type_at (types_of_fields own.now)) fields.now))) }
{
    let mut end = before;
    for field in fields {
        let span = span_after(records, own, end, *field);
        let at = PartField {
            part,
            offset: span.begin as u32,
        };
        add(placed, Placed { field: *field, at })?;
        end = span.end;
    }
    Ok(())
}

/// Where a field lies, if it does: the first of its places.
fn place_in(placed: &[Placed], field: usize) -> Option<PartField>
    ensures { result ≡ place_in placed.now field }
{
    for p in placed {
        if p.field == field {
            return Some(p.at);
        }
    }
    None
}

/// Where each of so many fields lies.
fn places(
    alloc: Global,
    placed: &[Placed],
    count: usize,
) -> Result<List<Option<PartField>>, NoMemory>
    ensures { IfOk result (λ all. all ≡ map (place_in placed.now) (numbers_below count)) }
{
    let mut all = List::new(alloc);
    for field in 0..count {
        add(&mut all, place_in(placed, field))?;
    }
    Ok(all)
}

/// The plan of a record by its outline.
pub fn record_plan(
    alloc: Global,
    records: &Records,
    own: &[Field],
    o: Outline,
) -> Result<RecordPlan, NoMemory>
    requires own { AreFieldsOf records.now own.now }
    requires small { IsSmall (records_of records.now) (types_of_fields own.now) o }
    ensures { IfOk result (λ it. it ≡ record_plan (records_of records.now) (types_of_fields own.now) o) }
{
    fields_are_small(records, own);
    let mut placed = List::new(alloc);
    let mut sizes = List::new(alloc);
    let parts = o.parts.as_slice();
    for part in 0..parts.len() {
        let fields = parts[part].as_slice();
        let size = part_size(records, own, o.decision, part, fields);
        add(&mut sizes, size as u32)?;
        let before = front(o.decision, part).end;
        place_part(&mut placed, records, own, before, part as u8, fields)?;
    }
    Ok(RecordPlan {
        decision: o.decision,
        fields: places(alloc, placed.as_slice(), own.len())?,
        sizes,
    })
}
