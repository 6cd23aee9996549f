//! The report of a program.

ghost use Rattle.std.specs.Prelude.{◌≡◌, ◌<◌, [], IfOk, flat_map, length, slice_get, unwrap_or};
ghost use Rattle.std.specs.Option.{option_copied};
ghost use Rattle.c_types.specs.Layouts.{size_of};
ghost use Rattle.c_types.specs.Types.{structure};
ghost use Rattle.c_types.specs.Views.{record_of, records_of};
ghost use Rattle.lay_report.specs.Reports.{IsReport, IsReportOrder, by_plan, defined_from, text_at};
ghost use Rattle.lay_report.specs.Writes.{Writes};

use crate::records::{put_plain, put_planned};
use crate::text::{Text, put_line};
use affinity::hotnesses;
use c_typed::{Defined, Typed};
use c_types::{Record, Records, Ty, records_are_complete, size_of};
use lay_base::{Bytes, NoMemory, push};
use layout_plan::Planned;
use std::alloc::Global;

fn defined(alloc: Global, records: &[Record]) -> Result<Vec<Defined>, NoMemory>
    ensures { IfOk result (λ all. all.items ≡ defined_from 0 (records_of records.now)) }
{
    let mut all = Vec::new(alloc);
    for (number, r) in records.iter().enumerate() {
        let defined = Defined {
            number,
            place: r.place,
        };
        push(&mut all, defined)?;
    }
    Ok(all)
}

/// The records in the order of the files and places of their first definitions.
fn report_order(alloc: Global, records: &Records) -> Result<Vec<Defined>, NoMemory>
    ensures { IfOk result (λ order. IsReportOrder (records_of records.now) order.items) }
{
    let mut order = defined(alloc, records.as_slice())?;
    order.sort_unstable_by_key(|r| (r.place.file, r.place.at, r.number));
    Ok(order)
}

/// The size of the record of a number as it is declared.
fn declared_size(records: &Records, number: usize) -> u32
    requires { number < length records.now }
    ensures { result ≡ size_of (records_of records.now) (structure number) }
{
    records_are_complete(records);
    size_of(records, &Ty::Record(number))
}

fn place_of(places: &[Bytes], number: usize) -> &[u8]
    ensures { result.now ≡ unwrap_or (slice_get places.now number) [] }
{
    match places.get(number) {
        Some(place) => place.as_slice(),
        None => b"",
    }
}

/// The lines of a record by a plan.
fn put_by_plan(
    alloc: Global,
    text: &mut Text,
    size: u32,
    number: usize,
    r: &Record,
    planned: &Planned,
    places: &[Bytes],
)
    ensures { Writes text.old text.new (by_plan size number (record_of r.now) planned.now places.now (slice_get planned.now.plan.records number)) }
{
    let Some(plan) = planned.plan.records.get(number) else {
        return;
    };
    match hotnesses(alloc, &planned.weights, number, r.fields.len()) {
        Err(want) => text.want = Some(want),
        Ok(hotness) => put_planned(
            text,
            size,
            r,
            place_of(places, number),
            hotness.as_slice(),
            plan,
        ),
    }
}

fn put_record(
    alloc: Global,
    text: &mut Text,
    records: &Records,
    number: usize,
    planned: Option<&Planned>,
    places: &[Bytes],
)
    ensures { Writes text.old text.new (text_at (records_of records.now) (option_copied planned.entry) places.now number) }
{
    if number >= records.len() {
        return;
    }
    let size = declared_size(records, number);
    let r = records.get(number);
    match planned {
        None => put_plain(text, size, r),
        Some(planned) => put_by_plan(alloc, text, size, number, r, planned, places),
    }
}

fn put_records(
    alloc: Global,
    text: &mut Text,
    records: &Records,
    order: &[Defined],
    planned: Option<&Planned>,
    places: &[Bytes],
)
    ensures { Writes text.old text.new (flat_map (λ d. text_at (records_of records.now) (option_copied planned.entry) places.now d.number) order.now) }
{
    for d in order {
        put_record(alloc, text, records, d.number, planned, places);
    }
}

/// The report of a program by a plan, or of its records as they are declared where there is none. The texts FILE:LINE of the places of violations are
/// given, one for each record by its number; of a record that has no violation none is read.
pub fn report(
    alloc: Global,
    p: &Typed,
    planned: Option<&Planned>,
    places: &[Bytes],
) -> Result<Vec<u8>, NoMemory>
    ensures { IfOk result (λ text. IsReport (records_of p.now.records) (option_copied planned.entry) places.now text.items) }
{
    let order = report_order(alloc, &p.records)?;
    let mut text = Text::new(alloc);
    put_line(&mut text, &[b"layc report 1"]);
    put_records(
        alloc,
        &mut text,
        &p.records,
        order.as_slice(),
        planned,
        places,
    );
    match text.want {
        Some(want) => Err(want),
        None => Ok(text.bytes),
    }
}
