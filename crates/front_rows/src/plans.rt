//! The report of a program by its plan, as text.

ghost use Rattle.std.specs.Prelude.{◌≤◌, All, length};

use c_typed::{Counts, Typed};
use lay_base::{Bytes, File, List, NoMemory, add};
use lay_compile::place_text;
use lay_report::report;
use layout_plan::{Decision, RecordPlan, planned};
use row_lines::Writer;
use std::alloc::Global;

fn places_of(alloc: Global, files: &[File], plans: &[RecordPlan]) -> Result<List<Bytes>, NoMemory>
    requires { All (λ file. length file.bytes ≤ 4194304) files.now }
{
    let mut places = List::new(alloc);
    for plan in plans {
        let place = match plan.decision {
            Decision::Refused(violation) => place_text(alloc, files, violation.place)?,
            _ => Bytes::of(Vec::new(alloc)),
        };
        add(&mut places, place)?;
    }
    Ok(places)
}

fn report_of(
    alloc: Global,
    files: &[File],
    program: &Typed,
    counts: Option<&Counts>,
) -> Result<Vec<u8>, NoMemory>
    requires { All (λ file. length file.bytes ≤ 4194304) files.now }
{
    let planned = planned(alloc, program, counts)?;
    let places = places_of(alloc, files, planned.plan.records.as_slice())?;
    report(alloc, program, Some(&planned), places.as_slice())
}

/// The report, below the name of its row.
pub fn put_report(
    out: &mut Writer,
    alloc: Global,
    files: &[File],
    program: &Typed,
    counts: Option<&Counts>,
)
    requires { All (λ file. length file.bytes ≤ 4194304) files.now }
{
    match report_of(alloc, files, program, counts) {
        Ok(text) => {
            out.add(b"\n");
            out.add(text.as_slice());
        }
        Err(_) => out.word("out of memory"),
    }
}
