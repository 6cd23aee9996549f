//! The lines of one record.

ghost use Rattle.std.specs.Prelude.{◌≡◌, ◌∷◌, [], length, map, slice_get, unwrap_or};
ghost use Rattle.c_types.specs.Views.{field_of, record_of};
ghost use Rattle.lay_report.specs.Texts.{decision_text, field_line, field_lines, if_placed, part_lines, record_line, test_name};
ghost use Rattle.lay_report.specs.Reports.{laid_out_lines, plain_text, planned_text};
ghost use Rattle.lay_report.specs.Writes.{Writes};

use crate::text::{Text, put, put_all, put_line};
use c_types::{Field, Record};
use itoa::Buffer;
use layout_plan::{Decision, PartField, RecordPlan};
use legality::Test;

fn test_name(test: Test) -> &'static [u8]
    ensures { result.now ≡ test_name test }
{
    match test {
        Test::Cstt => b"CSTT",
        Test::Cstf => b"CSTF",
        Test::Atkn => b"ATKN",
        Test::Libc => b"LIBC",
        Test::Ind => b"IND",
        Test::Mset => b"MSET",
        Test::Nest => b"NEST",
        Test::Size => b"SIZE",
        Test::Objt => b"OBJT",
        Test::Copy => b"COPY",
    }
}

/// The line of a record as it is declared, of that size in bytes.
pub fn put_plain(text: &mut Text, size: u32, r: &Record)
    ensures { Writes text.old text.new (plain_text size (record_of r.now)) }
{
    let mut number = Buffer::new();
    let size = number.format(size).as_bytes();
    put_line(
        text,
        &[
            b"record ",
            r.tag.as_slice(),
            b" size ",
            size,
            b": ",
            b"plain",
        ],
    );
}

fn put_decision(text: &mut Text, place: &[u8], decision: Decision, parts: usize)
    ensures { Writes text.old text.new (decision_text place.now decision parts) }
{
    match decision {
        Decision::Refused(v) => {
            put_all(text, &[b"refused ", test_name(v.test), b" at "]);
            put(text, place);
        }
        Decision::Reordered => put(text, b"reordered"),
        Decision::Split => put(text, b"split"),
        Decision::Peeled => {
            let mut number = Buffer::new();
            put_all(text, &[b"peeled ", number.format(parts).as_bytes()]);
        }
    }
}

fn put_head(text: &mut Text, tag: &[u8], size: u32, place: &[u8], decision: Decision, parts: usize)
    ensures { Writes text.old text.new (record_line tag.now size (decision_text place.now decision parts)) }
{
    let mut number = Buffer::new();
    put_all(
        text,
        &[
            b"record ",
            tag,
            b" size ",
            number.format(size).as_bytes(),
            b": ",
        ],
    );
    put_decision(text, place, decision, parts);
    put(text, b"\n");
}

fn put_field(text: &mut Text, name: &[u8], at: Option<PartField>, hotness: u128)
    ensures { Writes text.old text.new (field_line name.now at hotness) }
{
    let Some(at) = at else {
        put_line(text, &[b"  ", name, b" dead"]);
        return;
    };
    let (mut part, mut offset, mut sum) = (Buffer::new(), Buffer::new(), Buffer::new());
    let part = part.format(at.part).as_bytes();
    let offset = offset.format(at.offset).as_bytes();
    let sum = sum.format(hotness).as_bytes();
    put_line(
        text,
        &[
            b"  ",
            name,
            b" part ",
            part,
            b" offset ",
            offset,
            b" hotness ",
            sum,
        ],
    );
}

fn place_at(places: &[Option<PartField>], number: usize) -> Option<PartField>
    ensures { result ≡ if_placed (slice_get places.now number) }
{
    match places.get(number) {
        Some(at) => *at,
        None => None,
    }
}

fn hotness_at(hotness: &[u128], number: usize) -> u128
    ensures { result ≡ unwrap_or (slice_get hotness.now number) 0 }
{
    match hotness.get(number) {
        Some(sum) => *sum,
        None => 0,
    }
}

fn put_fields(text: &mut Text, fields: &[Field], places: &[Option<PartField>], hotness: &[u128])
    ensures { Writes text.old text.new (field_lines 0 (map field_of fields.now) places.now hotness.now) }
{
    for (number, field) in fields.iter().enumerate() {
        let at = place_at(places, number);
        put_field(text, field.name.as_slice(), at, hotness_at(hotness, number));
    }
}

fn put_part(text: &mut Text, part: usize, size: u32)
    ensures { Writes text.old text.new (part_lines part (size ∷ [])) }
{
    let (mut part_text, mut size_text) = (Buffer::new(), Buffer::new());
    let part = part_text.format(part).as_bytes();
    let size = size_text.format(size).as_bytes();
    put_line(text, &[b"  part ", part, b" size ", size]);
}

fn put_parts(text: &mut Text, sizes: &[u32])
    ensures { Writes text.old text.new (part_lines 0 sizes.now) }
{
    for (part, size) in sizes.iter().enumerate() {
        put_part(text, part, *size);
    }
}

/// The lines of a record by its plan. The file and the line of its violation, if it has one, are `place`.
pub fn put_planned(
    text: &mut Text,
    size: u32,
    r: &Record,
    place: &[u8],
    hotness: &[u128],
    plan: &RecordPlan,
)
    ensures { Writes text.old text.new (planned_text size (record_of r.now) place.now hotness.now plan.now) }
{
    put_head(
        text,
        r.tag.as_slice(),
        size,
        place,
        plan.decision,
        plan.sizes.len(),
    );
    match plan.decision {
        Decision::Refused(_) => {}
        Decision::Reordered | Decision::Split | Decision::Peeled => {
            put_fields(text, r.fields.as_slice(), plan.fields.as_slice(), hotness);
            put_parts(text, plan.sizes.as_slice());
        }
    }
}
