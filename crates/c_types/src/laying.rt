//! The layout of one more record, by the layouts of those before it.

ghost use Rattle.std.specs.Prelude.{◌≡◌, ◌≤◌, ◌<◌, ◌-◌, ◌^◌, IsTrue, IfOk, fold, length, min};
ghost use Rattle.std.specs.Int.{next_multiple_of};
ghost use Rattle.c_types.specs.Laying.{AreAligned, AreBounded, AreObjects, LayoutGives};
ghost use Rattle.c_types.specs.Layouts.{begin_after, end_after, greatest_alignment, layout, offsets_after, size_in};
ghost use Rattle.c_types.specs.Limits.{greatest_size};
ghost use Rattle.c_types.specs.Objects.{is_object};
ghost use Rattle.c_types.specs.Views.{types_of_fields, type_of};

use crate::fault::RecordFault;
use crate::layout::{GREATEST_SIZE, Layout, alignment_in, size_in};
use crate::record::Field;
use crate::ty::Ty;
use lay_base::{List, NoMemory, add};
use std::alloc::Global;

/// The least multiple of a unit from a number on, or `u64::MAX` where it passes that.
fn next_multiple(n: u64, unit: u32) -> u64
    requires { 0 < unit }
    ensures { result ≡ min (next_multiple_of n unit) (2 ^ 64 - 1) }
{
    let unit = u64::from(unit);
    n.saturating_add((unit - n % unit) % unit)
}

/// Where an object begins and ends that follows other bytes. A number is `u64::MAX` where it passes that.
#[derive(Drop)]
struct Span {
    begin: u64,
    end: u64,
}

/// Where an object lies that follows so many bytes.
#[tactic(auto, using(crate::proofs::Alignments::alignment_positive))]
fn span_after(known: &[Layout], before: u64, t: &Ty) -> Span
    requires aligned { AreAligned known.now }
    requires object { IsTrue (is_object (length known.now) (type_of t.now)) }
    requires bounded { size_in known.now (type_of t.now) ≤ greatest_size }
    ensures begin { result.begin ≡ min (begin_after known.now before (type_of t.now)) (2 ^ 64 - 1) }
    ensures end { result.end ≡ min (end_after known.now before (type_of t.now)) (2 ^ 64 - 1) }
{
    let begin = next_multiple(before, alignment_in(known, t));
    Span {
        begin,
        end: begin.saturating_add(u64::from(size_in(known, t))),
    }
}

/// Where the fields end, or `u64::MAX` where that is past it.
fn end(known: &[Layout], fields: &[Field]) -> u64
    requires aligned { AreAligned known.now }
    requires objects { AreObjects (length known.now) fields.now }
    requires bounded { AreBounded known.now fields.now }
    ensures { result ≡ min (fold (end_after known.now) 0 (types_of_fields fields.now)) (2 ^ 64 - 1) }
{
    let mut end = 0;
    for field in fields {
        end = span_after(known, end, &field.ty).end;
    }
    end
}

/// The greatest alignment of the fields, and 1 of none.
#[tactic(auto, using(crate::proofs::Alignments::greatest_positive))]
fn greatest_alignment(known: &[Layout], fields: &[Field]) -> u32
    requires { AreObjects (length known.now) fields.now }
    ensures { result ≡ greatest_alignment known.now (types_of_fields fields.now) }
{
    let mut greatest = 1;
    for field in fields {
        greatest = greatest.max(alignment_in(known, &field.ty));
    }
    greatest
}

/// Where each field begins.
fn offsets(alloc: Global, known: &[Layout], fields: &[Field]) -> Result<List<u32>, NoMemory>
    requires aligned { AreAligned known.now }
    requires objects { AreObjects (length known.now) fields.now }
    requires bounded { AreBounded known.now fields.now }
    requires ends { fold (end_after known.now) 0 (types_of_fields fields.now) ≤ greatest_size }
    ensures { IfOk result (λ offsets. offsets ≡ offsets_after known.now 0 (types_of_fields fields.now)) }
{
    let mut offsets = List::new(alloc);
    let mut end = 0;
    for field in fields {
        let span = span_after(known, end, &field.ty);
        add(&mut offsets, span.begin as u32)?;
        end = span.end;
    }
    Ok(offsets)
}

/// The layout of one more record, from its fields.
#[tactic(auto, using(crate::proofs::Alignments::greatest_positive, crate::proofs::Ends::capped_multiple, crate::proofs::Ends::next_multiple_from))]
pub fn layout_after(
    alloc: Global,
    known: &[Layout],
    fields: &[Field],
) -> Result<Layout, RecordFault>
    requires aligned { AreAligned known.now }
    requires objects { AreObjects (length known.now) fields.now }
    requires bounded { AreBounded known.now fields.now }
    ensures { LayoutGives (layout known.now (types_of_fields fields.now)) result }
{
    let alignment = greatest_alignment(known, fields);
    let size = next_multiple(end(known, fields), alignment);
    if size > GREATEST_SIZE {
        return Err(RecordFault::TooBig(size));
    }
    let offsets = offsets(alloc, known, fields).map_err(RecordFault::Memory)?;
    Ok(Layout {
        offsets,
        size: size as u32,
        alignment,
    })
}
