//! The limits of a program: its nodes, the fields of its structures, and the bytes of its objects and of the strings that initialize its locals.

ghost use Rattle.std.specs.Prelude.{◌≡◌, ◌+◌, ◌≤◌, ◌^◌, All, IfOk, fold, length, map, get_or};
ghost use Rattle.std.specs.Option.{option_map};
ghost use Rattle.c_link.specs.Counting.{AreLocalsMeasured, AreMeasured, IsMeasured, passed_of};
ghost use Rattle.c_link.specs.Gaps.{first_limit, first_past, limits, local_bytes, object_bytes, or_limit, past_alone};
ghost use Rattle.c_typed.specs.Programs.{data_of, program_data};
ghost use Rattle.c_types.specs.Layouts.{size_of};
ghost use Rattle.c_types.specs.Types.{void};
ghost use Rattle.c_types.specs.Views.{records_of, type_of};

use crate::initial_texts::texts_in_functions;
use c_typed::{Function, Local, Object, Typed};
use c_types::{Record, Records, Ty, size_of};
use lay_base::{LimitKind, NoMemory};
use std::alloc::Global;

/// A limit that is passed, and the number that passes it.
#[derive(Clone, Copy)]
pub struct Passed {
    pub which: LimitKind,
    pub counted: u128,
}

fn past_alone(most: u128, count: u128) -> Option<u128>
    ensures { result ≡ past_alone most count }
{
    if count > most { Some(count) } else { None }
}

/// The number of fields of the first record that has more than are allowed.
fn fields_past(records: &[Record]) -> Option<u128>
    ensures { result ≡ first_past 64 (map (λ r. length r.fields) (records_of records.now)) }
{
    for r in records {
        let count = r.fields.len() as u128;
        if count > 64 {
            return Some(count);
        }
    }
    None
}

/// The size of the type with a number.
fn size_of_number(records: &Records, types: &[Ty], number: usize) -> u32
    requires { IsMeasured (records_of records.now) (get_or (map type_of types.now) number void) }
    ensures value { result ≡ size_of (records_of records.now) (get_or (map type_of types.now) number void) }
    ensures small { result ≤ 2 ^ 24 }
{
    match types.get(number) {
        Some(t) => size_of(records, t),
        None => 0,
    }
}

/// The bytes of locals, and others before them.
fn with_locals(p: &Typed, start: u128, locals: &[Local]) -> u128
    requires measured { All (λ l. IsMeasured (records_of p.now.records) (get_or (map type_of p.now.types) l.ty void)) locals.now }
    requires fits { start ≤ 2 ^ 88 }
    ensures value { result ≡ fold (λ n l. n + size_of (records_of p.now.records) (get_or (map type_of p.now.types) l.ty void)) start locals.now }
    ensures fits { result ≤ start + 2 ^ 87 }
{
    let mut bytes = start;
    for l in locals {
        bytes += u128::from(size_of_number(&p.records, p.types.as_slice(), l.ty));
    }
    bytes
}

/// The bytes of a function's parameters and locals.
fn local_bytes(p: &Typed, f: &Function) -> u128
    requires { AreLocalsMeasured (program_data p.now) (data_of f.now) }
    ensures { result ≡ local_bytes (program_data p.now) (data_of f.now) }
{
    let bytes = with_locals(p, 0, f.parameters.as_slice());
    with_locals(p, bytes, f.locals.as_slice())
}

/// The bytes of the locals of the first function that has more than are allowed.
fn frame_past(p: &Typed, functions: &[Function]) -> Option<u128>
    requires { All (λ f. AreLocalsMeasured (program_data p.now) (data_of f)) functions.now }
    ensures { result ≡ first_past 16777216 (map (local_bytes (program_data p.now)) (map data_of functions.now)) }
{
    for f in functions {
        let bytes = local_bytes(p, f);
        if bytes > 16_777_216 {
            return Some(bytes);
        }
    }
    None
}

/// The bytes of all objects, each rounded up to a multiple of 4.
fn object_bytes(p: &Typed, objects: &[Object]) -> u128
    requires { All (λ o. IsMeasured (records_of p.now.records) (get_or (map type_of p.now.types) o.ty void)) objects.now }
    ensures value { result ≡ fold (λ n o. n + object_bytes (program_data p.now) o) 0 objects.now }
    ensures fits { result ≤ 2 ^ 88 }
{
    let mut bytes: u128 = 0;
    for o in objects {
        if o.initial.is_some() {
            let size = size_of_number(&p.records, p.types.as_slice(), o.ty);
            bytes += u128::from(size.next_multiple_of(4));
        }
    }
    bytes
}

/// A limit that is passed, where a number passes it, or a later one.
fn first_of(which: LimitKind, counted: Option<u128>, later: Option<Passed>) -> Option<Passed>
    ensures { option_map passed_of result ≡ or_limit which counted (option_map passed_of later) }
{
    match counted {
        Some(counted) => Some(Passed { which, counted }),
        None => later,
    }
}

/// The first limit that a program passes.
pub fn limit_past(alloc: Global, p: &Typed) -> Result<Option<Passed>, NoMemory>
    requires { AreMeasured (program_data p.now) }
    ensures { IfOk result (λ it. option_map passed_of it ≡ first_limit (program_data p.now) limits) }
{
    let texts = texts_in_functions(alloc, p.functions.as_slice())?;
    let bytes = object_bytes(p, p.objects.as_slice()) + texts;
    let globals = first_of(LimitKind::Globals, past_alone(16_777_216, bytes), None);
    let frame = frame_past(p, p.functions.as_slice());
    let frame = first_of(LimitKind::Frame, frame, globals);
    let fields = first_of(LimitKind::Fields, fields_past(p.records.as_slice()), frame);
    Ok(first_of(LimitKind::Nodes, past_alone(131_072, p.nodes), fields))
}
