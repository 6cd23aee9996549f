//! The bytes of the data.

ghost use Rattle.std.specs.Prelude.{◌≡◌, ◌+◌, ◌<◌, ◌≤◌, ◌^◌, ◌-◌, ◌++◌, IfOk, length, map, replicate, slice_index, slice_set};
ghost use Rattle.c_meaning.specs.Program.{object_size};
ghost use Rattle.c_typed.specs.Programs.{program_data};
ghost use Rattle.rv_code.specs.Frames.{end_from};
ghost use Rattle.rv_code.specs.Programs.{all_texts_end};
ghost use Rattle.rv_image.specs.Data.{data_of_program, texts_at, put_all_texts, put_bytes, put_initial, put_objects, put_texts, put_values, value_bytes};
ghost use Rattle.rv_runtime.specs.Bytes.{data_bytes};
ghost use Rattle.tac_ir.specs.Code.{code_of, data_of};

use c_typed::{Initial, InitialValue, Object, Typed};
use c_types::width;
use lay_base::{Bytes, NoMemory, append, filled, push};
use rv_code::Places;
use rv_runtime::runtime_data;
use source_values::Types;
use std::alloc::Global;
use tac_ir::{Routine, Tac};

const DATA: u32 = 0x0800_0000;

/// How many bytes each object takes.
pub(crate) fn object_sizes(
    alloc: Global,
    types: &Types<'_>,
    objects: &[Object],
) -> Result<Vec<u32>, NoMemory>
    ensures { IfOk result (λ sizes. sizes.items ≡ map (object_size (program_data types.now)) objects.now) }
{
    let mut sizes = Vec::new(alloc);
    for o in objects {
        let size = match o.initial {
            None => 0,
            Some(_) => types.row(o.ty).size,
        };
        push(&mut sizes, size)?;
    }
    Ok(sizes)
}

/// A byte stands in the segment, where there is one with that index.
fn put_byte(segment: &mut Vec<u8>, at: usize, byte: u8)
    ensures { segment.new.items ≡ slice_set segment.old.items at byte }
{
    if let Some(cell) = segment.get_mut(at) {
        *cell = byte;
    }
}

/// Bytes stand in the data from an index on.
#[tactic(auto, using(crate::proofs::Walks::bytes_more))]
fn put(segment: &mut Vec<u8>, at: usize, bytes: &[u8])
    requires { at < 2 ^ 40 }
    ensures { segment.new.items ≡ put_bytes at bytes.now segment.old.items }
{
    for (k, byte) in bytes.iter().enumerate() {
        put_byte(segment, at + k, *byte);
    }
}

/// The place with that number, or 0.
fn place_at(places: &[u32], n: usize) -> u32
    ensures { result ≡ slice_index places.now n }
{
    match places.get(n) {
        Some(place) => *place,
        None => 0,
    }
}

fn put_value(segment: &mut Vec<u8>, q: &Places, at: usize, value: &InitialValue)
    requires { at < 2 ^ 40 }
    ensures { segment.new.items ≡ put_bytes at (value_bytes q.now value.now) segment.old.items }
{
    match value {
        InitialValue::Number(kind, n) => put(
            segment,
            at,
            &n.to_le_bytes()[..width(*kind) as usize],
        ),
        InitialValue::Address(_, object, offset) => {
            put(
                segment,
                at,
                &place_at(q.objects.as_slice(), *object)
                    .wrapping_add(*offset)
                    .to_le_bytes(),
            )
        }
        InitialValue::Function(_, f) => put(
            segment,
            at,
            &place_at(q.entries.as_slice(), *f).to_le_bytes(),
        ),
    }
}

/// What an object holds at first.
fn put_values(segment: &mut Vec<u8>, q: &Places, at: u32, values: &[Initial])
    ensures { segment.new.items ≡ put_values q.now at values.now segment.old.items }
{
    for i in values {
        put_value(segment, q, at as usize + i.offset as usize, &i.value);
    }
}

/// What an object holds at first.
fn put_initial(segment: &mut Vec<u8>, q: &Places, at: u32, o: &Object)
    ensures { segment.new.items ≡ put_initial q.now at o.now.initial segment.old.items }
{
    if let Some(values) = &o.initial {
        put_values(segment, q, at, values.as_slice());
    }
}

/// What objects hold at first, each at its place.
#[tactic(auto, using(crate::proofs::Walks::objects_more))]
fn put_objects(segment: &mut Vec<u8>, q: &Places, objects: &[Object])
    requires { length q.now.objects ≡ length objects.now }
    ensures { segment.new.items ≡ put_objects q.now objects.now q.now.objects segment.old.items }
{
    let places = q.objects.as_slice();
    for (i, o) in objects.iter().enumerate() {
        put_initial(segment, q, places[i].saturating_sub(DATA), o);
    }
}

/// The texts of a function, and the place behind them.
#[tactic(auto, using(crate::proofs::Walks::place_fits, crate::proofs::Walks::text_fits))]
fn put_texts(segment: &mut Vec<u8>, at: u64, texts: &[Bytes]) -> u64
    requires { end_from at (map length texts.now) < 2 ^ 32 }
    ensures bytes { segment.new.items ≡ put_texts at texts.now segment.old.items }
    ensures end { result ≡ end_from at (map length texts.now) }
{
    let mut at = at;
    for text in texts {
        put(
            segment,
            at.saturating_sub(u64::from(DATA)) as usize,
            text.as_slice(),
        );
        at += (text.len() as u64 + 3) / 4 * 4;
    }
    at
}

/// The texts of all functions.
#[tactic(auto, using(crate::proofs::Walks::texts_fit))]
fn put_all_texts(segment: &mut Vec<u8>, at: u64, routines: &[Routine])
    requires { all_texts_end at (map data_of routines.now) < 2 ^ 32 }
    ensures { segment.new.items ≡ put_all_texts at (map data_of routines.now) segment.old.items }
{
    let mut at = at;
    for g in routines {
        at = put_texts(segment, at, g.texts.as_slice());
    }
}

/// The place behind the texts of a function.
#[tactic(auto, using(crate::proofs::Walks::text_fits))]
fn texts_end(at: u64, texts: &[Bytes]) -> u64
    requires { end_from at (map length texts.now) < 2 ^ 32 }
    ensures { result ≡ end_from at (map length texts.now) }
{
    let mut at = at;
    for text in texts {
        at += (text.as_slice().len() as u64 + 3) / 4 * 4;
    }
    at
}

/// The place behind the texts of all functions.
#[tactic(auto, using(crate::proofs::Walks::texts_fit))]
fn all_texts_end(at: u64, routines: &[Routine]) -> u64
    requires { all_texts_end at (map data_of routines.now) < 2 ^ 32 }
    ensures { result ≡ all_texts_end at (map data_of routines.now) }
{
    let mut at = at;
    for g in routines {
        at = texts_end(at, g.texts.as_slice());
    }
    at
}

/// The runtime's own data, and zeros up to a size.
fn empty_data(alloc: Global, size: u64, heap_end: u32) -> Result<Vec<u8>, NoMemory>
    ensures { IfOk result (λ bytes. bytes.items ≡ data_bytes heap_end ++ replicate (size - 256) 0) }
{
    let zeros = filled(alloc, 0, size.saturating_sub(256) as usize)?;
    let mut bytes = runtime_data(alloc, heap_end)?;
    append(&mut bytes, zeros.as_slice())?;
    Ok(bytes)
}

/// The data of a program whose texts lie from a place on.
pub(crate) fn data(
    alloc: Global,
    p: &Typed,
    t: &Tac,
    q: &Places,
    texts: u64,
    heap_end: u32,
) -> Result<Vec<u8>, NoMemory>
    requires each { length q.now.objects ≡ length p.now.objects }
    requires texts { texts ≡ texts_at (program_data p.now) }
    requires small { all_texts_end texts (code_of t.now).routines < 2 ^ 32 }
    ensures { IfOk result (λ bytes. bytes.items ≡ data_of_program (program_data p.now) (code_of t.now) q.now heap_end) }
{
    let routines = t.routines.as_slice();
    let end = all_texts_end(texts, routines);
    let size = (end.saturating_sub(u64::from(DATA)) + 15) / 16 * 16;
    let mut bytes = empty_data(alloc, size, heap_end)?;
    put_objects(&mut bytes, q, p.objects.as_slice());
    put_all_texts(&mut bytes, texts, routines);
    Ok(bytes)
}
