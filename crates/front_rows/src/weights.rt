//! How often the fields of a program's records are accessed, without a profile, as text.

use affinity::{FieldWeights, Weights, field_weights, weigh};
use c_facts::facts;
use c_typed::Typed;
use c_types::{Field, Record};
use lay_base::NoMemory;
use row_lines::Writer;
use std::alloc::Global;

fn weights_of(alloc: Global, program: &Typed) -> Result<Weights, NoMemory> {
    let all = facts(alloc, program)?;
    weigh(alloc, all.as_slice(), None)
}

/// The affinity of a field to each one.
fn put_affinities(out: &mut Writer, w: &FieldWeights, one: usize, fields: usize) {
    for other in 0..fields {
        out.value(&w.affinity(one, other));
    }
}

/// Each field by its name, whether it is read, how hot it is, and its affinity to each one, itself too.
fn put_fields(out: &mut Writer, w: &FieldWeights, fields: &[Field]) {
    for (number, field) in fields.iter().enumerate() {
        out.bytes(field.name.as_slice());
        out.word(if w.is_read(number) { "read" } else { "dead" });
        out.value(&w.hotness(number));
        put_affinities(out, w, number, fields.len());
    }
}

fn put_records(out: &mut Writer, alloc: Global, w: &Weights, records: &[Record]) {
    for (number, record) in records.iter().enumerate() {
        out.bytes(record.tag.as_slice());
        let fields = record.fields.as_slice();
        match field_weights(alloc, w, number, fields.len()) {
            Ok(weights) => put_fields(out, &weights, fields),
            Err(_) => out.word("out of memory"),
        }
    }
}

/// Each record by its tag, and how often its fields are accessed.
pub fn put_weights(out: &mut Writer, alloc: Global, program: &Typed) {
    match weights_of(alloc, program) {
        Ok(w) => put_records(out, alloc, &w, program.records.as_slice()),
        Err(_) => out.word("out of memory"),
    }
}
