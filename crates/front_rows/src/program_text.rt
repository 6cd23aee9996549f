//! Programs as text: their parts on lines of their own, after the word for each, in parentheses.

ghost use Rattle.std.specs.Prelude.{◌<◌, ◌^◌};
ghost use Rattle.c_typed.specs.Programs.{program_data};
ghost use Rattle.lower_tac.specs.Asked.{asked_by_functions};
ghost use Rattle.source_values.specs.Rows.{TypesAreSmall};

use crate::type_text::{put_kind, put_type, put_type_at};
use c_typed::{
    Function, Initial, InitialValue, Local, Mention, MentionKind, Object, Statement, Typed,
};
use c_types::{Field, Record, Ty};
use c_walks::{Nodes, Reference, walk_statement};
use lay_base::{List, Place};
use lower_tac::lower;
use row_lines::Writer;
use std::alloc::Global;
use tac_ir::{Operand, Routine, Step, Tac};

fn put_place(out: &mut Writer, place: Place) {
    out.number(u64::from(place.file));
    out.number(u64::from(place.at));
}

fn put_field(out: &mut Writer, field: &Field) {
    out.open("field");
    out.bytes(field.name.as_slice());
    put_type(out, &field.ty);
    out.close();
}

fn put_record(out: &mut Writer, record: &Record) {
    out.open_line("struct");
    out.bytes(record.tag.as_slice());
    put_place(out, record.place);
    for field in record.fields.as_slice() {
        put_field(out, field);
    }
    out.close();
}

fn put_value(out: &mut Writer, types: &[Ty], initial: &Initial) {
    out.open("at");
    out.number(u64::from(initial.offset));
    match initial.value {
        InitialValue::Number(kind, value) => {
            put_kind(out, kind);
            out.number(u64::from(value));
        }
        InitialValue::Address(ty, object, offset) => {
            put_type_at(out, types, ty);
            put_reference(out, Reference::Object(object));
            out.number(u64::from(offset));
        }
        InitialValue::Function(ty, function) => {
            put_type_at(out, types, ty);
            put_reference(out, Reference::Function(function));
        }
    }
    out.close();
}

fn put_reference(out: &mut Writer, reference: Reference) {
    match reference {
        Reference::Object(number) => {
            out.word("object");
            out.number(number as u64);
        }
        Reference::Function(number) => {
            out.word("function");
            out.number(number as u64);
        }
    }
}

/// Whether other files can name it.
fn put_linkage(out: &mut Writer, is_linked: bool) {
    out.word(if is_linked { "linked" } else { "own" });
}

fn put_initial(out: &mut Writer, types: &[Ty], initial: &Option<List<Initial>>) {
    match initial {
        None => out.word("declared"),
        Some(values) => {
            out.word("defined");
            for value in values.as_slice() {
                put_value(out, types, value);
            }
        }
    }
}

fn put_object(out: &mut Writer, types: &[Ty], object: &Object) {
    out.open_line(if object.text { "string" } else { "object" });
    out.bytes(object.name.as_slice());
    put_place(out, object.place);
    put_type_at(out, types, object.ty);
    put_linkage(out, object.linked);
    put_initial(out, types, &object.initial);
    out.close();
}

fn put_locals(out: &mut Writer, types: &[Ty], head: &str, locals: &[Local]) {
    for local in locals {
        out.open(head);
        out.bytes(local.name.as_slice());
        put_type_at(out, types, local.ty);
        out.word(if local.block { "block" } else { "name" });
        out.close();
    }
}

fn put_references(out: &mut Writer, references: &[Reference]) {
    out.open("uses");
    for reference in references {
        put_reference(out, *reference);
    }
    out.close();
}

/// The records that a function allocates, in the order of its code: their number in the program, whether more than one is asked for, and whether
/// they are zero.
fn put_allocations(out: &mut Writer, code: &Routine) {
    for step in code.code.as_slice().iter().rev() {
        if let Step::Allocate(_, _, record, _, is_zero, count) = *step {
            out.open("allocates");
            out.number(record as u64);
            if !matches!(count, Operand::Word(1)) {
                out.word("counted");
            }
            if is_zero {
                out.word("zero");
            }
            out.close();
        }
    }
}

/// What a body refers to, and what it allocates.
fn put_body(out: &mut Writer, alloc: Global, body: &Statement, code: &Routine) {
    let mut found = Nodes::new(alloc);
    match walk_statement(&mut found, body) {
        Ok(()) => put_references(out, found.references.as_slice()),
        Err(_) => out.word("no-memory"),
    }
    put_allocations(out, code);
}

fn put_function(
    out: &mut Writer,
    alloc: Global,
    types: &[Ty],
    function: &Function,
    code: &Routine,
) {
    out.open_line("function");
    out.bytes(function.name.as_slice());
    put_place(out, function.place);
    put_type_at(out, types, function.ty);
    put_linkage(out, function.linked);
    put_locals(out, types, "parameter", function.parameters.as_slice());
    put_locals(out, types, "local", function.locals.as_slice());
    match &function.body {
        None => out.word("declared"),
        Some(body) => put_body(out, alloc, body, code),
    }
    out.number(function.nodes);
    out.close();
}

fn mention_word(kind: MentionKind) -> &'static str {
    match kind {
        MentionKind::Object => "of-object",
        MentionKind::Named => "of-name",
        MentionKind::Sizeof => "of-sizeof",
        MentionKind::Used => "of-function-used",
        MentionKind::From => "of-pointer-from",
        MentionKind::To => "of-pointer-to",
        MentionKind::Field => "of-record-with-field",
    }
}

fn put_mention(out: &mut Writer, types: &[Ty], mention: &Mention) {
    out.open_line(mention_word(mention.kind));
    put_type_at(out, types, mention.ty);
    put_place(out, mention.place);
    out.close();
}

fn put_records(out: &mut Writer, records: &[Record]) {
    for record in records {
        put_record(out, record);
    }
}

fn put_types(out: &mut Writer, types: &[Ty]) {
    out.open_line("types");
    for t in types {
        put_type(out, t);
    }
    out.close();
}

fn put_objects(out: &mut Writer, types: &[Ty], objects: &[Object]) {
    for object in objects {
        put_object(out, types, object);
    }
}

fn put_functions(out: &mut Writer, alloc: Global, p: &Typed, code: &Tac) {
    for (function, code) in p.functions.as_slice().iter().zip(code.routines.as_slice()) {
        put_function(out, alloc, p.types.as_slice(), function, code);
    }
}

fn put_mentions(out: &mut Writer, types: &[Ty], mentions: &[Mention]) {
    for mention in mentions {
        put_mention(out, types, mention);
    }
}

pub fn put_program(out: &mut Writer, alloc: Global, p: &Typed)
    requires asked { asked_by_functions (program_data p.now).functions < 2 ^ 32 }
    requires small { TypesAreSmall (program_data p.now) }
{
    let types = p.types.as_slice();
    put_records(out, p.records.as_slice());
    put_types(out, types);
    put_objects(out, types, p.objects.as_slice());
    match lower(alloc, p) {
        Ok(code) => put_functions(out, alloc, p, &code),
        Err(_) => out.word("out of memory"),
    }
    put_mentions(out, types, p.mentions.as_slice());
    out.open_line("main");
    out.number(p.main as u64);
    out.value(&p.nodes);
    out.close();
}
