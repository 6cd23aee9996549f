//! Steps as text.

use crate::operand_text::{
    put_access, put_numbered, put_operand, put_row, put_target, put_temporary,
};
use crate::operator_text::{binary_text, compare_text, library_text, pointer_text, unary_text};
use crate::type_text::{kind_word, put_kind};
use refusals::undefined_name;
use row_lines::Writer;
use tac_ir::{Operand, Row, Step};

/// `t3 = WORD`, where the temporary takes what the step gives.
fn begin(out: &mut Writer, t: u32, word: &str) {
    put_temporary(out, t);
    out.word("=");
    out.word(word);
}

/// `t3 = WORD a b`.
fn put_two(out: &mut Writer, t: u32, word: &str, a: Operand, b: Operand) {
    begin(out, t, word);
    put_operand(out, a);
    put_operand(out, b);
}

fn put_one(out: &mut Writer, t: u32, word: &str, a: Operand) {
    begin(out, t, word);
    put_operand(out, a);
}

/// A word and numbers behind it.
fn put_numbers(out: &mut Writer, word: &str, numbers: &[u32]) {
    out.word(word);
    for n in numbers {
        out.number(u64::from(*n));
    }
}

fn put_when(out: &mut Writer, when: bool) {
    out.word(if when { "if" } else { "unless" });
}

fn put_called(out: &mut Writer, t: u32, word: &str, all: Row) {
    begin(out, t, word);
    put_row(out, all);
}

/// Steps that reckon with values.
fn put_value(out: &mut Writer, step: Step) {
    match step {
        Step::Set(t, a) => {
            put_temporary(out, t);
            out.word("=");
            put_operand(out, a);
        }
        Step::Clear(t) => begin(out, t, "nothing"),
        Step::Unary(t, _, op, a) => put_one(out, t, unary_text(op), a),
        Step::Not(t, a) => put_one(out, t, "!", a),
        Step::Convert(t, _, kind, a) => put_one(out, t, kind_word(kind), a),
        Step::AsPointer(t, _, a) => put_one(out, t, "pointer", a),
        Step::Number(t, _, a) => put_one(out, t, "number", a),
        Step::Binary(t, _, op, kind, _, a, b) => {
            put_two(out, t, binary_text(op), a, b);
            put_kind(out, kind);
        }
        Step::Compare(t, _, op, kind, a, b) => {
            put_two(out, t, compare_text(op), a, b);
            put_kind(out, kind);
        }
        Step::Move(t, _, op, size, _, _, a, b) => {
            put_two(out, t, pointer_text(op), a, b);
            put_numbers(out, "times", &[size]);
        }
        Step::Distance(t, _, size, a, b) => {
            put_two(out, t, "distance", a, b);
            put_numbers(out, "by", &[size]);
        }
        Step::Update(t, _, op, size, _, _, a, b) => {
            put_two(out, t, binary_text(op), a, b);
            put_numbers(out, "update", &[size]);
        }
        _ => put_place(out, step),
    }
}

/// Steps on places in memory.
fn put_place(out: &mut Writer, step: Step) {
    match step {
        Step::Field(t, _, by, a) => {
            put_one(out, t, "field", a);
            out.number(u64::from(by));
        }
        Step::ElementField(t, _, size, _, by, a, b) => {
            put_two(out, t, "element-field", a, b);
            put_numbers(out, "times", &[size, by]);
        }
        Step::Element(t, _, length, size, _, _, a, b) => {
            put_two(out, t, "element", a, b);
            put_numbers(out, "of", &[length, size]);
        }
        Step::Part(t, _, by, a) => {
            put_one(out, t, "part", a);
            out.number(u64::from(by));
        }
        Step::Inside(t, _, x, by) => {
            begin(out, t, "inside");
            put_temporary(out, x);
            out.number(u64::from(by));
        }
        Step::Load(t, _, access, a) => {
            put_one(out, t, "load", a);
            put_access(out, access);
        }
        Step::Store(_, access, a, b) => {
            out.word("store");
            put_operand(out, a);
            put_operand(out, b);
            put_access(out, access);
        }
        Step::CopyRecord(_, size, a, b) => {
            out.word("copy");
            put_operand(out, a);
            put_operand(out, b);
            out.number(u64::from(size));
        }
        _ => put_way(out, step),
    }
}

/// Jumps and calls.
fn put_way(out: &mut Writer, step: Step) {
    match step {
        Step::Jump(to) => put_target(out, to),
        Step::Branch(when, a, to) => {
            put_when(out, when);
            put_operand(out, a);
            put_target(out, to);
        }
        Step::Test(_, op, kind, when, a, b, to) => {
            put_when(out, when);
            out.word(compare_text(op));
            put_operand(out, a);
            put_operand(out, b);
            put_kind(out, kind);
            put_target(out, to);
        }
        Step::Case(n, a, to) => {
            put_numbers(out, "case", &[n]);
            put_operand(out, a);
            put_target(out, to);
        }
        Step::Call(t, _, f, all) => {
            begin(out, t, "call");
            put_numbered(out, "f", f as u64);
            put_row(out, all);
        }
        Step::CallThrough(t, _, _, a, all) => {
            put_one(out, t, "call", a);
            put_row(out, all);
        }
        Step::Library(t, _, which, all) => put_called(out, t, library_text(which), all),
        Step::Allocate(t, _, record, size, zeroed, a) => {
            put_one(
                out,
                t,
                if zeroed { "allocate-zeros" } else { "allocate" },
                a,
            );
            out.word("records");
            out.number(record as u64);
            out.number(u64::from(size));
        }
        _ => put_local(out, step),
    }
}

/// Blocks of locals, and the ends of functions.
fn put_local(out: &mut Writer, step: Step) {
    match step {
        Step::Begin(x, size) => put_numbers(out, "begin", &[x, size]),
        Step::End(x) => put_numbers(out, "end", &[x]),
        Step::Forget(x, size) => put_numbers(out, "forget", &[x, size]),
        Step::Zeros(x, size) => put_numbers(out, "zeros", &[x, size]),
        Step::Text(x, by, n) => {
            put_numbers(out, "text", &[x, by]);
            out.number(n as u64);
        }
        Step::Began(f, l) => {
            out.word("loop");
            out.number(f as u64);
            out.number(u64::from(l));
        }
        Step::Return(None) => out.word("return"),
        Step::Return(Some(a)) => {
            out.word("return");
            put_operand(out, a);
        }
        Step::ReturnHeld(t) => {
            out.word("return-held");
            put_temporary(out, t);
        }
        Step::Fail(kind, _) => {
            out.word("undefined");
            out.bytes(undefined_name(kind));
        }
        _ => {}
    }
}

/// A step, without the places and the kinds of what is undefined in its operands.
pub fn put_step(out: &mut Writer, step: Step) {
    put_value(out, step);
}
