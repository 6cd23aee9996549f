//! Types as text.

use c_types::{IntKind, Ty};
use row_lines::Writer;

pub fn kind_word(kind: IntKind) -> &'static str {
    match kind {
        IntKind::Char => "char",
        IntKind::SChar => "signed-char",
        IntKind::UChar => "unsigned-char",
        IntKind::Short => "short",
        IntKind::UShort => "unsigned-short",
        IntKind::Int => "int",
        IntKind::UInt => "unsigned",
        IntKind::Long => "long",
        IntKind::ULong => "unsigned-long",
    }
}

pub fn put_kind(out: &mut Writer, kind: IntKind) {
    out.word(kind_word(kind));
}

/// A type: `int`, `(* char)`, `(array int 3)`, `(function int int char)` with the result first, `(struct 0)` by its number.
pub fn put_type(out: &mut Writer, t: &Ty) {
    match t {
        Ty::Void => out.word("void"),
        Ty::Int(kind) => put_kind(out, *kind),
        Ty::Pointer(to) => {
            out.open("*");
            put_type(out, to.get());
            out.close();
        }
        Ty::Array(element, length) => {
            out.open("array");
            put_type(out, element.get());
            out.number(*length);
            out.close();
        }
        Ty::Function(result, parameters) => {
            out.open("function");
            put_type(out, result.get());
            for parameter in parameters.get().as_slice() {
                put_type(out, parameter);
            }
            out.close();
        }
        Ty::Record(number) => {
            out.open("struct");
            out.number(*number as u64);
            out.close();
        }
    }
}

/// The type with a number.
pub fn put_type_at(out: &mut Writer, types: &[Ty], number: usize) {
    match types.get(number) {
        Some(t) => put_type(out, t),
        None => out.word("no-type"),
    }
}
