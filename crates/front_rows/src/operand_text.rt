//! Operands and targets as text.

use crate::type_text::put_kind;
use block_memory::Access;
use itoa::Buffer;
use row_lines::Writer;
use tac_ir::{Operand, Row, Target};

/// A temporary, as `t3`; the locals of a function are its first.
pub fn put_temporary(out: &mut Writer, t: u32) {
    put_numbered(out, "t", u64::from(t));
}

/// A letter with a number behind it.
pub fn put_numbered(out: &mut Writer, letter: &str, number: u64) {
    out.word(letter);
    out.add(Buffer::new().format(number).as_bytes());
}

/// `5`, `null`, `f1` for a function, `o2` for an object, `t3` for a temporary.
pub fn put_operand(out: &mut Writer, a: Operand) {
    match a {
        Operand::Word(n) => out.number(u64::from(n)),
        Operand::Null => out.word("null"),
        Operand::Function(f) => put_numbered(out, "f", f as u64),
        Operand::Object(n) => put_numbered(out, "o", n as u64),
        Operand::Temp(_, t, _) => put_temporary(out, t),
    }
}

/// The temporaries of a call's arguments, as `(t3 t4)`.
pub fn put_row(out: &mut Writer, row: Row) {
    out.word("(");
    for k in 0..row.count {
        put_temporary(out, row.first.saturating_add(k));
    }
    out.close();
}

/// `-> 7` to where so many steps are left, `-> l0` to a label.
pub fn put_target(out: &mut Writer, to: Target) {
    out.word("->");
    match to {
        Target::Left(n) => out.number(n as u64),
        Target::Label(l) => put_numbered(out, "l", l as u64),
    }
}

/// What is loaded or stored.
pub fn put_access(out: &mut Writer, access: Access) {
    match access {
        Access::Number(kind) => put_kind(out, kind),
        Access::Pointer(_) => out.word("*"),
    }
}
