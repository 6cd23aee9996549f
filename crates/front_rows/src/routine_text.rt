//! The code of a program as text.

ghost use Rattle.std.specs.Prelude.{◌<◌, ◌^◌};
ghost use Rattle.c_typed.specs.Programs.{program_data};
ghost use Rattle.lower_tac.specs.Asked.{asked_by_functions};
ghost use Rattle.source_values.specs.Rows.{TypesAreSmall};

use crate::operand_text::put_numbered;
use crate::step_text::put_step;
use c_typed::Typed;
use lower_tac::lower;
use row_lines::Writer;
use std::alloc::Global;
use tac_ir::{Routine, Tac};

/// The steps of a function, each with how many are left, and how many are left at each label.
fn put_routine(out: &mut Writer, routine: &Routine) {
    let mut left = routine.code.len();
    for step in routine.code.as_slice().iter().rev() {
        out.add(b"\n");
        out.number(left as u64);
        out.add(b":");
        put_step(out, *step);
        left = left.saturating_sub(1);
    }
    for (label, at) in routine.labels.as_slice().iter().enumerate() {
        out.add(b"\n");
        put_numbered(out, "l", label as u64);
        out.word("->");
        out.number(*at as u64);
    }
}

/// The functions that have a body, in the order of the program.
fn put_routines(out: &mut Writer, program: &Typed, code: &Tac) {
    for (function, routine) in program
        .functions
        .as_slice()
        .iter()
        .zip(code.routines.as_slice())
    {
        if !routine.code.as_slice().is_empty() {
            out.open_line("");
            out.add(function.name.as_slice());
            for block in routine.locals.as_slice() {
                out.word(if *block { "block" } else { "name" });
            }
            put_routine(out, routine);
            out.close();
        }
    }
}

pub fn put_code(out: &mut Writer, alloc: Global, program: &Typed)
    requires asked { asked_by_functions (program_data program.now).functions < 2 ^ 32 }
    requires small { TypesAreSmall (program_data program.now) }
{
    match lower(alloc, program) {
        Ok(code) => put_routines(out, program, &code),
        Err(_) => out.word("out of memory"),
    }
}
