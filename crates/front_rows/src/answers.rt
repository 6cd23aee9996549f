//! What becomes of the files of a row, as text.

ghost use Rattle.std.specs.Prelude.{◌≤◌, All, IsTrue, length};
ghost use Rattle.c_link.specs.Programs.{IsProgramOf};
ghost use Rattle.c_typed.specs.Programs.{program_data};

use crate::faults::{Spots, put_fault};
use crate::plans::put_report;
use crate::program_text::put_program;
use crate::routine_text::put_code;
use crate::row::{Question, Row};
use crate::verdicts::put_verdicts;
use crate::weights::put_weights;
use c_typed::Typed;
use code_bounds::{few_are_asked, types_are_small};
use lay_base::{File, Files};
use lay_compile::{CompileFault, Gap, front};
use row_lines::Writer;
use std::alloc::Global;
use std::io::{self, Write};

/// Whether there are at most 64 files, of at most 4 MiB each.
pub fn are_within_bounds(files: &[File]) -> bool
    ensures { IsTrue result → (length files.now ≤ 64) × All (λ file. length file.bytes ≤ 4194304) files.now }
{
    files.len() <= 64 && files.iter().all(|file| file.bytes.len() <= 4_194_304)
}

fn put_of_program(out: &mut Writer, alloc: Global, row: &Row, files: &[File], program: &Typed)
    requires program { IsProgramOf files.now (program_data program.now) }
    requires short { All (λ file. length file.bytes ≤ 4194304) files.now }
{
    few_are_asked();
    types_are_small(program);
    let places = row.places.as_slice();
    match row.question {
        Question::Check => out.word("accepted"),
        Question::Link => out.word("program"),
        Question::Show => put_program(out, alloc, program),
        Question::Code => put_code(out, alloc, program),
        Question::Judge => put_verdicts(out, alloc, Spots { files, places }, program),
        Question::Weigh => put_weights(out, alloc, program),
        Question::Plan => put_report(out, alloc, files, program, None),
    }
}

/// Whether each file has its unit, though they are no program.
fn has_units(fault: &CompileFault) -> bool {
    match fault {
        CompileFault::Joining(gap) => !matches!(gap, Gap::Memory(_)),
        _ => false,
    }
}

fn put_of_fault(out: &mut Writer, row: &Row, files: &[File], fault: &CompileFault) {
    if row.question == Question::Check && has_units(fault) {
        return out.word("accepted");
    }
    let places = row.places.as_slice();
    put_fault(out, Spots { files, places }, fault);
}

fn put_of_files(out: &mut Writer, alloc: Global, row: &Row, files: &Files) {
    if !are_within_bounds(files.as_slice()) {
        return out.word("too many files or bytes");
    }
    match front(alloc, files) {
        Ok(program) => put_of_program(out, alloc, row, files.as_slice(), &program),
        Err(fault) => put_of_fault(out, row, files.as_slice(), &fault),
    }
}

/// Writes the name of a row, and what becomes of its files.
pub fn put_answer<W: Write>(
    alloc: Global,
    row: &Row,
    files: &Files,
    output: &mut W,
) -> io::Result<()> {
    let mut text = Writer::new(alloc);
    text.word(row.name);
    text.add(b":");
    put_of_files(&mut text, alloc, row, files);
    text.add(b"\n");
    output.write_all(text.written()?)
}
