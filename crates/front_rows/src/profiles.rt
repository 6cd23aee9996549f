//! Rows about profiles: texts that are read, and written again; texts that are cut off; and whether a profile fits a program.

ghost use Rattle.std.specs.Prelude.{◌≤◌, List as Sequence, All, length};
ghost use Rattle.c_link.specs.Programs.{IsProgramOf};
ghost use Rattle.c_typed.specs.Programs.{program_data};
ghost use Rattle.lay_base.specs.declared.place.File.{File as DeclaredFile};

use crate::answers::are_within_bounds;
use crate::faults::{Spots, put_fault};
use crate::plans::put_report;
use c_typed::{Counts, Typed, profile_order};
use lay_base::{File, Files, Stale};
use lay_compile::{front, programs_have_few_functions, programs_have_few_loops};
use profile_file::{ProfileFault, fits, read, write};
use row_lines::{Writer, head_of, is_comment};
use std::alloc::Global;
use std::io::{self, Write};

/// The most bytes of a profile.
const LONGEST: usize = 67_108_864;

/// What is asked of the text of a profile.
#[derive(Clone, Copy)]
pub enum Question {
    /// Which text the counts have that are read from it.
    Text,
    /// At which line each front of it is refused.
    Fronts,
    /// Whether it fits the program of the files before it.
    Fit,
    /// How the records of that program are laid out anew by it.
    Plan,
}

/// What the first line of a row asks of a profile, and the name of the row.
fn question_of(line: &str) -> Option<(Question, &str)> {
    let (word, name) = line.split_once(' ')?;
    match word {
        "profile" => Some((Question::Text, name)),
        "fronts" => Some((Question::Fronts, name)),
        "fits" => Some((Question::Fit, name)),
        "plan_by" => Some((Question::Plan, name)),
        _ => None,
    }
}

/// What a block of lines asks of a profile, and its name, where it is a row about one.
pub fn question_in(block: &str) -> Option<(Question, &str)> {
    for line in head_of(block).split('\n') {
        if !is_comment(line) {
            return question_of(line);
        }
    }
    None
}

fn put_refusal(out: &mut Writer, fault: &ProfileFault) {
    match fault {
        ProfileFault::BadProfile(line) => {
            out.word("BadProfile at line");
            out.number(u64::from(*line));
        }
        ProfileFault::Memory(_) => out.word("out of memory"),
    }
}

/// The text of counts, below the name of their row.
fn put_counts(out: &mut Writer, alloc: Global, counts: &Counts) {
    match write(alloc, counts) {
        Ok(text) => {
            out.add(b"\n");
            out.add(text.as_slice());
        }
        Err(_) => out.word("out of memory"),
    }
}

fn put_text(out: &mut Writer, alloc: Global, text: &[u8])
    requires { length text.now ≤ 67108864 }
{
    match read(alloc, text) {
        Ok(counts) => put_counts(out, alloc, &counts),
        Err(fault) => put_refusal(out, &fault),
    }
}

/// The number of the line at which a text is refused.
fn put_line(out: &mut Writer, alloc: Global, text: &[u8])
    requires { length text.now ≤ 67108864 }
{
    match read(alloc, text) {
        Ok(_) => out.word("read"),
        Err(ProfileFault::BadProfile(line)) => out.number(u64::from(line)),
        Err(ProfileFault::Memory(_)) => out.word("out of memory"),
    }
}

/// The line for each front of a text, from the empty one on, but not the whole.
fn put_fronts(out: &mut Writer, alloc: Global, text: &[u8])
    requires { length text.now ≤ 67108864 }
{
    for count in 0..text.len() {
        put_line(out, alloc, &text[..count]);
    }
}

fn put_difference(out: &mut Writer, difference: &Stale) {
    out.value(&difference.kind);
    out.word("at function");
    out.number(u64::from(difference.function));
    out.word("expected");
    out.number(difference.expected);
    out.word("found");
    out.number(difference.found);
}

fn put_fit(out: &mut Writer, alloc: Global, counts: &Counts, program: &Typed)
    requires { (files : Sequence DeclaredFile) × IsProgramOf files (program_data program.now) }
{
    programs_have_few_functions();
    programs_have_few_loops();
    match profile_order(alloc, program) {
        Ok(order) => match fits(counts, program, order.as_slice()) {
            Ok(()) => out.word("fits"),
            Err(difference) => put_difference(out, &difference),
        },
        Err(_) => out.word("no memory"),
    }
}

fn put_by(
    out: &mut Writer,
    alloc: Global,
    question: Question,
    counts: &Counts,
    files: &[File],
    program: &Typed,
)
    requires program { (files : Sequence DeclaredFile) × IsProgramOf files (program_data program.now) }
    requires short { All (λ file. length file.bytes ≤ 4194304) files.now }
{
    match question {
        Question::Plan => put_report(out, alloc, files, program, Some(counts)),
        _ => put_fit(out, alloc, counts, program),
    }
}

/// What becomes of the program of some files by a profile.
fn put_of_program(out: &mut Writer, alloc: Global, question: Question, text: &[u8], files: &Files)
    requires { length text.now ≤ 67108864 }
{
    if !are_within_bounds(files.as_slice()) {
        return out.word("too many files or bytes");
    }
    let files_of = files.as_slice();
    match front(alloc, files) {
        Ok(program) => match read(alloc, text) {
            Ok(counts) => put_by(out, alloc, question, &counts, files_of, &program),
            Err(fault) => put_refusal(out, &fault),
        },
        Err(fault) => put_fault(
            out,
            Spots {
                files: files_of,
                places: &[],
            },
            &fault,
        ),
    }
}

fn put_of_files(out: &mut Writer, alloc: Global, question: Question, mut files: Files) {
    let Some(profile) = files.pop() else {
        return out.word("no profile");
    };
    let text = profile.bytes.as_slice();
    if text.len() > LONGEST {
        return out.word("too many bytes");
    }
    match question {
        Question::Text => put_text(out, alloc, text),
        Question::Fronts => put_fronts(out, alloc, text),
        Question::Fit | Question::Plan => put_of_program(out, alloc, question, text, &files),
    }
}

/// Writes the name of a row, and what becomes of the profile, which is its last file.
pub fn put_answer<W: Write>(
    alloc: Global,
    question: Question,
    name: &str,
    files: Files,
    output: &mut W,
) -> io::Result<()> {
    let mut text = Writer::new(alloc);
    text.word(name);
    text.add(b":");
    put_of_files(&mut text, alloc, question, files);
    text.add(b"\n");
    output.write_all(text.written()?)
}
