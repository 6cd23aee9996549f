//! Reads rows of commands and prints what each leaves, by the call `layc` of `lay_commands` over objects in memory, to
//! be compared with what was written down by hand.
//!
//! A row is a block of lines, with bytes and files as `row_lines` has them:
//!
//! | line | says |
//! |---|---|
//! | `row NAME` | the name of the row |
//! | `call WORD WORD` | a call with these words, where `''` is the empty one |
//! | `fails OBJECT N` | the call with that number fails, from 1, of `host`, `input`, `out` or `err` |
//! | `input` | the lines after it are the input |
//! | `file NAME` | the lines after it are that file |
//!
//! For each row the program prints `row NAME`, `status N` for each call, and where there is something of it: `out` and
//! `err` with what was written, `left` with what is left of the input, and `file NAME` with each file that has changed
//! or is new. Of a file as long as an ELF file only the headers are printed.
//! A block that is no row is answered with that.
#![tactic(auto)]

mod answers;
mod row;
mod world;

use answers::put_answer;
use row::{Row, row_in};
use row_lines::put_no_row;
use std::alloc::Global;
use std::io::{self, BufWriter, Write};
use world::World;

/// Runs the calls of a row and writes what they leave.
fn answer_calls<W: Write>(alloc: Global, block: &str, row: &Row, output: &mut W) -> io::Result<()> {
    match World::new(alloc, row, block) {
        Ok(mut world) => put_answer(alloc, row, &mut world, output),
        Err(fault) => put_no_row(output, fault, block),
    }
}

/// Answers a row, or says why a block of lines is none.
fn answer_row<W: Write>(alloc: Global, block: &str, output: &mut W) -> io::Result<()> {
    match row_in(alloc, block) {
        Ok(row) => answer_calls(alloc, block, &row, output),
        Err(fault) => put_no_row(output, fault, block),
    }
}

fn main(rt: HostRuntime) -> io::Result<()> {
    let text = io::read_to_string(rt.alloc(), rt.stdin())?;
    let mut output = BufWriter::new(rt.alloc(), io::writer(&rt))?;
    for block in text.split("\n\n") {
        answer_row(rt.alloc(), block, &mut output)?;
    }
    output.flush()
}
