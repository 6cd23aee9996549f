//! Reads rows of C files and of profiles, and prints what is made of each, to be compared with what was written down by
//! hand.
//!
//! A row is a block of lines: `check NAME`, `link NAME`, `show NAME`, `code NAME`, `judge NAME`, `weigh NAME` or `plan NAME`; `places 5 9` where a
//! fault may stand at either byte; and its files, as `row_lines` has them. Or it is `profile NAME`, `fronts NAME`, `fits NAME` or `plan_by NAME`, with
//! files of which the last is a profile. For each row the program prints `NAME: ` and what became of its files.
//! A block that is no row is answered with that.
#![tactic(auto)]

mod answers;
mod faults;
mod operand_text;
mod operator_text;
mod plans;
mod profiles;
mod program_text;
mod routine_text;
mod row;
mod step_text;
mod type_text;
mod verdicts;
mod weights;

use answers::put_answer;
use lay_base::Files;
use row::row_in;
use row_lines::{files_in, put_no_row};
use std::alloc::Global;
use std::io::{self, BufWriter, Write};

/// Answers a row of C files.
fn answer_files<W: Write>(
    alloc: Global,
    block: &str,
    files: &Files,
    output: &mut W,
) -> io::Result<()> {
    match row_in(alloc, block) {
        Ok(row) => put_answer(alloc, &row, files, output),
        Err(fault) => put_no_row(output, fault, block),
    }
}

/// Answers a row, or says why a block of lines is none.
fn answer_row<W: Write>(alloc: Global, block: &str, output: &mut W) -> io::Result<()> {
    let files = match files_in(alloc, block) {
        Ok(files) => files,
        Err(fault) => return put_no_row(output, fault, block),
    };
    match profiles::question_in(block) {
        Some((question, name)) => profiles::put_answer(alloc, question, name, files, output),
        None => answer_files(alloc, block, &files, output),
    }
}

fn main(rt: HostRuntime) -> io::Result<()> {
    let text = io::read_to_string(rt.alloc(), rt.stdin())?;
    let mut output = BufWriter::new(rt.alloc(), io::writer(&rt))?;
    for block in text.split("\n\n") {
        answer_row(rt.alloc(), block, &mut output)?;
    }
    output.flush()
}
