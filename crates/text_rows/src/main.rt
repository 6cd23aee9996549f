//! Reads rows of C texts and prints the tokens, the trees and the tags of each, to be compared with what was written
//! down by hand.
//!
//! A row is a block of lines: what is asked and a name, as `tree a_sum`, and then the lines that stand for its text, as
//! `row_lines` has them. For each row the program prints `NAME: ` and what was asked of the text. A block that is no row
//! is answered with that.
#![tactic(auto)]

mod answers;
mod expression_text;
mod lines;
mod literals;
mod operator_text;
mod row;
mod tag_text;
mod tokens;
mod tree_text;
mod trees;

use answers::put_answer;
use lay_base::{File, Name};
use row::row_in;
use row_lines::{RowFault, bytes_in, put_no_row};
use std::alloc::Global;
use std::io::{self, BufWriter, Write};

/// The name of the file that the text of a row is.
const NAME: &str = "a.c";

/// The file for whose bytes lines stand.
fn file_of(alloc: Global, lines: &str) -> Result<File, RowFault> {
    let bytes = bytes_in(alloc, lines)?;
    let name = Name::copy_of(alloc, NAME)?;
    Ok(File { name, bytes })
}

/// Answers a row, or says why a block of lines is none.
fn answer_row<W: Write>(alloc: Global, block: &str, output: &mut W) -> io::Result<()> {
    let row = match row_in(block) {
        Ok(row) => row,
        Err(fault) => return put_no_row(output, fault, block),
    };
    match file_of(alloc, row.lines) {
        Ok(file) => put_answer(alloc, row, &file, output),
        Err(fault) => put_no_row(output, fault, block),
    }
}

fn main(rt: HostRuntime) -> io::Result<()> {
    let text = io::read_to_string(rt.alloc(), rt.stdin())?;
    let mut output = BufWriter::new(rt.alloc(), io::writer(&rt))?;
    for block in text.split("\n\n") {
        answer_row(rt.alloc(), block, &mut output)?;
    }
    output.flush()
}
