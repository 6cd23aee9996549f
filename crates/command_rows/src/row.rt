//! Rows: calls, and which calls of the objects fail.

use lay_base::Bytes;
use row_lines::{RowFault, bytes_in, head_of, is_comment};
use std::alloc::Global;

/// What begins the input in a block of lines.
const INPUT: &str = "\ninput\n";

/// What a row says beside its input and its files.
#[derive(Drop)]
pub struct Row<'a> {
    pub name: &'a str,
    /// The words of each call, with a space between any two.
    pub calls: Vec<&'a str>,
    /// An object, and the number of a call of it that fails.
    pub fails: Vec<(&'a str, u64)>,
}

/// Adds a call that fails.
fn add_failure<'a>(row: &mut Row<'a>, text: &'a str) -> Result<(), RowFault> {
    let Some((object, digits)) = text.split_once(' ') else {
        return Err(RowFault::NoRow);
    };
    let Ok(number) = digits.parse() else {
        return Err(RowFault::NoRow);
    };
    row.fails.push((object, number))?;
    Ok(())
}

/// Adds what a line says.
fn add<'a>(row: &mut Row<'a>, line: &'a str) -> Result<(), RowFault> {
    let (word, text) = line.split_once(' ').unwrap_or((line, ""));
    match word {
        "row" => row.name = text,
        "call" => row.calls.push(text)?,
        "fails" => add_failure(row, text)?,
        _ => return Err(RowFault::NoRow),
    }
    Ok(())
}

/// The lines of a block before its input and its files, and the lines of its input.
fn parts_of(block: &str) -> (&str, &str) {
    let head = head_of(block);
    head.split_once(INPUT).unwrap_or((head, ""))
}

/// The row of a block of lines.
pub fn row_in<'a>(alloc: Global, block: &'a str) -> Result<Row<'a>, RowFault> {
    let mut row = Row {
        name: "",
        calls: Vec::new(alloc),
        fails: Vec::new(alloc),
    };
    let (lines, _) = parts_of(block);
    for line in lines.split('\n') {
        if !is_comment(line) {
            add(&mut row, line)?;
        }
    }
    Ok(row)
}

/// The input of a block of lines.
pub fn input_in(alloc: Global, block: &str) -> Result<Bytes, RowFault> {
    let (_, lines) = parts_of(block);
    bytes_in(alloc, lines)
}
