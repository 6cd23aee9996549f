//! Rows: what is asked of files.

use row_lines::{RowFault, head_of, is_comment};
use std::alloc::Global;

/// What is asked of files.
#[derive(Clone, Copy, PartialEq, Eq)]
pub enum Question {
    /// Whether each has a unit.
    Check,
    /// Whether they are a program.
    Link,
    /// Which program they are.
    Show,
    /// Which code their functions have.
    Code,
    /// Which of its records may be laid out anew.
    Judge,
    /// How often the fields of its records are accessed.
    Weigh,
    /// How its records are laid out anew.
    Plan,
}

/// What a row says beside its files. A fault may stand at any of its places, where it has some.
#[derive(Drop)]
pub struct Row<'a> {
    pub question: Question,
    pub name: &'a str,
    pub places: Vec<u32>,
}

fn question_of(word: &str) -> Result<Question, RowFault> {
    match word {
        "check" => Ok(Question::Check),
        "link" => Ok(Question::Link),
        "show" => Ok(Question::Show),
        "code" => Ok(Question::Code),
        "judge" => Ok(Question::Judge),
        "weigh" => Ok(Question::Weigh),
        "plan" => Ok(Question::Plan),
        _ => Err(RowFault::NoRow),
    }
}

fn add_places(places: &mut Vec<u32>, text: &str) -> Result<(), RowFault> {
    for digits in text.split(' ') {
        let Ok(place) = digits.parse() else {
            return Err(RowFault::NoRow);
        };
        places.push(place)?;
    }
    Ok(())
}

/// Adds what a line says.
fn add<'a>(row: &mut Row<'a>, line: &'a str) -> Result<(), RowFault> {
    let Some((word, text)) = line.split_once(' ') else {
        return Err(RowFault::NoRow);
    };
    if word == "places" {
        return add_places(&mut row.places, text);
    }
    row.question = question_of(word)?;
    row.name = text;
    Ok(())
}

/// The row of a block of lines. Where it has no name, its name is empty.
pub fn row_in<'a>(alloc: Global, block: &'a str) -> Result<Row<'a>, RowFault> {
    let mut row = Row {
        question: Question::Check,
        name: "",
        places: Vec::new(alloc),
    };
    for line in head_of(block).split('\n') {
        if !is_comment(line) {
            add(&mut row, line)?;
        }
    }
    Ok(row)
}
