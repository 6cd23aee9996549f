//! What is made of the text of a row, as text.

use crate::lines::put_presumed;
use crate::row::{Question, Row};
use crate::tokens::put_of_tokens;
use crate::trees::put_of_tree;
use lay_base::File;
use row_lines::Writer;
use std::alloc::Global;
use std::io::{self, Write};

/// The greatest number of bytes of a file.
const LIMIT: usize = 4_194_304;

fn put_of_file(out: &mut Writer, alloc: Global, row: Row<'_>, file: &File) {
    if file.bytes.len() > LIMIT {
        return out.word("too many bytes");
    }
    match row.question {
        Question::Tokens(asked) => put_of_tokens(out, alloc, asked, file.bytes.as_slice()),
        Question::Presumed => put_presumed(out, alloc, row.name, file.bytes.as_slice()),
        Question::Tree(asked) => put_of_tree(out, alloc, asked, file),
    }
}

/// Writes the name of a row, and what is made of its text.
pub fn put_answer<W: Write>(
    alloc: Global,
    row: Row<'_>,
    file: &File,
    output: &mut W,
) -> io::Result<()> {
    let mut text = Writer::new(alloc);
    text.word(row.name);
    text.add(b":");
    put_of_file(&mut text, alloc, row, file);
    text.add(b"\n");
    output.write_all(text.written()?)
}
