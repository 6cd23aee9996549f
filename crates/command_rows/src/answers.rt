//! What the calls of a row leave, as text.

use crate::row::Row;
use crate::world::World;
use lay_base::{File, MemHost, Source};
use row_lines::put_lines;
use std::alloc::{AllocError, Global};
use std::io::{self, Write};
use std::str;

/// How many bytes of a file are printed: the headers of a compiled file.
const SHOWN: usize = 180;

/// How many bytes of what is left of an input are looked for.
const MOST_LEFT: usize = 4096;

/// Bytes under a title, where there are some.
fn put_section<W: Write>(title: &str, bytes: &[u8], output: &mut W) -> io::Result<()> {
    if bytes.is_empty() {
        return Ok(());
    }
    writeln!(output, "{title}")?;
    put_lines(output, bytes)
}

/// What is left of an input, up to a bound.
fn left_of<S: Source>(alloc: Global, input: &mut S) -> Result<Vec<u8>, AllocError> {
    let mut left = Vec::new(alloc);
    for _ in 0..MOST_LEFT {
        match input.next() {
            Ok(Some(byte)) => left.push(byte)?,
            _ => break,
        }
    }
    Ok(left)
}

/// A file, or its first bytes and how many are left out.
fn put_file<W: Write>(name: &str, bytes: &[u8], output: &mut W) -> io::Result<()> {
    writeln!(output, "file {name}")?;
    let (shown, more) = bytes.split_at(bytes.len().min(SHOWN));
    put_lines(output, shown)?;
    if more.is_empty() {
        return Ok(());
    }
    writeln!(output, "and {} bytes", more.len())
}

/// The bytes of the first file of a name.
fn bytes_before<'a>(files: &'a [File], name: &str) -> Option<&'a [u8]> {
    files
        .iter()
        .find(|file| file.name.as_slice() == name.as_bytes())
        .map(|file| file.bytes.as_slice())
}

/// A file that has changed or is new.
fn put_if_changed<W: Write>(
    name: &str,
    files: &[File],
    host: &MemHost,
    output: &mut W,
) -> io::Result<()> {
    match host.bytes_of(name) {
        Some(bytes) if bytes_before(files, name) != Some(bytes) => put_file(name, bytes, output),
        _ => Ok(()),
    }
}

/// Adds a name that is not among those before it.
fn add_name<'a>(names: &mut Vec<&'a str>, name: &'a str) -> Result<(), AllocError> {
    if !names.contains(&name) {
        names.push(name)?;
    }
    Ok(())
}

/// The names of the files of a row and the words of its calls, each once.
fn names_of<'a>(
    alloc: Global,
    row: &Row<'a>,
    files: &'a [File],
) -> Result<Vec<&'a str>, AllocError> {
    let mut names = Vec::new(alloc);
    for file in files {
        if let Ok(name) = str::from_utf8(file.name.as_slice()) {
            add_name(&mut names, name)?;
        }
    }
    for call in &row.calls {
        for word in call.split(' ') {
            add_name(&mut names, word)?;
        }
    }
    Ok(names)
}

/// Runs the calls of a row and writes their statuses.
fn put_statuses<W: Write>(
    alloc: Global,
    row: &Row,
    world: &mut World,
    output: &mut W,
) -> io::Result<()> {
    for call in &row.calls {
        let status = world.status(alloc, call)?;
        writeln!(output, "status {status}")?;
    }
    Ok(())
}

/// Writes what is left of the input, and the files that have changed.
fn put_outside<W: Write>(
    alloc: Global,
    row: &Row,
    world: &mut World,
    output: &mut W,
) -> io::Result<()> {
    let left = left_of(alloc, &mut world.input)?;
    put_section("left", left.as_slice(), output)?;
    for name in names_of(alloc, row, world.files.as_slice())?.iter() {
        put_if_changed(name, world.files.as_slice(), &world.host, output)?;
    }
    Ok(())
}

/// Runs the calls of a row and writes what they leave, with an empty line after it.
pub fn put_answer<W: Write>(
    alloc: Global,
    row: &Row,
    world: &mut World,
    output: &mut W,
) -> io::Result<()> {
    writeln!(output, "row {}", row.name)?;
    put_statuses(alloc, row, world, output)?;
    put_section("out", world.out.bytes(), output)?;
    put_section("err", world.err.bytes(), output)?;
    put_outside(alloc, row, world, output)?;
    writeln!(output)
}
