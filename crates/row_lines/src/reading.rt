//! From lines to bytes and files.

use crate::fault::RowFault;
use lay_base::{Bytes, File, Files, List, Name, add};
use std::alloc::Global;

/// Whether a line stands for nothing.
pub fn is_comment(line: &str) -> bool {
    line.is_empty() || line.starts_with('#')
}

/// Adds bytes in hexadecimal, with a space between any two.
fn add_hex(bytes: &mut Vec<u8>, text: &str) -> Result<(), RowFault> {
    for digits in text.split(' ') {
        let Ok(byte) = u8::from_str_radix(digits, 16) else {
            return Err(RowFault::NoRow);
        };
        bytes.push(byte)?;
    }
    Ok(())
}

/// Adds bytes in hexadecimal as many times as the number before them says.
fn add_times(bytes: &mut Vec<u8>, text: &str) -> Result<(), RowFault> {
    let Some((count, digits)) = text.split_once(' ') else {
        return Err(RowFault::NoRow);
    };
    let Ok(count) = count.parse::<u32>() else {
        return Err(RowFault::NoRow);
    };
    let mut once = Vec::new(*bytes.allocator());
    add_hex(&mut once, digits)?;
    for _ in 0..count {
        bytes.extend_from_slice(once.as_slice())?;
    }
    Ok(())
}

fn add_text(bytes: &mut Vec<u8>, text: &str, end: &[u8]) -> Result<(), RowFault> {
    bytes.extend_from_slice(text.as_bytes())?;
    bytes.extend_from_slice(end)?;
    Ok(())
}

/// Adds the bytes for which a line stands.
fn add_line(bytes: &mut Vec<u8>, line: &str) -> Result<(), RowFault> {
    if let Some(text) = line.strip_prefix('|') {
        add_text(bytes, text, b"\n")
    } else if let Some(text) = line.strip_prefix(':') {
        add_text(bytes, text, b"")
    } else if let Some(text) = line.strip_prefix("hex ") {
        add_hex(bytes, text)
    } else if let Some(text) = line.strip_prefix("times ") {
        add_times(bytes, text)
    } else if is_comment(line) {
        Ok(())
    } else {
        Err(RowFault::NoRow)
    }
}

/// The bytes for which lines stand.
pub fn bytes_in(alloc: Global, lines: &str) -> Result<Bytes, RowFault> {
    let mut bytes = Vec::new(alloc);
    for line in lines.split('\n') {
        add_line(&mut bytes, line)?;
    }
    Ok(Bytes::of(bytes))
}

/// The file with the name and the lines of a text.
fn file_in(alloc: Global, text: &str) -> Result<File, RowFault> {
    let (name, lines) = text.split_once('\n').unwrap_or((text, ""));
    let bytes = bytes_in(alloc, lines)?;
    let name = Name::copy_of(alloc, name)?;
    Ok(File { name, bytes })
}

/// What stands before each file in a block of lines.
const FILE: &str = "\nfile ";

/// The lines of a block before its first file.
pub fn head_of(block: &str) -> &str {
    match block.split_once(FILE) {
        Some((head, _)) => head,
        None => block,
    }
}

/// The files of a block of lines.
pub fn files_in(alloc: Global, block: &str) -> Result<Files, RowFault> {
    let mut files = List::new(alloc);
    for text in block.split(FILE).skip(1) {
        add(&mut files, file_in(alloc, text)?)?;
    }
    Ok(files)
}
