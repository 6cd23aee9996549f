//! The objects of a row, and the calls on them.

use crate::row::{Row, input_in};
use lay_base::{Files, List, MemHost, MemSink, MemSource};
use lay_commands::{layc, status_of};
use row_lines::{RowFault, files_in};
use std::alloc::{AllocError, Global};

/// How many bytes a sink has room for.
const ROOM: u64 = 4096;

/// The objects of a row.
#[derive(Drop)]
pub struct World {
    /// The files as the host has them at first.
    pub files: Files,
    pub host: MemHost,
    pub input: MemSource,
    pub out: MemSink,
    pub err: MemSink,
}

/// The numbers of the calls of an object that fail.
fn fails_of(alloc: Global, row: &Row, object: &str) -> Result<List<u64>, AllocError> {
    let mut numbers = Vec::new(alloc);
    for (which, number) in &row.fails {
        if *which == object {
            numbers.push(*number)?;
        }
    }
    Ok(List::of(numbers))
}

/// The words of a call.
fn words_of(alloc: Global, call: &str) -> Result<Vec<String>, AllocError> {
    let mut words = Vec::new(alloc);
    if call.is_empty() {
        return Ok(words);
    }
    for word in call.split(' ') {
        let word = if word == "''" { "" } else { word };
        words.push(word.to_string(alloc)?)?;
    }
    Ok(words)
}

fn host(alloc: Global, row: &Row, block: &str) -> Result<MemHost, RowFault> {
    let fails = fails_of(alloc, row, "host")?;
    Ok(MemHost::new(alloc, files_in(alloc, block)?, fails))
}

fn source(alloc: Global, row: &Row, block: &str) -> Result<MemSource, RowFault> {
    let fails = fails_of(alloc, row, "input")?;
    Ok(MemSource::new(input_in(alloc, block)?, fails))
}

fn sink(alloc: Global, row: &Row, object: &str) -> Result<MemSink, RowFault> {
    Ok(MemSink::with_room(alloc, ROOM, fails_of(alloc, row, object)?)?)
}

impl World {
    /// The objects of a row, which is that of a block of lines.
    pub fn new(alloc: Global, row: &Row, block: &str) -> Result<World, RowFault> {
        let files = files_in(alloc, block)?;
        let host = host(alloc, row, block)?;
        let input = source(alloc, row, block)?;
        let out = sink(alloc, row, "out")?;
        let err = sink(alloc, row, "err")?;
        Ok(World {
            files,
            host,
            input,
            out,
            err,
        })
    }

    /// The status of a call.
    pub fn status(&mut self, alloc: Global, call: &str) -> Result<u8, AllocError> {
        let words = words_of(alloc, call)?;
        Ok(status_of(&layc(
            alloc,
            &words,
            &mut self.host,
            &mut self.input,
            &mut self.out,
            &mut self.err,
        )))
    }
}
