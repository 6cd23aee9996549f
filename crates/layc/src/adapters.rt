//! The outside as it is: files, standard input, standard output and standard error.
//!
//! No contract can say what a file or a stream holds, so these objects tell nothing. They count
//! their faults, and fail only where the system did.

ghost use Rattle.std.specs.Prelude.{◌≡◌, ◌≤◌, ℕ, List, None, is_ok, if◌then◌else◌};
ghost use Rattle.lay_base.specs.Calls.{ReadGives, WriteGives};
ghost use Rattle.lay_base.specs.Known.{Raises, raised};

use lay_base::{Host, HostRead, HostWrite, Sink, SinkFault, Source, SourceFault, read_at_most};
use std::fs;
use std::io::{Read, Write};

/// The files of the system. Its one count stands for each of a host's counts, and rises at every
/// failed call.
#[derive(Drop)]
pub struct FileHost<'a> {
    rt: &'a HostRuntime,
    faults: u64,
}

impl<'a> FileHost<'a> {
    /// The host of the files that the runtime reaches.
    pub fn new(rt: &'a HostRuntime) -> FileHost<'a>
        ensures { result.faults ≡ 0 }
    {
        FileHost { rt, faults: 0 }
    }
}

impl Host for FileHost<'_> {
    ghost failed_reads = { λ host _. host.faults };

    ghost failed_writes = { λ host _. host.faults };

    ghost files = { λ _. None };

    // The trait's clauses are repeated, since a clause of a method's own puts them aside.
    fn read_file(&mut self, name: &str, limit: u64) -> Result<Vec<u8>, HostRead>
        ensures counted { self.new.faults ≡ (if is_ok result then self.old.faults else raised self.old.faults) }
        ensures reads { Raises (λ _. self.old.faults) (λ _. self.new.faults) result }
        ensures writes { Raises (λ _. self.old.faults) (λ _. self.new.faults) result }
        ensures gives { ReadGives self.old.faults self.new.faults None name.now limit result }
    {
        let answer = read_at_most(self.rt, name, limit);
        if answer.is_err() {
            self.faults = self.faults.saturating_add(1);
        }
        answer
    }

    fn write_file(&mut self, name: &str, bytes: &[u8]) -> Result<(), HostWrite>
        ensures counted { self.new.faults ≡ (if is_ok result then self.old.faults else raised self.old.faults) }
        ensures reads { Raises (λ _. self.old.faults) (λ _. self.new.faults) result }
        ensures writes { Raises (λ _. self.old.faults) (λ _. self.new.faults) result }
        ensures gives { WriteGives self.old.faults self.new.faults None None name.now bytes.now result }
    {
        match fs::write(self.rt, name, bytes) {
            Ok(()) => Ok(()),
            Err(_) => {
                self.faults = self.faults.saturating_add(1);
                Err(HostWrite::Failed)
            }
        }
    }
}

/// A source over a reader of the system. A read that gives no byte is the end.
#[derive(Drop)]
pub struct StdSource<R: Read + Drop> {
    reader: R,
    faults: u64,
}

impl<R: Read + Drop> StdSource<R> {
    /// The source of a reader's bytes.
    pub fn new(reader: R) -> StdSource<R>
        ensures { result.faults ≡ 0 }
    {
        StdSource { reader, faults: 0 }
    }
}

impl<R: Read + Drop> Source for StdSource<R> {
    ghost faults = { λ source. source.faults };

    ghost left = { λ _. None };

    fn next(&mut self) -> Result<Option<u8>, SourceFault> {
        let mut cell = [0u8];
        match self.reader.read(&mut cell) {
            Ok(0) => Ok(None),
            Ok(_) => Ok(Some(cell[0])),
            Err(_) => {
                self.faults = self.faults.saturating_add(1);
                Err(SourceFault)
            }
        }
    }
}

/// A sink over a writer of the system. A write that takes nothing of a piece is a fault.
#[derive(Drop)]
pub struct StdSink<W: Write + Drop> {
    writer: W,
    faults: u64,
}

impl<W: Write + Drop> StdSink<W> {
    /// The sink of a writer.
    pub fn new(writer: W) -> StdSink<W>
        ensures { result.faults ≡ 0 }
    {
        StdSink { writer, faults: 0 }
    }
}

impl<W: Write + Drop> Sink for StdSink<W> {
    ghost faults = { λ sink. sink.faults };

    ghost written = { λ _. None };

    fn put(&mut self, piece: &[u8]) -> Result<(), SinkFault> {
        match self.writer.write_all(piece) {
            Ok(()) => Ok(()),
            Err(_) => {
                self.faults = self.faults.saturating_add(1);
                Err(SinkFault)
            }
        }
    }
}
