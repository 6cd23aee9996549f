//! What a program reads from and writes to: sources and sinks of bytes, and a host of files.
//!
//! Each object counts its failed calls, and its contents are known or unknown to contracts. A call
//! fails only where a count rises or stands at its last value, `u64::MAX`.

ghost use Rattle.std.specs.Prelude.{◌≡◌, ◌≤◌, ℕ, List, Option, IsOk};
ghost use Rattle.lay_base.specs.Calls.{NextGives, PutGives, ReadGives, WriteGives};
ghost use Rattle.lay_base.specs.Known.{Contents, FilesKeep, FilesKeepBut, Raises};

use crate::no_memory::NoMemory;

/// A source failed to give a byte.
#[derive(Clone, Copy, PartialEq, Eq)]
pub struct SourceFault;

/// A sink failed to take a piece.
#[derive(Clone, Copy)]
pub struct SinkFault;

/// Why a host gave no bytes.
#[derive(Clone, Copy, PartialEq, Eq)]
pub enum HostRead {
    /// The file has more bytes than the limit of the call.
    TooLong,
    /// There is no such file, or it could not be read.
    Failed,
    /// No memory was left for the bytes.
    Memory(NoMemory),
}

/// Why a host did not write a file.
#[derive(Clone, Copy, PartialEq, Eq)]
pub enum HostWrite {
    /// The file could not be written, or only a first part of it.
    Failed,
    /// No memory was left, and nothing was written.
    Memory(NoMemory),
}

/// Where bytes come from, one at a time.
pub trait Source {
    // How many calls have failed.
    ghost faults: { Self → ℕ };

    // The bytes that are left, where they are known.
    ghost left: { Self → Option (List ℕ) };

    /// The next byte, or `None` at the end.
    fn next(&mut self) -> Result<Option<u8>, SourceFault>
        ensures count { faults self.old ≤ faults self.new }
        ensures kept { IsOk result → faults self.new ≡ faults self.old }
        ensures gives { NextGives (faults self.old) (faults self.new) (left self.old) (left self.new) result };
}

/// Where bytes go.
pub trait Sink {
    // How many calls have failed.
    ghost faults: { Self → ℕ };

    // The bytes that were written, where they are known.
    ghost written: { Self → Option (List ℕ) };

    /// Writes a piece at the end. A call that fails may have written a first part of it.
    fn put(&mut self, piece: &[u8]) -> Result<(), SinkFault>
        ensures count { faults self.old ≤ faults self.new }
        ensures kept { IsOk result → faults self.new ≡ faults self.old }
        ensures gives { PutGives (faults self.old) (faults self.new) (written self.old) (written self.new) piece.now result };
}

/// Files under names.
pub trait Host {
    // How many reads of each name have failed.
    ghost failed_reads: { Self → List ℕ → ℕ };

    // How many writes of each name have failed.
    ghost failed_writes: { Self → List ℕ → ℕ };

    // The files, where they are known.
    ghost files: { Self → Option Contents };

    /// The bytes of a file, at most `limit` of them.
    fn read_file(&mut self, name: &str, limit: u64) -> Result<Vec<u8>, HostRead>
        ensures reads { Raises (failed_reads self.old) (failed_reads self.new) result }
        ensures writes { Raises (failed_writes self.old) (failed_writes self.new) result }
        ensures files { FilesKeep (files self.old) (files self.new) }
        ensures gives { ReadGives (failed_reads self.old name.now) (failed_reads self.new name.now) (files self.old) name.now limit result };

    /// Makes a file hold these bytes, a new one or in place of what it held.
    fn write_file(&mut self, name: &str, bytes: &[u8]) -> Result<(), HostWrite>
        ensures reads { Raises (failed_reads self.old) (failed_reads self.new) result }
        ensures writes { Raises (failed_writes self.old) (failed_writes self.new) result }
        ensures others { FilesKeepBut name.now (files self.old) (files self.new) }
        ensures gives { WriteGives (failed_writes self.old name.now) (failed_writes self.new name.now) (files self.old) (files self.new)
            name.now bytes.now result };
}
