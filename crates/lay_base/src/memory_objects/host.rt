//! `MemHost`: a host of files in memory.

ghost use Rattle.std.specs.Prelude.{◌≡◌, ◌≢◌, ◌≤◌, ◌/◌, ◌↔◌, List as Sequence, ℕ, Some, false, IsTrue, OnErr, OnOk, IsSomeAnd, if◌then◌else◌, is_err};
ghost use Rattle.std.specs.Prelude.{length, option_map, position, take};
ghost use Rattle.std.specs.Str.{bytes_eq};
ghost use Rattle.lay_base.specs.Calls.{ReadGives, WriteGives};
ghost use Rattle.lay_base.specs.MemoryObjects.{called, contents_of, fails_next, read_fails};
ghost use Rattle.lay_base.specs.Known.{FilesKeepBut};
ghost use Rattle.lay_base.specs.Want.{no_memory};

use crate::bytes::{Bytes, Name};
use crate::list::List;
use crate::memory_objects::plan::Plan;
use crate::no_memory::{NoMemory, copied, push};
use crate::outside::{Host, HostRead, HostWrite};
use crate::place::{File, Files};
use std::alloc::Global;
use std::marker::Model;

/// A host of files in memory. Of the files with one name the first counts.
#[derive(Drop)]
pub struct MemHost {
    alloc: Global,
    files: Vec<File>,
    plan: Plan,
}

impl Model for MemHost {
    ghost use Rattle.lay_base.specs.MemoryObjects.{MemoryHost};

    ghost Value = { MemoryHost };

    ghost view = { λ h. record { files = h.files.items; plan = h.plan } };
}

impl MemHost {
    ghost use Rattle.lay_base.specs.MemoryObjects.{plan_of};

    /// A host of these files, whose calls with these numbers fail. Reads and writes are numbered
    /// together, and the first is 1.
    pub fn new(alloc: Global, files: Files, fails: List<u64>) -> MemHost
        ensures { result ≡ record { files = files; plan = plan_of fails } }
    {
        MemHost {
            alloc,
            files: files.into_vec(),
            plan: Plan::new(fails),
        }
    }

    /// The bytes of a file, where there is one of that name.
    pub fn bytes_of(&self, name: &str) -> Option<&[u8]>
        ensures { option_map (λ bytes. bytes.now) result ≡ contents_of self.now.files name.now }
    {
        find(&self.files, name)
    }
}

impl Host for MemHost {
    ghost failed_reads = { λ h name. h.plan.faults };

    ghost failed_writes = { λ h name. h.plan.faults };

    ghost files = { λ h. Some (contents_of h.files) };

    /// A call that is to fail gives nothing.
    fn read_file(&mut self, name: &str, limit: u64) -> Result<Vec<u8>, HostRead>
        ensures count { self.old.plan.faults ≤ self.new.plan.faults }
        ensures gives { ReadGives self.old.plan.faults self.new.plan.faults (Some (contents_of self.old.files)) name.now limit result }
        ensures failed { (result ≡ Err HostRead.Failed) ↔ IsTrue (read_fails self.old name.now) }
        ensures memory { result ≡ Err (HostRead.Memory no_memory) → IsSomeAnd (contents_of self.old.files name.now) (λ bytes. length bytes ≤ limit) }
        ensures after { self.new ≡ record self.old { plan = called self.old.plan (read_fails self.old name.now) } }
    {
        if self.plan.call() {
            self.plan.fail();
            return Err(HostRead::Failed);
        }
        let Some(bytes) = find(&self.files, name) else {
            self.plan.fail();
            return Err(HostRead::Failed);
        };
        if bytes.len() as u64 > limit {
            return Err(HostRead::TooLong);
        }
        copied(self.alloc, bytes).map_err(HostRead::Memory)
    }

    /// A call that is to fail keeps the first half of the bytes, rounded down.
    fn write_file(&mut self, name: &str, bytes: &[u8]) -> Result<(), HostWrite>
        ensures count { self.old.plan.faults ≤ self.new.plan.faults }
        ensures others { FilesKeepBut name.now (Some (contents_of self.old.files)) (Some (contents_of self.new.files)) }
        ensures gives { WriteGives self.old.plan.faults self.new.plan.faults (Some (contents_of self.old.files)) (Some (contents_of self.new.files))
            name.now bytes.now result }
        ensures memory { result ≡ Err (HostWrite.Memory no_memory) → self.new ≡ record self.old { plan = called self.old.plan false } }
        ensures fails { result ≢ Err (HostWrite.Memory no_memory) → is_err result ≡ fails_next self.old.plan }
        ensures counted { result ≢ Err (HostWrite.Memory no_memory) → self.new.plan ≡ called self.old.plan (is_err result) }
        ensures half { result ≡ Err HostWrite.Failed → contents_of self.new.files name.now ≡ Some (take (length bytes.now / 2) bytes.now) }
    {
        let to_fail = self.plan.call();
        let kept = if to_fail {
            &bytes[..bytes.len() / 2]
        } else {
            bytes
        };
        if let Err(want) = store(self.alloc, &mut self.files, name, kept) {
            return Err(HostWrite::Memory(want));
        }
        if to_fail {
            self.plan.fail();
            return Err(HostWrite::Failed);
        }
        Ok(())
    }
}

/// The bytes of the first file of a name.
fn find<'a>(files: &'a [File], name: &str) -> Option<&'a [u8]>
    ensures { option_map (λ bytes. bytes.now) result ≡ contents_of files.now name.now }
{
    files
        .iter()
        .find(|file| file.name.as_slice() == name.as_bytes())
        .map(|file| file.bytes.as_slice())
}

/// The index of the first file of a name.
fn index_of(files: &[File], name: &str) -> Option<usize>
    ensures { result ≡ position (λ file. bytes_eq file.name name.now) files.now }
{
    files
        .iter()
        .position(|file| file.name.as_slice() == name.as_bytes())
}

/// Puts bytes under a name: in the first file of that name, or in a new one at the end. Where no
/// memory is left, nothing changes.
fn store(alloc: Global, files: &mut Vec<File>, name: &str, bytes: &[u8]) -> Result<(), NoMemory>
    ensures ok { OnOk result ((other : Sequence ℕ) → contents_of files.new.items other
        ≡ (if bytes_eq name.now other then Some bytes.now else contents_of files.old.items other)) }
    ensures err { OnErr result (files.new.items ≡ files.old.items) }
{
    let bytes = Bytes::of(copied(alloc, bytes)?);
    match index_of(files, name) {
        Some(at) => {
            files[at].bytes = bytes;
            Ok(())
        }
        None => {
            let name = Name::copy_of(alloc, name)?;
            push(files, File { name, bytes })?;
            Ok(())
        }
    }
}
