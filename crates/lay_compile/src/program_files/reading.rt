//! The files that a command reads.

ghost use Rattle.std.specs.Prelude.{◌≡◌, ◌≤◌, ℕ, List, OnOk, length, map};
ghost use Rattle.lay_base.specs.Known.{FilesKeep};
ghost use Rattle.lay_compile.specs.ProgramFiles.Reading.{BytesGive, FilesGive, NumberGives, most_files};

use lay_base::{Bytes, File, Files, Host, HostRead, LimitKind, List, Name, add};
use refusals::Refusal;
use std::alloc::Global;

/// The greatest number of files of a program.
const MOST_FILES: usize = 64;

/// The greatest number of bytes of a file.
const FILE_LIMIT: u64 = 4_194_304;

/// The bytes under a name, at most `limit` of them.
pub fn bytes_of<H: Host>(
    alloc: Global,
    host: &mut H,
    name: &str,
    limit: u64,
) -> Result<Vec<u8>, Refusal>
    ensures files { FilesKeep (H.files host.old) (H.files host.new) }
    ensures reads { OnOk result ((other : List ℕ) → H.failed_reads host.new other ≡ H.failed_reads host.old other) }
    ensures writes { OnOk result ((other : List ℕ) → H.failed_writes host.new other ≡ H.failed_writes host.old other) }
    ensures gives { BytesGive limit (H.failed_reads host.old name.now) (H.failed_reads host.new name.now) (H.files host.old) name.now result }
{
    match host.read_file(name, limit) {
        Ok(bytes) => Ok(bytes),
        Err(HostRead::Failed) => Err(Refusal::FileFault(Name::copy_of(alloc, name)?)),
        Err(HostRead::TooLong) => Err(Refusal::TooLong(Name::copy_of(alloc, name)?)),
        Err(HostRead::Memory(want)) => Err(Refusal::Memory(want)),
    }
}

/// Refuses more names than a program has files.
pub fn check_number(names: &[&str]) -> Result<(), Refusal>
    ensures { NumberGives (length names.now) result }
{
    if names.len() > MOST_FILES {
        return Err(Refusal::Limit(LimitKind::Files, names.len() as u128));
    }
    Ok(())
}

/// The files under these names, each of at most 4 MiB, read in their order.
pub fn read_files<H: Host>(alloc: Global, host: &mut H, names: &[&str]) -> Result<Files, Refusal>
    requires { length names.now ≤ most_files }
    ensures files { FilesKeep (H.files host.old) (H.files host.new) }
    ensures reads { OnOk result ((name : List ℕ) → H.failed_reads host.new name ≡ H.failed_reads host.old name) }
    ensures writes { OnOk result ((name : List ℕ) → H.failed_writes host.new name ≡ H.failed_writes host.old name) }
    ensures gives { FilesGive (H.failed_reads host.old) (H.failed_reads host.new) (H.files host.old) (map (λ name. name.now) names.now) result }
{
    let mut files = List::new(alloc);
    for &name in names {
        let bytes = Bytes::of(bytes_of(alloc, host, name, FILE_LIMIT)?);
        let name = Name::copy_of(alloc, name)?;
        add(&mut files, File { name, bytes })?;
    }
    Ok(files)
}
