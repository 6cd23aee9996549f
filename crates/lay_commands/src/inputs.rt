//! What `compile` is given: the files of a program, and a profile of it.

ghost use Rattle.std.specs.Prelude.{◌≡◌, ◌≤◌, ℕ, List as Sequence, IfErr, IfSome, OnOk, length, option_map};
ghost use Rattle.c_link.specs.Programs.{IsProgramOf};
ghost use Rattle.c_typed.specs.Programs.{program_data};
ghost use Rattle.c_typed.specs.RunCounts.Order.{profile_order};
ghost use Rattle.profile_file.specs.Lines.{ReadGives};
ghost use Rattle.lay_base.specs.declared.place.File.{File};
ghost use Rattle.lay_base.specs.Known.{FilesKeep};
ghost use Rattle.lay_compile.specs.ProgramFiles.FrontEnd.{HasTexts};
ghost use Rattle.lay_compile.specs.ProgramFiles.Outside.{Stream, outside};
ghost use Rattle.lay_commands.specs.Profiles.{CountsGive, CountsIfAnyGive, FitGives, InputsGive, ProfileBytesGive, profile_limit, profiled_name};
ghost use Rattle.lay_commands.specs.Words.{compilation_of};

use crate::words::CompileRequest;
use c_typed::{Counts, Defined, Typed, profile_order};
use lay_base::{Host, Name, copied};
use lay_compile::{
    PlaceTexts, SourceProgram, bytes_of, check_number, programs_have_few_functions,
    programs_have_few_loops, read_files, with_program,
};
use profile_file::{ProfileFault, fits, read};
use refusals::Refusal;
use std::alloc::Global;

/// The greatest number of bytes of a profile.
const PROFILE_LIMIT: u64 = 67_108_864;

/// A program with its files, and the counts of its profile, if one is given.
#[derive(Drop)]
pub struct Inputs {
    pub source: SourceProgram,
    pub counts: Option<Counts>,
}

/// The bytes of the profile, if one is named.
fn profile_bytes<H: Host>(
    alloc: Global,
    host: &mut H,
    name: Option<&str>,
) -> Result<Option<Vec<u8>>, Refusal>
    ensures files { FilesKeep (H.files host.old) (H.files host.new) }
    ensures writes { OnOk result ((other : Sequence ℕ) → H.failed_writes host.new other ≡ H.failed_writes host.old other) }
    ensures gives { ProfileBytesGive (H.failed_reads host.old) (H.failed_reads host.new) (H.files host.old) (option_map (λ name. name.now) name.entry) result }
{
    match name {
        None => Ok(None),
        Some(name) => match bytes_of(alloc, host, name, PROFILE_LIMIT) {
            Ok(bytes) => Ok(Some(bytes)),
            Err(refusal) => Err(refusal),
        },
    }
}

/// The name of the function with that number in the order of profiles.
fn profiled_name<'a>(p: &'a Typed, order: &[Defined], number: u32) -> &'a [u8]
    requires { order.now ≡ profile_order (program_data p.now) }
    ensures { result.now ≡ profiled_name (program_data p.now) number }
{
    match order.get(number as usize) {
        None => b"",
        Some(f) => match p.functions.get(f.number) {
            None => b"",
            Some(f) => f.name.as_slice(),
        },
    }
}

/// Refuses the counts of another program.
fn check_fit(alloc: Global, counts: &Counts, p: &Typed) -> Result<(), Refusal>
    requires { (files : Sequence File) × IsProgramOf files (program_data p.now) }
    ensures { FitGives counts.now (program_data p.now) result }
{
    programs_have_few_functions();
    programs_have_few_loops();
    let order = profile_order(alloc, p)?;
    match fits(counts, p, order.as_slice()) {
        Ok(()) => Ok(()),
        Err(difference) => {
            let name = profiled_name(p, order.as_slice(), difference.function);
            let name = Name::of(copied(alloc, name)?);
            Err(Refusal::Stale(name, difference))
        }
    }
}

/// The counts whose text some bytes are, where they are a profile of the program.
fn counts_of(alloc: Global, bytes: &[u8], p: &Typed) -> Result<Counts, Refusal>
    requires program { (files : Sequence File) × IsProgramOf files (program_data p.now) }
    requires short { length bytes.now ≤ profile_limit }
    ensures { CountsGive bytes.now (program_data p.now) result }
{
    match read(alloc, bytes) {
        Ok(counts) => {
            check_fit(alloc, &counts, p)?;
            Ok(counts)
        }
        Err(ProfileFault::BadProfile(line)) => Err(Refusal::BadProfile(line)),
        Err(ProfileFault::Memory(want)) => Err(Refusal::Memory(want)),
    }
}

/// The counts whose text the bytes are, if there are any.
fn counts_if_any(
    alloc: Global,
    bytes: Option<Vec<u8>>,
    p: &Typed,
) -> Result<Option<Counts>, Refusal>
    requires program { (files : Sequence File) × IsProgramOf files (program_data p.now) }
    requires short { IfSome bytes (λ bytes. length bytes.items ≤ profile_limit) }
    ensures { CountsIfAnyGive bytes (program_data p.now) result }
{
    match bytes {
        None => Ok(None),
        Some(bytes) => match counts_of(alloc, bytes.as_slice(), p) {
            Ok(counts) => Ok(Some(counts)),
            Err(refusal) => Err(refusal),
        },
    }
}

/// Reads what is given. A refusal leaves the texts of its places.
pub fn inputs_in<H: Host>(
    alloc: Global,
    request: &CompileRequest<'_, '_>,
    host: &mut H,
    texts: &mut PlaceTexts,
) -> Result<Inputs, Refusal>
    // Whatever the streams are, they stay.
    ensures gives { (input out : Stream) →
        let before = outside (H.files host.old) (H.failed_reads host.old) (H.failed_writes host.old) input out in
        let now = outside (H.files host.new) (H.failed_reads host.new) (H.failed_writes host.new) input out in
        InputsGive (compilation_of request.now) before now result }
    ensures writes { OnOk result ((name : Sequence ℕ) → H.failed_writes host.new name ≡ H.failed_writes host.old name) }
    ensures texts { IfErr result (HasTexts (H.files host.old) (compilation_of request.now).files texts.new) }
{
    check_number(request.files)?;
    let files = read_files(alloc, host, request.files)?;
    let profile = profile_bytes(alloc, host, request.profile)?;
    let source = with_program(alloc, files, texts)?;
    let counts = counts_if_any(alloc, profile, &source.program)?;
    Ok(Inputs { source, counts })
}
