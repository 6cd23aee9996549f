//! The program that some files are.

ghost use Rattle.std.specs.Prelude.{◌≡◌, ◌≤◌, All, IfErr, ℕ, List, OnOk, length, map};
ghost use Rattle.lay_base.specs.Known.{FilesKeep};
ghost use Rattle.lay_compile.specs.ProgramFiles.FrontEnd.{AreTexts, FileSourceGives, HasTexts, SourceGives};
ghost use Rattle.lay_compile.specs.ProgramFiles.Outside.{Stream, outside};

use crate::program_files::front_end::{PlaceTexts, program_of};
use crate::program_files::reading::{check_number, read_files};
use c_typed::Typed;
use lay_base::{Files, Host};
use refusals::Refusal;
use std::alloc::Global;

/// The files of a program, with the program that they are.
#[derive(Drop)]
pub struct SourceProgram {
    pub files: Files,
    pub program: Typed,
}

/// Files with the program that they are. A refusal leaves the texts of its places.
pub fn with_program(
    alloc: Global,
    files: Files,
    texts: &mut PlaceTexts,
) -> Result<SourceProgram, Refusal>
    requires few { length files ≤ 64 }
    requires short { All (λ file. length file.bytes ≤ 4194304) files }
    ensures gives { FileSourceGives files result }
    ensures texts { IfErr result (λ refusal. AreTexts files refusal texts.new) }
{
    let program = program_of(alloc, &files, texts)?;
    Ok(SourceProgram { files, program })
}

/// The program that the files under these names are, with the files. A refusal leaves the texts of its places.
pub fn program_in<H: Host>(
    alloc: Global,
    host: &mut H,
    names: &[&str],
    texts: &mut PlaceTexts,
) -> Result<SourceProgram, Refusal>
    // Whatever the streams are, they stay.
    ensures gives { (input out : Stream) →
        let before = outside (H.files host.old) (H.failed_reads host.old) (H.failed_writes host.old) input out in
        let now = outside (H.files host.new) (H.failed_reads host.new) (H.failed_writes host.new) input out in
        SourceGives (map (λ name. name.now) names.now) before now result }
    ensures writes { OnOk result ((name : List ℕ) → H.failed_writes host.new name ≡ H.failed_writes host.old name) }
    ensures texts { IfErr result (HasTexts (H.files host.old) (map (λ name. name.now) names.now) texts.new) }
{
    check_number(names)?;
    let files = read_files(alloc, host, names)?;
    with_program(alloc, files, texts)
}
