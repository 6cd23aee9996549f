//! `profile`: the program of some files, run by its meaning, and how often its functions and loops ran.

ghost use Rattle.std.specs.Prelude.{◌≡◌, ◌⊎◌, ◌≤◌, ◌^◌, All, IfErr, length};
ghost use Rattle.c_link.specs.Programs.{IsProgramOf};
ghost use Rattle.c_typed.specs.Programs.{program_data};
ghost use Rattle.lay_commands.specs.Words.{AreTurns, profiling_of};
ghost use Rattle.lay_compile.specs.ProgramFiles.FrontEnd.{AreTexts, HasTexts};
ghost use Rattle.lay_compile.specs.ProgramFiles.Outside.{outside, stream};
ghost use Rattle.source_run.specs.Streams.{streams};
ghost use Rattle.lay_commands.specs.Answers.{IsOfSource, run_outcome};
ghost use Rattle.lay_commands.specs.Interpreting.{ProfileGives, ProfiledGives};

use crate::interpreting::answer_for;
use crate::words::ProfileRequest;
use crate::writing::write_bytes;
use compiled_files::{few_are_asked, programs_are_steady, programs_start_fit, types_are_small};
use lay_base::{Host, Sink, Source};
use lay_compile::{PlaceTexts, SourceProgram, program_in};
use refusals::Refusal;
use source_run::Runner;
use std::alloc::Global;

/// The status of a program that ended, and its profile.
#[derive(Drop)]
pub struct Profiled {
    pub status: u8,
    pub text: Vec<u8>,
}

/// Runs a program, which reads `input` and writes to `out`. A refusal leaves the texts of its places.
fn profile_of<I: Source, O: Sink>(
    alloc: Global,
    source: &SourceProgram,
    turns: u64,
    input: &mut I,
    out: &mut O,
    texts: &mut PlaceTexts,
) -> Result<Profiled, Refusal>
    requires program { IsProgramOf source.now.files (program_data source.now.program) }
    requires turns { turns ≤ 10 ^ 18 }
    requires short { All (λ file. length file.bytes ≤ 4194304) source.now.files }
    ensures gives { ProfiledGives (program_data source.now.program) turns
        (streams (I.left input.old) (I.faults input.old) (O.written out.old) (O.faults out.old))
        (streams (I.left input.new) (I.faults input.new) (O.written out.new) (O.faults out.new)) result }
    ensures texts { IfErr result (λ refusal. AreTexts source.now.files refusal texts.new) }
{
    programs_are_steady(&source.program);
    programs_start_fit(&source.program);
    few_are_asked();
    types_are_small(&source.program);
    let mut runner = Runner::new(alloc, &source.program)?;
    let end = runner.run(alloc, input, out, turns);
    let status = answer_for(alloc, source.files.as_slice(), end, texts)?;
    match profile_file::write(alloc, runner.counts()) {
        Ok(text) => Ok(Profiled { status, text }),
        Err(want) => Err(Refusal::Memory(want)),
    }
}

/// Runs the program of the files: it reads `input` and writes to `out`, and the answer is its status. Where it ended, its profile is
/// written under a name. A refusal leaves the texts of its places.
pub fn profile<H: Host, I: Source, O: Sink>(
    alloc: Global,
    request: ProfileRequest<'_, '_>,
    host: &mut H,
    input: &mut I,
    out: &mut O,
    texts: &mut PlaceTexts,
) -> Result<u8, Refusal>
    requires { AreTurns request.turns }
    ensures input { (input.new ≡ input.old) ⊎ IsOfSource (run_outcome result) }
    ensures gives { let before = outside (H.files host.old) (H.failed_reads host.old) (H.failed_writes host.old)
        (stream (I.left input.old) (I.faults input.old)) (stream (O.written out.old) (O.faults out.old)) in
        let now = outside (H.files host.new) (H.failed_reads host.new) (H.failed_writes host.new)
        (stream (I.left input.new) (I.faults input.new)) (stream (O.written out.new) (O.faults out.new)) in
        ProfileGives (profiling_of request.entry) before now result }
    ensures texts { IfErr result (HasTexts (H.files host.old) (profiling_of request.entry).files texts.new) }
{
    let source = program_in(alloc, host, request.files, texts)?;
    let profiled = profile_of(alloc, &source, request.turns, input, out, texts)?;
    write_bytes(host, request.out, &profiled.text)?;
    Ok(profiled.status)
}
