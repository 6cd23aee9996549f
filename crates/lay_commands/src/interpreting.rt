//! `interp`: the program of some files, run by its meaning.

ghost use Rattle.std.specs.Prelude.{◌≡◌, ◌⊎◌, ◌≤◌, ◌^◌, All, Err, IfErr, length};
ghost use Rattle.source_run.specs.declared.end.RunEnd.TheVariants.{Undefined};
ghost use Rattle.c_link.specs.Programs.{IsProgramOf};
ghost use Rattle.c_typed.specs.Programs.{program_data};
ghost use Rattle.lay_commands.specs.Words.{AreTurns, interpretation_of};
ghost use Rattle.lay_compile.specs.ProgramFiles.FrontEnd.{AreTexts, HasTexts};
ghost use Rattle.lay_compile.specs.ProgramFiles.Outside.{outside, stream};
ghost use Rattle.source_run.specs.Streams.{streams};
ghost use Rattle.lay_commands.specs.Answers.{IsOfSource, run_outcome};
ghost use Rattle.lay_commands.specs.Interpreting.{InterpGives, InterpretGives, Tells};

use crate::words::InterpRequest;
use compiled_files::{few_are_asked, programs_are_steady, programs_start_fit, types_are_small};
use lay_base::{File, Host, Place, Sink, Source, UndefinedKind};
use lay_compile::{PlaceTexts, SourceProgram, program_in, texts_of};
use refusals::Refusal;
use source_run::{RunEnd, Runner};
use std::alloc::Global;

/// The refusal of a run whose step at a place is undefined, with the text of the place.
fn undefined(
    alloc: Global,
    files: &[File],
    kind: UndefinedKind,
    place: Place,
    texts: &mut PlaceTexts,
) -> Refusal
    requires { All (λ file. length file.bytes ≤ 4194304) files.now }
    ensures tells { Tells (Undefined kind place) (Err result) }
    ensures texts { AreTexts files.now result texts.new }
{
    let refusal = Refusal::Undefined(kind, place);
    match texts_of(alloc, files, &refusal) {
        Ok(of_refusal) => {
            *texts = of_refusal;
            refusal
        }
        Err(want) => Refusal::Memory(want),
    }
}

/// What is answered for the end of a run of a program's files. A refusal leaves the texts of its places.
pub fn answer_for(
    alloc: Global,
    files: &[File],
    end: RunEnd,
    texts: &mut PlaceTexts,
) -> Result<u8, Refusal>
    requires { All (λ file. length file.bytes ≤ 4194304) files.now }
    ensures tells { Tells end result }
    ensures texts { IfErr result (λ refusal. AreTexts files.now refusal texts.new) }
{
    match end {
        RunEnd::Ends(status) => Ok(status),
        RunEnd::Undefined(kind, place) => Err(undefined(alloc, files, kind, place, texts)),
        RunEnd::TurnLimit(turns) => Err(Refusal::TurnLimit(turns)),
        RunEnd::Room(what, counted) => Err(Refusal::Room(what, counted)),
        RunEnd::ReadFault => Err(Refusal::ReadFault),
        RunEnd::WriteFault => Err(Refusal::WriteFault),
        RunEnd::Memory(want) => Err(Refusal::Memory(want)),
    }
}

/// Runs a program, which reads `input` and writes to `out`. A refusal leaves the texts of its places.
fn interpret<I: Source, O: Sink>(
    alloc: Global,
    source: &SourceProgram,
    turns: u64,
    input: &mut I,
    out: &mut O,
    texts: &mut PlaceTexts,
) -> Result<u8, Refusal>
    requires program { IsProgramOf source.now.files (program_data source.now.program) }
    requires turns { turns ≤ 10 ^ 18 }
    requires short { All (λ file. length file.bytes ≤ 4194304) source.now.files }
    ensures gives { InterpretGives (program_data source.now.program) turns
        (streams (I.left input.old) (I.faults input.old) (O.written out.old) (O.faults out.old))
        (streams (I.left input.new) (I.faults input.new) (O.written out.new) (O.faults out.new)) result }
    ensures texts { IfErr result (λ refusal. AreTexts source.now.files refusal texts.new) }
{
    programs_are_steady(&source.program);
    programs_start_fit(&source.program);
    few_are_asked();
    types_are_small(&source.program);
    let mut runner = Runner::new(alloc, &source.program)?;
    let end = runner.run(alloc, input, out, turns);
    answer_for(alloc, source.files.as_slice(), end, texts)
}

/// Runs the program of the files: it reads `input` and writes to `out`, and the answer is its status. A refusal leaves the texts of its places.
pub fn interp<H: Host, I: Source, O: Sink>(
    alloc: Global,
    request: InterpRequest<'_, '_>,
    host: &mut H,
    input: &mut I,
    out: &mut O,
    texts: &mut PlaceTexts,
) -> Result<u8, Refusal>
    requires { AreTurns request.turns }
    ensures input { (input.new ≡ input.old) ⊎ IsOfSource (run_outcome result) }
    ensures gives { let before = outside (H.files host.old) (H.failed_reads host.old) (H.failed_writes host.old)
        (stream (I.left input.old) (I.faults input.old)) (stream (O.written out.old) (O.faults out.old)) in
        let now = outside (H.files host.new) (H.failed_reads host.new) (H.failed_writes host.new)
        (stream (I.left input.new) (I.faults input.new)) (stream (O.written out.new) (O.faults out.new)) in
        InterpGives (interpretation_of request.entry) before now result }
    ensures texts { IfErr result (HasTexts (H.files host.old) (interpretation_of request.entry).files texts.new) }
{
    let source = program_in(alloc, host, request.files, texts)?;
    interpret(alloc, &source, request.turns, input, out, texts)
}
