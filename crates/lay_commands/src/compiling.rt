//! `compile`: from the texts of a program's files to an ELF file and a report.

ghost use Rattle.std.specs.Prelude.{◌≡◌, ◌≤◌, ℕ, false, List as Sequence, [], All, IfErr, IfOk, length};
ghost use Rattle.std.specs.Option.{option_copied};
ghost use Rattle.c_link.specs.Programs.{IsProgramOf};
ghost use Rattle.c_typed.specs.Programs.{program_data};
ghost use Rattle.lay_base.specs.declared.place.File.{File as DeclaredFile};
ghost use Rattle.layout_plan.specs.Planning.{IsPlanned};
ghost use Rattle.lay_commands.specs.Words.{IsInRange, compilation_of};
ghost use Rattle.lay_compile.specs.LineTexts.PlaceTexts.{IsPlaceText};
ghost use Rattle.lay_compile.specs.ProgramFiles.FrontEnd.{HasTexts};
ghost use Rattle.lay_compile.specs.ProgramFiles.Outside.{Stream, outside, stream};
ghost use Rattle.lay_commands.specs.Compiling.{AreTextsFor, IsTextFor, OutputsGive, PlanGives, Reports, changes, is_changed};
ghost use Rattle.lay_commands.specs.Stages.{CompileGives, ReportGives};

use crate::inputs::{Inputs, inputs_in};
use crate::words::CompileRequest;
use crate::writing::write_bytes;
use c_typed::{Counts, Typed};
use compiled_files::{compiled, types_are_small};
use lay_base::{Bytes, File, Host, List, Name, NoMemory, Sink, add};
use lay_compile::{PlaceTexts, place_text};
use lay_report::report;
use layout_plan::{Decision, Planned, RecordPlan, planned};
use refusals::Refusal;
use std::alloc::Global;

/// The bytes of an ELF file, and those of the report.
#[derive(Drop)]
pub struct Outputs {
    pub elf: Vec<u8>,
    pub report: Vec<u8>,
}

/// Whether a record lies anew.
fn changes(decision: Decision) -> bool
    ensures { result ≡ changes decision }
{
    match decision {
        Decision::Refused(_) => false,
        Decision::Reordered | Decision::Split | Decision::Peeled => true,
    }
}

fn is_changed(plans: &[RecordPlan]) -> bool
    ensures { result ≡ is_changed plans.now }
{
    for plan in plans {
        if changes(plan.decision) {
            return true;
        }
    }
    false
}

/// The plan, where the program is not to be compiled as it is written; then no record may lie anew yet.
fn plan_to_keep(
    alloc: Global,
    request: &CompileRequest<'_, '_>,
    name: &str,
    p: &Typed,
    counts: Option<&Counts>,
) -> Result<Option<Planned>, Refusal>
    ensures { PlanGives name.now (compilation_of request.now) (program_data p.now) (option_copied counts.entry) result }
{
    if request.plain {
        return Ok(None);
    }
    let planned = planned(alloc, p, counts)?;
    if is_changed(planned.plan.records.as_slice()) {
        return Err(Refusal::NotBuilt(Name::copy_of(alloc, name)?));
    }
    Ok(Some(planned))
}

/// The text of the place of a record's violation; an empty one where it has none.
fn text_for(alloc: Global, files: &[File], decision: Decision) -> Result<Bytes, NoMemory>
    requires { All (λ file. length file.bytes ≤ 4194304) files.now }
    ensures { IfOk result (IsTextFor files.now decision) }
{
    match decision {
        Decision::Refused(violation) => place_text(alloc, files, violation.place),
        Decision::Reordered | Decision::Split | Decision::Peeled => Ok(Bytes::of(Vec::new(alloc))),
    }
}

fn texts_for(alloc: Global, files: &[File], plans: &[RecordPlan]) -> Result<List<Bytes>, NoMemory>
    requires { All (λ file. length file.bytes ≤ 4194304) files.now }
    ensures { IfOk result (AreTextsFor files.now plans.now) }
{
    let mut texts = List::new(alloc);
    for plan in plans {
        let text = text_for(alloc, files, plan.decision)?;
        add(&mut texts, text)?;
    }
    Ok(texts)
}

fn report_of(
    alloc: Global,
    files: &[File],
    p: &Typed,
    planned: Option<&Planned>,
) -> Result<Vec<u8>, NoMemory>
    requires { All (λ file. length file.bytes ≤ 4194304) files.now }
    ensures { IfOk result (λ text. Reports (option_copied planned.entry) files.now (program_data p.now) text.items) }
{
    match planned {
        None => report(alloc, p, None, &[]),
        Some(planned) => {
            let places = texts_for(alloc, files, planned.plan.records.as_slice())?;
            report(alloc, p, Some(planned), places.as_slice())
        }
    }
}

/// Makes the file and the report of what is given. The name is that of a refusal.
fn outputs_of(
    alloc: Global,
    request: &CompileRequest<'_, '_>,
    name: &str,
    inputs: &Inputs,
) -> Result<Outputs, Refusal>
    requires range { IsInRange (compilation_of request.now) }
    requires program { IsProgramOf inputs.now.source.files (program_data inputs.now.source.program) }
    requires short { All (λ file. length file.bytes ≤ 4194304) inputs.now.source.files }
    ensures { OutputsGive name.now (compilation_of request.now) inputs.now.source.files (program_data inputs.now.source.program) inputs.now.counts result }
{
    let p = &inputs.source.program;
    let planned = plan_to_keep(alloc, request, name, p, inputs.counts.as_ref())?;
    types_are_small(p);
    let elf = compiled(alloc, p, request.heap, request.stack)?;
    let report = report_of(alloc, inputs.source.files.as_slice(), p, planned.as_ref())?;
    Ok(Outputs { elf, report })
}

/// Writes the report.
fn write_report<O: Sink>(out: &mut O, report: &[u8]) -> Result<(), Refusal>
    ensures { ReportGives (O.faults out.old) (O.faults out.new) (O.written out.old) (O.written out.new) report.now result }
{
    match out.put(report) {
        Ok(()) => Ok(()),
        Err(_) => Err(Refusal::WriteFault),
    }
}

/// Compiles a program: each stage refuses what it cannot take, and only the last two write. A refusal leaves the texts of its places.
pub fn compile<H: Host, O: Sink>(
    alloc: Global,
    request: CompileRequest<'_, '_>,
    host: &mut H,
    out: &mut O,
    texts: &mut PlaceTexts,
) -> Result<(), Refusal>
    requires { IsInRange (compilation_of request) }
    // Whatever the input is, it stays.
    ensures gives { (input : Stream) →
        let before = outside (H.files host.old) (H.failed_reads host.old) (H.failed_writes host.old)
        input (stream (O.written out.old) (O.faults out.old)) in
        let now = outside (H.files host.new) (H.failed_reads host.new) (H.failed_writes host.new)
        input (stream (O.written out.new) (O.faults out.new)) in
        CompileGives (compilation_of request.entry) before now result }
    ensures texts { IfErr result (HasTexts (H.files host.old) (compilation_of request.entry).files texts.new) }
{
    let inputs = inputs_in(alloc, &request, host, texts)?;
    let outputs = outputs_of(alloc, &request, request.files[0], &inputs)?;
    write_bytes(host, request.out, &outputs.elf)?;
    write_report(out, &outputs.report)
}
