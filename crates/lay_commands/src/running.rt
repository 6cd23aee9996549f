//! `run`: an ELF file on the machine.

ghost use Rattle.std.specs.Prelude.{◌≡◌, ◌⊎◌, IfOk};
ghost use Rattle.rv_isa.specs.Placed.{IsPlaced};
ghost use Rattle.rv_machine.specs.Runs.{IsFresh};
ghost use Rattle.lay_compile.specs.ProgramFiles.Outside.{outside, stream};
ghost use Rattle.lay_commands.specs.Stages.{ImageGives, RunGives, answer_for};
ghost use Rattle.lay_commands.specs.Answers.{IsOfMachine, run_outcome};

use crate::words::RunRequest;
use elf32::ElfFault;
use lay_base::{Host, NoMemory, Sink, Source};
use lay_compile::bytes_of;
use refusals::Refusal;
use rv_isa::Image;
use rv_machine::{Machine, MachineEnd};
use std::alloc::Global;

/// The greatest number of bytes of an ELF file.
const ELF_LIMIT: u64 = 201_326_592;

/// The image that the bytes load as. It takes the bytes, so that their memory is free after it.
fn image_in(alloc: Global, bytes: Vec<u8>) -> Result<Image, Refusal>
    ensures placed { IfOk result IsPlaced }
    ensures gives { ImageGives bytes.items result }
{
    match elf32::read(alloc, &bytes) {
        Ok(image) => Ok(image),
        Err(ElfFault::BadElf(field, found)) => Err(Refusal::BadElf(field, found)),
        Err(ElfFault::Memory(want)) => Err(Refusal::Memory(want)),
    }
}

/// A machine that holds the image. It takes the image, so that its memory is free after it.
fn machine_of(alloc: Global, image: Image) -> Result<Machine, NoMemory>
    requires { IsPlaced image }
    ensures { IfOk result (IsFresh image) }
{
    Machine::new(alloc, &image)
}

/// The program's status, or the refusal for another end.
fn answer_for(end: MachineEnd) -> Result<u8, Refusal>
    ensures { result ≡ answer_for end }
{
    match end {
        MachineEnd::Exits(status) => Ok(status),
        MachineEnd::Trap(kind, pc) => Err(Refusal::Trap(kind, pc)),
        MachineEnd::Break(pc) => Err(Refusal::Break(pc)),
        MachineEnd::StepLimit(steps) => Err(Refusal::StepLimit(steps)),
        MachineEnd::ReadFault => Err(Refusal::ReadFault),
        MachineEnd::WriteFault => Err(Refusal::WriteFault),
    }
}

/// Runs an ELF file: its program reads `input` and writes to `out`, and the answer is its status.
pub fn run<H: Host, I: Source, O: Sink>(
    alloc: Global,
    request: RunRequest<'_>,
    host: &mut H,
    input: &mut I,
    out: &mut O,
) -> Result<u8, Refusal>
    ensures input { (input.new ≡ input.old) ⊎ IsOfMachine (run_outcome result) }
    ensures gives { let before = outside (H.files host.old) (H.failed_reads host.old) (H.failed_writes host.old)
        (stream (I.left input.old) (I.faults input.old)) (stream (O.written out.old) (O.faults out.old)) in
        let now = outside (H.files host.new) (H.failed_reads host.new) (H.failed_writes host.new)
        (stream (I.left input.new) (I.faults input.new)) (stream (O.written out.new) (O.faults out.new)) in
        RunGives request.entry.steps request.entry.elf.now before now result }
{
    let bytes = bytes_of(alloc, host, request.elf, ELF_LIMIT)?;
    let image = image_in(alloc, bytes)?;
    let mut machine = machine_of(alloc, image)?;
    answer_for(machine.run(input, out, request.steps))
}
