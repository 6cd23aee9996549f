//! The file of a program.

ghost use Rattle.std.specs.Prelude.{◌≡◌, ◌≤◌, ◌<◌, ◌^◌, All, IfOk, List as Sequence};
ghost use Rattle.c_link.specs.Programs.{IsProgramOf};
ghost use Rattle.c_typed.specs.Programs.{program_data};
ghost use Rattle.compiled_files.specs.Files.{IsFileOf};
ghost use Rattle.lay_base.specs.declared.place.File.{File};
ghost use Rattle.source_values.specs.Rows.{TypesAreSmall};

use crate::laws::images_are_of_programs;
use c_typed::Typed;
use code_bounds::{few_are_asked, programs_fit};
use lay_base::NoMemory;
use lower_tac::lower;
use rv_image::image;
use std::alloc::Global;

/// A slice of bytes has bytes, which are numbers below 2^8.
fn has_bytes(bytes: &[u8])
    ensures { All (λ b. b < 2 ^ 8) bytes.now }
{}

/// The ELF file of a program of files, with so many MiB of heap, from 1 to 1024, and of stack, from 1 to 128.
pub fn compiled(alloc: Global, p: &Typed, heap: u32, stack: u32) -> Result<Vec<u8>, NoMemory>
    requires program { (files : Sequence File) × IsProgramOf files (program_data p.now) }
    requires small { TypesAreSmall (program_data p.now) }
    requires some_heap { 1 ≤ heap }
    requires heap { heap ≤ 1024 }
    requires some_stack { 1 ≤ stack }
    requires stack { stack ≤ 128 }
    ensures { IfOk result (λ elf. IsFileOf (program_data p.now) heap stack elf.items) }
{
    few_are_asked();
    let code = lower(alloc, p)?;
    programs_fit(p, &code);
    images_are_of_programs(p, &code);
    let image = image(alloc, p, &code, heap, stack)?;
    let elf = elf32::write(alloc, &image)?;
    has_bytes(elf.as_slice());
    Ok(elf)
}
