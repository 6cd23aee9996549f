//! The parts of an image, and the image of a program.

ghost use Rattle.std.specs.Prelude.{◌≡◌, ◌<◌, ◌≤◌, ◌^◌, ◌++◌, All, IfOk, OnOk, length};
ghost use Rattle.c_typed.specs.Programs.{program_data};
ghost use Rattle.elf32.specs.Written.{IsWritable};
ghost use Rattle.rv_image.specs.Data.{object_places, texts_at};
ghost use Rattle.rv_image.specs.Images.{Fits, full_segment, image_of, image_with, room_segment};
ghost use Rattle.rv_isa.specs.Encoding.{IsInRange};
ghost use Rattle.rv_runtime.specs.Bytes.{bytes_of, runtime_bytes, words_of};
ghost use Rattle.source_values.specs.Rows.{TypesAreSmall};
ghost use Rattle.tac_ir.specs.Code.{code_of};

use crate::data::{data, object_sizes};
use c_typed::Typed;
use lay_base::{Bytes, List, NoMemory, add, append, with_room};
use rv_code::{places, program};
use rv_isa::{Image, Inst, Segment, encode};
use rv_runtime::{runtime, runtime_data};
use source_values::Types;
use std::alloc::Global;
use tac_ir::Tac;

const TEXT: u32 = 0x0001_0000;

const DATA: u32 = 0x0800_0000;

const STACK: u32 = 0x1000_0000;

const HEAP: u32 = 0x2000_0000;

const MIB: u32 = 0x0010_0000;

/// The flags of a segment that holds code, as in ELF's program header.
const READ_EXECUTE: u8 = 5;

/// The flags of a segment that holds data.
const READ_WRITE: u8 = 6;

/// The words of instructions, the lowest byte of each first, after what is there.
#[tactic(auto, using(crate::proofs::Walks::words_next, std::proofs::lemmas::Grind::common_steps))]
fn put_code(bytes: &mut Vec<u8>, code: &[Inst]) -> Result<(), NoMemory>
    requires { All IsInRange code.now }
    ensures { OnOk result (bytes.new.items ≡ bytes.old.items ++ bytes_of (words_of code.now)) }
{
    for i in code {
        append(bytes, &encode(*i).to_le_bytes())?;
    }
    Ok(())
}

/// A segment whose bytes are all given.
fn full(at: u32, flags: u8, bytes: Vec<u8>) -> Segment
    requires { length bytes.items < 2 ^ 32 }
    ensures { result ≡ full_segment at flags bytes.items }
{
    Segment {
        at,
        size: bytes.len() as u32,
        flags,
        bytes: Bytes::of(bytes),
    }
}

/// A segment of so many MiB, all zero, to be read and written.
fn room(alloc: Global, at: u32, mib: u32) -> Segment
    requires { mib ≤ 1024 }
    ensures { result ≡ room_segment at mib }
{
    Segment {
        at,
        size: mib * MIB,
        flags: READ_WRITE,
        bytes: Bytes::of(Vec::new(alloc)),
    }
}

/// The text of a program.
fn text(alloc: Global, code: &[Inst]) -> Result<Vec<u8>, NoMemory>
    requires { All IsInRange code.now }
    ensures { IfOk result (λ bytes. bytes.items ≡ runtime_bytes ++ bytes_of (words_of code.now)) }
{
    let mut bytes = runtime(alloc)?;
    put_code(&mut bytes, code)?;
    Ok(bytes)
}

/// An image of text and data, and so many MiB of heap and of stack.
fn segments(
    alloc: Global,
    text: Vec<u8>,
    globals: Vec<u8>,
    heap: u32,
    stack: u32,
) -> Result<Image, NoMemory>
    requires text { length text.items < 2 ^ 32 }
    requires globals { length globals.items < 2 ^ 32 }
    requires heap { heap ≤ 1024 }
    requires stack { stack ≤ 128 }
    ensures { IfOk result (λ image. image ≡ image_with text.items globals.items heap stack) }
{
    let mut segments = with_room(alloc, 4)?;
    add(&mut segments, full(TEXT, READ_EXECUTE, text))?;
    add(&mut segments, full(DATA, READ_WRITE, globals))?;
    add(&mut segments, room(alloc, STACK, stack))?;
    add(&mut segments, room(alloc, HEAP, heap))?;
    Ok(Image {
        entry: TEXT,
        segments,
    })
}

/// Where the objects of a program lie, and where its texts begin.
fn places_in(alloc: Global, p: &Typed) -> Result<(List<u32>, u64), NoMemory>
    requires texts { texts_at (program_data p.now) < 2 ^ 32 }
    requires small { TypesAreSmall (program_data p.now) }
    ensures places { IfOk result (λ made. made.0 ≡ object_places (program_data p.now)) }
    ensures texts { IfOk result (λ made. made.1 ≡ texts_at (program_data p.now)) }
{
    let types = Types::of(alloc, p)?;
    let sizes = object_sizes(alloc, &types, p.objects.as_slice())?;
    let (places, end) = places(alloc, sizes.as_slice(), u64::from(DATA) + 256)?;
    Ok((List::of(places), end))
}

/// The image of a program and of its code, with so many MiB of heap and of stack.
pub fn image(alloc: Global, p: &Typed, t: &Tac, heap: u32, stack: u32) -> Result<Image, NoMemory>
    requires fits { Fits (program_data p.now) t.now }
    requires small { TypesAreSmall (program_data p.now) }
    requires some_heap { 1 ≤ heap }
    requires heap { heap ≤ 1024 }
    requires some_stack { 1 ≤ stack }
    requires stack { stack ≤ 128 }
    ensures image { IfOk result (λ image. image ≡ image_of (program_data p.now) (code_of t.now) heap stack) }
    ensures writable { IfOk result IsWritable }
{
    let (objects, texts) = places_in(alloc, p)?;
    let stack_end = STACK + stack * MIB;
    let (code, places) = program(alloc, t, stack_end, objects, texts as u32)?;
    let globals = data(alloc, p, t, &places, texts, HEAP + heap * MIB)?;
    let text = text(alloc, code.as_slice())?;
    segments(alloc, text, globals, heap, stack)
}
