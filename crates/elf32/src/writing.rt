//! Writing an ELF32 file.

ghost use Rattle.std.specs.Prelude.{◌≡◌, ◌<◌, ◌≤◌, ◌-◌, ◌^◌, ◌++◌, ◌∷◌, [], IfOk, Ok, OnOk, length};
ghost use Rattle.elf32.specs.Loaded.{loaded};
ghost use Rattle.elf32.specs.Written.{AreInPlace, IsWritable, elf_file, file_header as header_bytes, file_of, half as half_bytes};
ghost use Rattle.elf32.specs.Written.{page_up as next_page, program_header as program_header_bytes, word as word_bytes, zeros};

use crate::header::{CURRENT, EXECUTABLE, FILE_HEADER, LOAD, PROGRAM_HEADER, RISC_V};
use lay_base::{NoMemory, append, resize, with_capacity};
use rv_isa::{Image, Segment};
use std::alloc::Global;

/// The magic number, 32 bits, little-endian and version 1 (System V ABI, ELF Identification).
const IDENT: [u8; 16] = [0x7F, b'E', b'L', b'F', 1, 1, 1, 0, 0, 0, 0, 0, 0, 0, 0, 0];

/// The alignment of segments in memory and in the file. Text stands at this offset.
const PAGE: u32 = 0x1000;

fn bytes(out: &mut Vec<u8>, piece: &[u8]) -> Result<(), NoMemory>
    ensures { OnOk result (out.new.items ≡ out.old.items ++ piece.now) }
{
    append(out, piece)
}

fn half(out: &mut Vec<u8>, n: u16) -> Result<(), NoMemory>
    ensures { OnOk result (out.new.items ≡ out.old.items ++ half_bytes n) }
{
    append(out, &n.to_le_bytes())
}

fn word(out: &mut Vec<u8>, n: u32) -> Result<(), NoMemory>
    ensures { OnOk result (out.new.items ≡ out.old.items ++ word_bytes n) }
{
    append(out, &n.to_le_bytes())
}

/// Zeros up to an offset in the file.
fn pad_to(out: &mut Vec<u8>, offset: u32) -> Result<(), NoMemory>
    requires { length out.old.items ≤ offset }
    ensures padded { OnOk result (out.new.items ≡ out.old.items ++ zeros (offset - length out.old.items)) }
    ensures reached { OnOk result (length out.new.items ≡ offset) }
{
    resize(out, offset as usize, 0)
}

/// The file header of an executable for RISC-V. Its program headers stand after it; it has no
/// section headers and no flags.
fn file_header(out: &mut Vec<u8>, entry: u32, headers: u16) -> Result<(), NoMemory>
    ensures { OnOk result (out.new.items ≡ out.old.items ++ header_bytes entry headers) }
{
    bytes(out, &IDENT)?;
    half(out, EXECUTABLE)?;
    half(out, RISC_V)?;
    word(out, CURRENT)?;
    word(out, entry)?;
    word(out, FILE_HEADER as u32)?;
    word(out, 0)?;
    word(out, 0)?;
    half(out, FILE_HEADER)?;
    half(out, PROGRAM_HEADER)?;
    half(out, headers)?;
    half(out, 0)?;
    half(out, 0)?;
    half(out, 0)
}

/// The program header of a segment whose bytes stand at this offset in the file. Its physical
/// address is its address.
fn program_header(out: &mut Vec<u8>, offset: u32, segment: &Segment) -> Result<(), NoMemory>
    requires { length segment.now.bytes < 2 ^ 32 }
    ensures { OnOk result (out.new.items ≡ out.old.items ++ program_header_bytes offset (length segment.now.bytes) segment.now) }
{
    word(out, LOAD)?;
    word(out, offset)?;
    word(out, segment.at)?;
    word(out, segment.at)?;
    word(out, segment.bytes.len() as u32)?;
    word(out, segment.size)?;
    word(out, segment.flags as u32)?;
    word(out, PAGE)
}

/// The next multiple of the alignment.
fn page_up(n: u32) -> u32
    requires { n < 2 ^ 31 }
    ensures { result ≡ next_page n }
{
    (n + PAGE - 1) / PAGE * PAGE
}

/// The file of four segments, of which the first two have bytes.
fn file(
    alloc: Global,
    entry: u32,
    text: &Segment,
    globals: &Segment,
    stack: &Segment,
    heap: &Segment,
) -> Result<Vec<u8>, NoMemory>
    requires { AreInPlace text.now globals.now stack.now heap.now }
    ensures { IfOk result (λ file. file.items ≡ file_of entry (text.now ∷ globals.now ∷ stack.now ∷ heap.now ∷ [])) }
{
    let data_offset = PAGE + page_up(text.bytes.len() as u32);
    let size = data_offset as usize + globals.bytes.len();
    let mut out = with_capacity(alloc, size)?;
    file_header(&mut out, entry, 4)?;
    program_header(&mut out, PAGE, text)?;
    program_header(&mut out, data_offset, globals)?;
    program_header(&mut out, 0, stack)?;
    program_header(&mut out, 0, heap)?;
    pad_to(&mut out, PAGE)?;
    bytes(&mut out, text.bytes.as_slice())?;
    pad_to(&mut out, data_offset)?;
    bytes(&mut out, globals.bytes.as_slice())?;
    Ok(out)
}

/// The ELF32 file of an image with text, data, stack and heap at their places. It holds the file
/// header, one program header for each segment, and, each at a multiple of 0x1000, the bytes of
/// text and of data (System V ABI, chapters 4 and 5).
pub fn write(alloc: Global, image: &Image) -> Result<Vec<u8>, NoMemory>
    requires { IsWritable image.now }
    ensures bytes { IfOk result (λ file. file.items ≡ elf_file image.now) }
    ensures loads { IfOk result (λ file. loaded file.items ≡ Ok image.now) }
{
    match image.segments.as_slice() {
        [text, globals, stack, heap] => file(alloc, image.entry, text, globals, stack, heap),
        _ => unreachable!(),
    }
}
