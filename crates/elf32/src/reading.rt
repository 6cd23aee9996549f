//! Reading an ELF32 file: the tests in their order, then the segments.

ghost use Rattle.std.specs.Prelude.{◌≡◌, ◌+◌, ◌*◌, ◌^◌, ◌<◌, ◌≤◌, ◌⊎◌, List as Sequence, [], ◌∷◌, ◌++◌, Result, Ok, Err, IfOk, OnOk, length, map, sum_by, take};
ghost use Rattle.std.specs.List.{All, list_any};
ghost use Rattle.rv_isa.specs.Placed.{IsPlaced};
ghost use Rattle.lay_base.specs.Want.{no_memory};
ghost use Rattle.elf32.specs.Header.{headers_offset, header_count, loadable};
ghost use Rattle.elf32.specs.Loaded.{file_tests, last_tests, loaded, meets, segment_of, segment_tests, segments_tests, test, wants};
ghost use Rattle.elf32.specs.Written.{IsWritable, elf_file};
ghost use Rattle.elf32.specs.Read.{HasFirst, LoadableGives, ReadGives, tested};

use crate::fault::ElfFault;
use crate::header::{
    CURRENT, EXECUTABLE, FILE_HEADER, LOAD, PROGRAM_HEADER, ProgramHeader, RISC_V, entry, half_at,
    header_at, header_count, header_size, headers_offset, word_at,
};
use lay_base::{Bytes, ElfField, List, NoMemory, add, copied, push};
use rv_isa::{Image, Segment};
use std::alloc::Global;

/// The magic number, 7F 45 4C 46.
const MAGIC: u32 = 0x464C457F;

/// Addresses of 32 bits, `ELFCLASS32`.
const CLASS_32: u32 = 1;

/// Little-endian numbers, `ELFDATA2LSB`.
const LITTLE_ENDIAN: u32 = 1;

/// The most segments that are loaded.
const MOST_SEGMENTS: u64 = 16;

/// The greatest sum of the segments' sizes in memory, 1280 MiB.
const GREATEST_TOTAL: u64 = 1_342_177_280;

/// A test of a field, by whether it refuses the number that was found.
fn test(field: ElfField, refuses: bool, found: u64) -> Result<(), ElfFault>
    ensures { result ≡ tested (test field refuses found ∷ []) }
{
    if refuses {
        return Err(ElfFault::BadElf(field, found));
    }
    Ok(())
}

/// The test of a field that is to have one number.
fn wants(field: ElfField, wanted: u32, found: u32) -> Result<(), ElfFault>
    ensures { result ≡ tested (wants field wanted found ∷ []) }
{
    test(field, found != wanted, u64::from(found))
}

/// The tests of the file header. The tenth is that the program headers stand in the file.
fn file_header_tests(bytes: &[u8]) -> Result<(), ElfFault>
    ensures tests { result ≡ tested (take 10 (file_tests bytes.now)) }
    ensures header { OnOk result (52 ≤ length bytes.now) }
    ensures table { OnOk result (headers_offset bytes.now + 32 * header_count bytes.now ≤ length bytes.now) }
{
    let length = bytes.len() as u64;
    test(ElfField::Length, length < u64::from(FILE_HEADER), length)?;
    wants(ElfField::Magic, MAGIC, word_at(bytes, 0))?;
    wants(ElfField::Class, CLASS_32, u32::from(bytes[4]))?;
    wants(ElfField::Data, LITTLE_ENDIAN, u32::from(bytes[5]))?;
    wants(ElfField::Ident, CURRENT, u32::from(bytes[6]))?;
    wants(
        ElfField::Kind,
        u32::from(EXECUTABLE),
        u32::from(half_at(bytes, 16)),
    )?;
    wants(
        ElfField::Machine,
        u32::from(RISC_V),
        u32::from(half_at(bytes, 18)),
    )?;
    wants(ElfField::Version, CURRENT, word_at(bytes, 20))?;
    let size = header_size(bytes);
    let count = header_count(bytes);
    let other_size = count != 0 && size != PROGRAM_HEADER;
    test(ElfField::HeaderSize, other_size, u64::from(size))?;
    let offset = u64::from(headers_offset(bytes));
    let end = offset + u64::from(PROGRAM_HEADER) * u64::from(count);
    test(ElfField::Headers, length < end, offset)
}

/// Program headers in their order: how many they are, and the first 16.
#[derive(Drop)]
struct FirstHeaders {
    count: u64,
    first: Vec<ProgramHeader>,
}

impl FirstHeaders {
    /// Counts one more header after the others, and keeps it where it is one of the first 16.
    fn add(&mut self, header: ProgramHeader) -> Result<(), NoMemory>
        requires { self.old.count + 1 < 2 ^ 64 }
        ensures count { OnOk result (self.new.count ≡ self.old.count + 1) }
        ensures first { OnOk result ((hs : Sequence ProgramHeader) → HasFirst self.old hs → HasFirst self.new (hs ++ header ∷ [])) }
    {
        if self.count < MOST_SEGMENTS {
            push(&mut self.first, header)?;
        }
        self.count += 1;
        Ok(())
    }
}

/// The program headers of the segments that are to be loaded, counted.
fn first_loadable(alloc: Global, bytes: &[u8]) -> Result<FirstHeaders, NoMemory>
    requires header { 52 ≤ length bytes.now }
    requires table { headers_offset bytes.now + 32 * header_count bytes.now ≤ length bytes.now }
    ensures { IfOk result (λ found. HasFirst found (loadable bytes.now)) }
{
    let offset = headers_offset(bytes) as usize;
    let mut found = FirstHeaders {
        count: 0,
        first: Vec::new(alloc),
    };
    for i in 0..header_count(bytes) as usize {
        let header = header_at(bytes, offset + 32 * i);
        if header.kind == LOAD {
            found.add(header)?;
        }
    }
    Ok(found)
}

/// The program headers of the segments that are to be loaded, or the test of how many they are.
fn loadable(alloc: Global, bytes: &[u8]) -> Result<Vec<ProgramHeader>, ElfFault>
    requires header { 52 ≤ length bytes.now }
    requires table { headers_offset bytes.now + 32 * header_count bytes.now ≤ length bytes.now }
    ensures { LoadableGives result bytes.now }
{
    let FirstHeaders { count, first } = first_loadable(alloc, bytes)?;
    test(ElfField::Loads, count == 0 || count > MOST_SEGMENTS, count)?;
    Ok(first)
}

/// Whether two segments have an address in common.
fn meets(a: &ProgramHeader, b: &ProgramHeader) -> bool
    ensures { result ≡ meets a.now b.now }
{
    let end_a = u64::from(a.address) + u64::from(a.memory_size);
    let end_b = u64::from(b.address) + u64::from(b.memory_size);
    u64::from(a.address.max(b.address)) < end_a.min(end_b)
}

/// Whether a segment has an address in common with one of some others.
fn overlaps(header: &ProgramHeader, others: &[ProgramHeader]) -> bool
    ensures { result ≡ list_any (meets header.now) others.now }
{
    others.iter().any(|other| meets(header, other))
}

/// The tests of a segment with those that stand before it.
fn segment_tests(
    file_length: u64,
    earlier: &[ProgramHeader],
    header: &ProgramHeader,
) -> Result<(), ElfFault>
    ensures tests { result ≡ tested (segment_tests file_length earlier.now header.now) }
    ensures range { OnOk result (header.now.offset + header.now.file_size ≤ file_length) }
{
    let offset = u64::from(header.offset);
    let file_size = u64::from(header.file_size);
    let address = u64::from(header.address);
    let memory_size = u64::from(header.memory_size);
    let file_end = offset + file_size;
    let end = address + memory_size;
    test(ElfField::FileRange, file_length < file_end, offset)?;
    test(ElfField::Sizes, memory_size < file_size, memory_size)?;
    test(ElfField::Address, end > 0x1_0000_0000, address)?;
    test(ElfField::Overlap, overlaps(header, earlier), address)
}

/// The tests of all segments, one after the other.
fn segments_tests(file_length: u64, headers: &[ProgramHeader]) -> Result<(), ElfFault>
    ensures tests { result ≡ tested (segments_tests file_length [] headers.now) }
    ensures ranges { OnOk result (All (λ h. h.offset + h.file_size ≤ file_length) headers.now) }
{
    for (i, header) in headers.iter().enumerate() {
        segment_tests(file_length, &headers[..i], header)?;
    }
    Ok(())
}

/// The sum of the segments' sizes in memory.
fn total(headers: &[ProgramHeader]) -> u64
    requires { length headers.now ≤ 16 }
    ensures { result ≡ sum_by (λ h. h.memory_size) headers.now }
{
    let mut total = 0;
    for header in headers {
        total += u64::from(header.memory_size);
    }
    total
}

/// The tests of all segments together and of the entry.
fn last_tests(bytes: &[u8], headers: &[ProgramHeader]) -> Result<(), ElfFault>
    requires header { 52 ≤ length bytes.now }
    requires few { length headers.now ≤ 16 }
    requires all { headers.now ≡ loadable bytes.now }
    ensures { result ≡ tested (last_tests bytes.now) }
{
    let total = total(headers);
    let entry = entry(bytes);
    test(ElfField::Total, total > GREATEST_TOTAL, total)?;
    test(ElfField::Entry, entry % 4 != 0, u64::from(entry))
}

/// A segment with a copy of its bytes of the file.
fn segment_of(alloc: Global, bytes: &[u8], header: &ProgramHeader) -> Result<Segment, NoMemory>
    requires { header.now.offset + header.now.file_size ≤ length bytes.now }
    ensures { IfOk result (λ segment. segment ≡ segment_of bytes.now header.now) }
{
    let from = header.offset as usize;
    let piece = &bytes[from..from + header.file_size as usize];
    Ok(Segment {
        at: header.address,
        size: header.memory_size,
        flags: (header.flags % 256) as u8,
        bytes: Bytes::of(copied(alloc, piece)?),
    })
}

fn segments(
    alloc: Global,
    bytes: &[u8],
    headers: &[ProgramHeader],
) -> Result<List<Segment>, NoMemory>
    requires { All (λ h. h.offset + h.file_size ≤ length bytes.now) headers.now }
    ensures { IfOk result (λ segments. segments ≡ map (segment_of bytes.now) headers.now) }
{
    let mut segments = List::new(alloc);
    for header in headers {
        let segment = segment_of(alloc, bytes, header)?;
        add(&mut segments, segment)?;
    }
    Ok(segments)
}

/// Reads an ELF32 file for RISC-V as the image that it loads as (System V ABI, chapters 4 and 5). The
/// segments are those of the loadable program headers, in their order, each with its bytes of the
/// file. A machine can hold the image: no two segments have an address in common, and none passes the
/// end of memory or has more bytes than its size. `BadElf` is the first field that the loader refuses,
/// with the number that was found there; `Memory` may come at any time.
pub fn read(alloc: Global, bytes: &[u8]) -> Result<Image, ElfFault>
    ensures loads { ReadGives result (loaded bytes.now) }
    ensures placed { IfOk result (λ image. IsPlaced image) }
{
    file_header_tests(bytes)?;
    let headers = loadable(alloc, bytes)?;
    segments_tests(bytes.len() as u64, &headers)?;
    last_tests(bytes, &headers)?;
    let segments = segments(alloc, bytes, &headers)?;
    Ok(Image {
        entry: entry(bytes),
        segments,
    })
}

/// The file of an image is read as that image: on the bytes that `write` gives, `read` may answer the
/// image or want of memory, and nothing else.
pub fn files_are_read_back()
    ensures { (image : Image) (answer : Result Image ElfFault) → IsWritable image → ReadGives answer (loaded (elf_file image))
        → (answer ≡ Ok image) ⊎ (answer ≡ Err (ElfFault.Memory no_memory)) }
{}
