//! The headers of an ELF32 file, where they stand in its bytes (System V ABI, ELF Header and Program
//! Header). All numbers are little-endian.

ghost use Rattle.std.specs.Prelude.{◌≡◌, ◌+◌, ◌≤◌, length};
ghost use Rattle.elf32.specs.Header.{half_at, word_at, header_at, entry, headers_offset, header_size, header_count};

use byteorder::{ByteOrder, LittleEndian};

/// The kind of an executable file, `ET_EXEC`.
pub(crate) const EXECUTABLE: u16 = 2;

/// The number of the machine, `EM_RISCV`.
pub(crate) const RISC_V: u16 = 243;

/// The version of the format, `EV_CURRENT`.
pub(crate) const CURRENT: u32 = 1;

/// The size of the file header.
pub(crate) const FILE_HEADER: u16 = 52;

/// The size of each program header.
pub(crate) const PROGRAM_HEADER: u16 = 32;

/// The kind of a segment that is loaded, `PT_LOAD`.
pub(crate) const LOAD: u32 = 1;

/// The fields of a program header that a loader reads: the kind of segment, the offset of its bytes
/// in the file and how many they are, its address and size in memory, and its flags.
#[derive(Clone, Copy)]
pub(crate) struct ProgramHeader {
    pub(crate) kind: u32,
    pub(crate) offset: u32,
    pub(crate) address: u32,
    pub(crate) file_size: u32,
    pub(crate) memory_size: u32,
    pub(crate) flags: u32,
}

/// The number in the two bytes at a place.
pub(crate) fn half_at(bytes: &[u8], at: usize) -> u16
    requires { at + 2 ≤ length bytes.now }
    ensures { result ≡ half_at bytes.now at }
{
    LittleEndian::read_u16(&bytes[at..])
}

/// The number in the four bytes at a place.
pub(crate) fn word_at(bytes: &[u8], at: usize) -> u32
    requires { at + 4 ≤ length bytes.now }
    ensures { result ≡ word_at bytes.now at }
{
    LittleEndian::read_u32(&bytes[at..])
}

/// Where the program is entered.
pub(crate) fn entry(bytes: &[u8]) -> u32
    requires { 52 ≤ length bytes.now }
    ensures { result ≡ entry bytes.now }
{
    word_at(bytes, 24)
}

/// Where the program headers stand.
pub(crate) fn headers_offset(bytes: &[u8]) -> u32
    requires { 52 ≤ length bytes.now }
    ensures { result ≡ headers_offset bytes.now }
{
    word_at(bytes, 28)
}

/// How long each program header is.
pub(crate) fn header_size(bytes: &[u8]) -> u16
    requires { 52 ≤ length bytes.now }
    ensures { result ≡ header_size bytes.now }
{
    half_at(bytes, 42)
}

/// How many program headers there are.
pub(crate) fn header_count(bytes: &[u8]) -> u16
    requires { 52 ≤ length bytes.now }
    ensures { result ≡ header_count bytes.now }
{
    half_at(bytes, 44)
}

/// The program header at a place.
pub(crate) fn header_at(bytes: &[u8], at: usize) -> ProgramHeader
    requires { at + 32 ≤ length bytes.now }
    ensures { result ≡ header_at bytes.now at }
{
    ProgramHeader {
        kind: word_at(bytes, at),
        offset: word_at(bytes, at + 4),
        address: word_at(bytes, at + 8),
        file_size: word_at(bytes, at + 16),
        memory_size: word_at(bytes, at + 20),
        flags: word_at(bytes, at + 24),
    }
}
