//! A program in memory, as a loader makes it.

use lay_base::{Bytes, List};

/// A program in memory: where it is entered, and its segments.
#[derive(Drop)]
pub struct Image {
    pub entry: u32,
    pub segments: List<Segment>,
}

/// `size` addresses from `at` on. `flags` has 1 for execution, 2 for writing and 4 for reading, as
/// ELF's program header does. `bytes` are the first of its bytes; the rest are zero.
#[derive(Drop)]
pub struct Segment {
    pub at: u32,
    pub size: u32,
    pub flags: u8,
    pub bytes: Bytes,
}
