//! The memory that a loader makes: all segments' bytes, one segment after the other.

ghost use Rattle.std.specs.Prelude.{◌≡◌, ◌++◌, ◌<◌, ◌^◌, All, IfOk, OnOk, map};
ghost use Rattle.rv_isa.specs.Memory.{initial_memory};
ghost use Rattle.rv_isa.specs.Placed.{AllPlaced, Fits};
ghost use Rattle.rv_machine.specs.Making.{bytes_of, rows_from, size_of, whole};
ghost use Rattle.rv_machine.specs.View.{bare, content_of, segments_in};

use crate::memory::Memory;
use crate::rows::Row;
use lay_base::{NoMemory, append, push, resize, with_capacity};
use rv_isa::Segment;
use std::alloc::Global;

/// How many addresses the segments have together, for which room is asked.
fn total_size(segments: &[Segment]) -> usize {
    let mut total: usize = 0;
    for segment in segments {
        total = total.saturating_add(segment.size as usize);
    }
    total
}

/// A row for each segment, in their order.
fn rows_for(alloc: Global, segments: &[Segment]) -> Result<Vec<Row>, NoMemory>
    requires { size_of segments.now < 2 ^ 64 }
    ensures { IfOk result (λ rows. rows.items ≡ rows_from 0 segments.now) }
{
    let mut rows = with_capacity(alloc, segments.len())?;
    let mut start = 0;
    for segment in segments {
        let row = Row {
            at: segment.at,
            size: segment.size as usize,
            start,
            flags: segment.flags,
        };
        push(&mut rows, row)?;
        start += segment.size as usize;
    }
    Ok(rows)
}

/// Adds the bytes of a segment, and zeros after them.
fn put_segment(bytes: &mut Vec<u8>, segment: &Segment) -> Result<(), NoMemory>
    requires { Fits segment.now }
    ensures { OnOk result (bytes.new.items ≡ bytes.old.items ++ whole segment.now) }
{
    let end = bytes.len() + segment.size as usize;
    append(bytes, segment.bytes.as_slice())?;
    resize(bytes, end, 0)
}

/// The bytes of all segments.
fn bytes_for(alloc: Global, segments: &[Segment]) -> Result<Vec<u8>, NoMemory>
    requires { All Fits segments.now }
    ensures { IfOk result (λ bytes. bytes.items ≡ bytes_of segments.now) }
{
    let mut bytes = with_capacity(alloc, total_size(segments))?;
    for segment in segments {
        put_segment(&mut bytes, segment)?;
    }
    Ok(bytes)
}

impl Memory {
    /// The memory of segments: the bytes of each, and zeros after them. Its one refusal is want of
    /// memory.
    pub fn of(alloc: Global, segments: &[Segment]) -> Result<Memory, NoMemory>
        requires { AllPlaced segments.now }
        ensures segments { IfOk result (λ m. segments_in m ≡ map bare segments.now) }
        ensures content { IfOk result (λ m. content_of m ≡ initial_memory segments.now) }
    {
        let bytes = bytes_for(alloc, segments)?;
        let rows = rows_for(alloc, segments)?;
        Ok(Memory {
            rows,
            bytes,
            code: Row::NONE,
            loads: [Row::NONE; 32],
            stores: [Row::NONE; 32],
        })
    }
}
